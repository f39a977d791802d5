//! The command of words.

ghost use Rattle.std.specs.Prelude.{◌≡◌, ℕ, Some, map, option_map, codes, string_bytes, MatchResult};
ghost use Rattle.clap.specs.Words.{Text, first_of, rows_of, found_of};
ghost use Rattle.command_words.specs.Words.{Command as Meaning, command_of, series_given, number_given, number_between, pivots_given, with_pivots, check_of, audit_of, rehearsal_of, rehearse_of, command_with};
ghost use Rattle.command_words.specs.Meanings.{meaning_of, IsWordsFault};

use crate::command::{Command, WordsFault};
use crate::finding::{clap_command, found_by};
use clap::ArgMatches;
use schedule_model::Series;
use std::alloc::Global;
use text_lines::number_of;

/// How many pivots are made where no number is given.
const PIVOTS: u64 = 100000;

/// The greatest number of pivots that can be given.
const MOST_PIVOTS: u64 = 1000000000;

/// How many periods are audited where no number is given.
const PERIODS: u64 = 4;

/// The greatest number of periods that can be given.
const MOST_PERIODS: u64 = 1000000;

/// The bytes of a chunk where no number is given.
const CHUNK: u64 = 65536;

/// The most bytes of a chunk that can be given.
const MOST_CHUNK: u64 = 16777216;

/// The series of a text, and that of tasks where none is given.
fn series_given(text: Option<&str>) -> Option<Series>
    ensures { result ≡ series_given (option_map (λ s. s.now) text.entry) }
{
    match text {
        None => Some(Series::Tasking),
        Some(text) if text == "tasking" => Some(Series::Tasking),
        Some(text) if text == "scatter" => Some(Series::Scatter),
        Some(_) => None,
    }
}

/// A number up to a bound, and another where none is given.
fn number_given(text: Option<&str>, most: u64, default: u64) -> Option<u64>
    ensures { result ≡ number_given most default (option_map (λ s. s.now) text.entry) }
{
    match text {
        None => Some(default),
        Some(text) => number_of(text.as_bytes(), u128::from(most)).map(|number| number as u64),
    }
}

/// A number from a least one up to a bound, and another where none is given.
fn number_between(text: Option<&str>, least: u64, most: u64, default: u64) -> Option<u64>
    ensures { result ≡ number_between least most default (option_map (λ s. s.now) text.entry) }
{
    number_given(text, most, default).filter(|number| *number >= least)
}

/// What was found under an id.
fn text_of<'a>(matches: &ArgMatches<'a>, id: &str) -> Option<&'a str>
    ensures { option_map (λ s. s.now) result ≡ first_of id.now (rows_of (found_of matches.now)) }
{
    matches.get_str(id)
}

/// A file, a series and a bound on pivots, as `plan` and `prices` have them.
fn pivots_of<'a>(matches: &ArgMatches<'a>) -> Option<(&'a str, Series, u64)>
    ensures { (make : Text → Series → ℕ → Meaning)
        → option_map (λ given. make given.0.now given.1 given.2) result ≡ with_pivots make (rows_of (found_of matches.now)) }
{
    let file = text_of(matches, "FILE")?;
    let series = series_given(text_of(matches, "series"))?;
    let pivots = number_given(text_of(matches, "pivots"), MOST_PIVOTS, PIVOTS)?;
    Some((file, series, pivots))
}

/// `check`, with what was found of it.
fn check_of<'a>(matches: &ArgMatches<'a>) -> Option<Command<'a>>
    ensures { option_map meaning_of result ≡ check_of (rows_of (found_of matches.now)) }
{
    Some(Command::Check {
        file: text_of(matches, "FILE")?,
        certificate: text_of(matches, "CERTIFICATE")?,
        series: series_given(text_of(matches, "series"))?,
    })
}

/// `audit`, with what was found of it.
fn audit_of<'a>(matches: &ArgMatches<'a>) -> Option<Command<'a>>
    ensures { option_map meaning_of result ≡ audit_of (rows_of (found_of matches.now)) }
{
    Some(Command::Audit {
        file: text_of(matches, "FILE")?,
        plan: text_of(matches, "PLAN")?,
        periods: number_given(text_of(matches, "periods"), MOST_PERIODS, PERIODS)?,
    })
}

/// A bound on pivots.
fn pivots_given(matches: &ArgMatches<'_>) -> Option<u64>
    ensures { result ≡ pivots_given (rows_of (found_of matches.now)) }
{
    number_given(text_of(matches, "pivots"), MOST_PIVOTS, PIVOTS)
}

/// The bytes of a chunk.
fn chunk_given(matches: &ArgMatches<'_>) -> Option<u32>
    ensures { result ≡ number_between 1 16777216 65536 (first_of (codes "chunk") (rows_of (found_of matches.now))) }
{
    number_between(text_of(matches, "chunk"), 1, MOST_CHUNK, CHUNK).map(|bytes| bytes as u32)
}

/// `rehearse` with its two names, and what else was found of it.
fn rehearsal_of<'a>(file: &'a str, other: &'a str, matches: &ArgMatches<'a>) -> Option<Command<'a>>
    ensures { option_map meaning_of result ≡ rehearsal_of file.now other.now (rows_of (found_of matches.now)) }
{
    Some(Command::Rehearse {
        file,
        data: other,
        chunk: chunk_given(matches)?,
        seed: number_given(text_of(matches, "seed"), u64::MAX, 0)?,
        pivots: pivots_given(matches)?,
    })
}

/// `rehearse`, with what was found of it.
fn rehearse_of<'a>(matches: &ArgMatches<'a>) -> Option<Command<'a>>
    ensures { option_map meaning_of result ≡ rehearse_of (rows_of (found_of matches.now)) }
{
    let file = text_of(matches, "FILE")?;
    let data = text_of(matches, "DATA")?;
    rehearsal_of(file, data, matches)
}

/// The command that a word names, with what was found of it.
fn command_with<'a>(word: &str, matches: &ArgMatches<'a>) -> Option<Command<'a>>
    ensures { option_map meaning_of result ≡ command_with word.now (rows_of (found_of matches.now)) }
{
    match word {
        "plan" => {
            let (file, series, pivots) = pivots_of(matches)?;
            Some(Command::Plan {
                file,
                series,
                pivots,
            })
        }
        "prices" => {
            let (file, series, pivots) = pivots_of(matches)?;
            Some(Command::Prices {
                file,
                series,
                pivots,
            })
        }
        "check" => check_of(matches),
        "audit" => audit_of(matches),
        "rehearse" => rehearse_of(matches),
        _ => None,
    }
}

/// The command that the words give: `plan FILE` and `prices FILE` with `--series` and `--pivots`, `check FILE CERTIFICATE` with
/// `--series`, `audit FILE PLAN` with `--periods`, and `rehearse FILE DATA` with `--chunk`, `--seed` and `--pivots`.
///
/// # Errors
///
/// `Usage` exactly where there is no word, the first one is no command, clap refuses the words, or a number or series isn't one.
pub fn command_in(alloc: Global, words: &[String]) -> Result<Command<'_>, WordsFault>
    ensures { MatchResult result
        (λ command. command_of (map string_bytes words.now) ≡ Some (meaning_of command))
        (IsWordsFault (map string_bytes words.now)) }
{
    let Some(word) = words.first() else {
        return Err(WordsFault::Usage);
    };
    let Some(command) = clap_command(alloc, word)? else {
        return Err(WordsFault::Usage);
    };
    let matches = found_by(command, words)?;
    command_with(word, &matches).ok_or(WordsFault::Usage)
}
