//! What clap finds in the words of each command.

ghost use Rattle.std.specs.Prelude.{◌≡◌, ◌≢◌, Some, None, true, false, map, option_map, IfOk, IfErr, string_bytes};
ghost use Rattle.clap.specs.Words.{app_of, rule_of, rows_of, found_of, is_simple_and_free};
ghost use Rattle.command_words.specs.Words.{name_rule, option_rule, bare_app, plan_app, check_app, audit_app, rehearse_names, rehearse_app, app_named, found_in};

use crate::command::WordsFault;
use clap::error::ErrorKind;
use clap::{Arg, ArgAction, ArgMatches, Command, Error};
use std::alloc::{AllocError, Global};

/// A name that has to be given.
fn name<'a>(alloc: Global, id: &'a str) -> Arg<'a>
    ensures rule { rule_of result ≡ name_rule id.entry.now }
    ensures local { result.global ≡ false }
{
    Arg::new(alloc, id).required(true).action(ArgAction::Set)
}

/// An option with a value.
fn option<'a>(alloc: Global, id: &'a str) -> Arg<'a>
    ensures rule { rule_of result ≡ option_rule id.entry.now }
    ensures local { result.global ≡ false }
{
    Arg::new(alloc, id).long(id).action(ArgAction::Set)
}

/// A command without help and version flags.
fn bare<'a>(alloc: Global, word: &'a str) -> Command<'a>
    ensures { app_of result ≡ bare_app word.entry.now }
{
    Command::new(alloc, word)
        .disable_help_flag(true)
        .disable_version_flag(true)
}

/// Why clap refuses words.
fn fault_of(kind: ErrorKind) -> WordsFault
    ensures { result ≡ WordsFault.Usage → kind ≢ ErrorKind.OutOfMemory }
{
    match kind {
        ErrorKind::OutOfMemory => WordsFault::NoMemory,
        _ => WordsFault::Usage,
    }
}

/// What a command finds in words. What it refuses for another cause than memory is no command.
pub(crate) fn found_by<'a>(
    command: Command<'a>,
    words: &'a [String],
) -> Result<ArgMatches<'a>, WordsFault>
    requires { is_simple_and_free (app_of command) ≡ true }
    ensures ok { IfOk result (λ m. found_in (app_of command.entry) (map string_bytes words.entry.now) ≡ Some (rows_of (found_of m))) }
    ensures err { IfErr result
        (λ fault. fault ≡ WordsFault.Usage → found_in (app_of command.entry) (map string_bytes words.entry.now) ≡ None) }
{
    match command.try_get_matches_from(words) {
        Ok(matches) => Ok(matches),
        Err(error) => Err(fault_of(error.kind())),
    }
}

/// The command `plan` or `prices`: a file, a series and a bound on pivots.
fn plan_command<'a>(alloc: Global, word: &'a str) -> Result<Command<'a>, AllocError>
    ensures { IfOk result (λ command. app_of command ≡ plan_app word.entry.now) }
{
    bare(alloc, word)
        .arg(name(alloc, "FILE"))?
        .arg(option(alloc, "series"))?
        .arg(option(alloc, "pivots"))
}

/// The command `check`: two files and a series.
fn check_command<'a>(alloc: Global) -> Result<Command<'a>, AllocError>
    ensures { IfOk result (λ command. app_of command ≡ check_app) }
{
    bare(alloc, "check")
        .arg(name(alloc, "FILE"))?
        .arg(name(alloc, "CERTIFICATE"))?
        .arg(option(alloc, "series"))
}

/// The command `audit`: two files and a number of periods.
fn audit_command<'a>(alloc: Global) -> Result<Command<'a>, AllocError>
    ensures { IfOk result (λ command. app_of command ≡ audit_app) }
{
    bare(alloc, "audit")
        .arg(name(alloc, "FILE"))?
        .arg(name(alloc, "PLAN"))?
        .arg(option(alloc, "periods"))
}

/// The two names of the command `rehearse`.
fn rehearse_names<'a>(alloc: Global) -> Result<Command<'a>, AllocError>
    ensures { IfOk result (λ command. app_of command ≡ rehearse_names) }
{
    bare(alloc, "rehearse")
        .arg(name(alloc, "FILE"))?
        .arg(name(alloc, "DATA"))
}

/// The command `rehearse`: two files, the bytes of a chunk, a seed and a bound on pivots.
fn rehearse_command<'a>(alloc: Global) -> Result<Command<'a>, AllocError>
    ensures { IfOk result (λ command. app_of command ≡ rehearse_app) }
{
    rehearse_names(alloc)?
        .arg(option(alloc, "chunk"))?
        .arg(option(alloc, "seed"))?
        .arg(option(alloc, "pivots"))
}

/// What clap is to read of the words of a command.
pub(crate) fn clap_command<'a>(alloc: Global, word: &str) -> Result<Option<Command<'a>>, AllocError>
    ensures { IfOk result (λ found. option_map app_of found ≡ app_named word.now) }
{
    Ok(Some(match word {
        "plan" => plan_command(alloc, "plan")?,
        "prices" => plan_command(alloc, "prices")?,
        "check" => check_command(alloc)?,
        "audit" => audit_command(alloc)?,
        "rehearse" => rehearse_command(alloc)?,
        _ => return Ok(None),
    }))
}
