//! The top call: from the words and the bytes of a file to the bytes of an answer.

ghost use Rattle.std.specs.Prelude.{◌≡◌, map, string_bytes, MatchResult, IsOkAnd, IsErrAnd};
ghost use Rattle.steady_top.specs.Faults.{refusal_of};
ghost use Rattle.steady_top.specs.Refusals.{status_of, no_memory, error_line};
ghost use Rattle.steady_top.specs.Answers.{IsAnswer, IsCause, call_of, IsResponse, IsOneOf, Ends};
ghost use Rattle.steady_top.specs.Ends.{IsEnd};

use crate::auditing::audit;
use crate::checking::check;
use crate::fault::TopFault;
use crate::planning::{plan, prices};
use crate::rehearsing::rehearse;
use crate::status::Status;
use command_words::{Command, WordsFault, command_in};
use listed::NoMemory;
use outside_io::{Failed, Files, Sink, write_whole};
use std::alloc::Global;

/// The bytes of a text, or why there is none.
fn bytes_of<'a>(text: Result<String, TopFault<'a>>) -> Result<Vec<u8>, TopFault<'a>>
    ensures { MatchResult text.entry
        (λ t. IsOkAnd result (λ bytes. bytes.items ≡ string_bytes t))
        (λ fault. IsErrAnd result (λ same. refusal_of same ≡ refusal_of fault)) }
{
    Ok(text?.into_bytes())
}

/// All that comes before the first byte is written: the text to print, or why there is none.
fn answer<'a, F: Files>(
    alloc: Global,
    words: &'a [String],
    files: &mut F,
) -> Result<Vec<u8>, TopFault<'a>>
    ensures { MatchResult result
        (λ text. IsAnswer (map string_bytes words.now) (F.state files.old) (F.state files.new) text.items)
        (λ fault. IsCause (map string_bytes words.now) (F.state files.old) (F.state files.new) (refusal_of fault)) }
{
    match command_in(alloc, words) {
        Ok(
            Command::Plan {
                file,
                series,
                pivots,
            },
        ) => bytes_of(plan(alloc, files, file, series, pivots)),
        Ok(
            Command::Prices {
                file,
                series,
                pivots,
            },
        ) => bytes_of(prices(alloc, files, file, series, pivots)),
        Ok(
            Command::Check {
                file,
                certificate,
                series,
            },
        ) => bytes_of(check(alloc, files, file, certificate, series)),
        Ok(
            Command::Audit {
                file,
                plan,
                periods,
            },
        ) => bytes_of(audit(alloc, files, file, plan, periods)),
        Ok(
            Command::Rehearse {
                file,
                data,
                chunk,
                seed,
                pivots,
            },
        ) => rehearse(alloc, files, file, data, chunk, seed, pivots),
        Err(WordsFault::Usage) => Err(TopFault::Usage),
        Err(WordsFault::NoMemory) => Err(TopFault::NoMemory),
    }
}

/// Writes the text and answers the status, or `WriteFault` where a write failed.
fn finish<S: Sink>(out: &mut S, text: &[u8], status: Status) -> Status
    ensures { Ends status text.now (S.state out.old) (S.state out.new) result }
{
    match write_whole(out, text) {
        Ok(()) => status,
        Err(Failed) => Status::WriteFault,
    }
}

/// Writes the refusal's error line; without memory for it, the line `out of memory`.
pub fn refuse<S: Sink>(alloc: Global, fault: &TopFault, out: &mut S) -> Status
    ensures { IsOneOf (refusal_of fault.now) no_memory
        (λ refusal. Ends (status_of refusal) (error_line refusal) (S.state out.old) (S.state out.new) result) }
{
    match fault.line(alloc) {
        Ok(line) => finish(out, line.as_bytes(), fault.status()),
        Err(NoMemory) => finish(out, b"error: out of memory\n", Status::NoMemory),
    }
}

/// The whole of the work, with all that is known of how it ends.
fn respond<F: Files, S: Sink>(alloc: Global, words: &[String], files: &mut F, out: &mut S) -> Status
    ensures { IsResponse (call_of words.now (F.state files.old) (F.state files.new) (S.state out.old) (S.state out.new)) result }
{
    match answer(alloc, words, files) {
        Ok(text) => finish(out, &text, Status::Done),
        Err(fault) => refuse(alloc, &fault, out),
    }
}

/// The program: reads what the words name, and writes a text or one error line.
///
/// `plan FILE` prints the plan of the platform in the file, `prices FILE` the certificate of its best rate, both found with at most as
/// many pivots as `--pivots` says. `check FILE CERTIFICATE` prints the rate that the certificate proves for it, and `audit FILE PLAN` what
/// the plan completes on it over as many periods as `--periods` says. All of a text is made before its first byte is written, and each file
/// of a command is opened once, the second one behind a platform that was read.
pub fn steady<F: Files, S: Sink>(
    alloc: Global,
    words: &[String],
    files: &mut F,
    out: &mut S,
) -> Status
    // What each status says stands in `IsEnd`, a field a status, and behind them when the answer is the one that the definitions give.
    ensures { IsEnd (call_of words.now (F.state files.old) (F.state files.new) (S.state out.old) (S.state out.new)) result }
{
    respond(alloc, words, files, out)
}
