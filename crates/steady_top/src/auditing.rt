//! The command `audit`.

ghost use Rattle.std.specs.Prelude.{◌≡◌, ◌≤◌, ◌++◌, codes, decimal, string_bytes, MatchResult, IfOk, OnOk};
ghost use Rattle.text_lines.specs.Lines.{line};
ghost use Rattle.command_words.specs.Words.{audit};
ghost use Rattle.steady_top.specs.Faults.{refusal_of};
ghost use Rattle.steady_top.specs.Audits.{audit_text, IsAudit};
ghost use Rattle.steady_top.specs.Outcomes.{audit_of_file};
ghost use Rattle.steady_top.specs.Answers.{IsMade, IsCauseFor};
ghost use Rattle.steady_top.specs.Planned.{IsSecondFault, IsScheduleOf, IsAuditFault, IsAudited};

use crate::fault::{ReadingFault, TopFault};
use crate::reading::{read_named, read_timed};
use listed::NoMemory;
use outside_io::Files;
use period_table::{UnrollFault, unroll};
use plan_text::{PlanTextFault, read_plan};
use platform_file::Timed;
use schedule_model::{Schedule, Series, check_schedule};
use std::alloc::Global;

/// The most bytes of a plan.
const MOST_PLAN_BYTES: u64 = 4194304;

/// Appends what an audit is of.
fn push_periods(out: &mut String, periods: u64) -> Result<(), NoMemory>
    ensures { OnOk result (string_bytes out.new ≡ string_bytes out.old ++ (codes "audit 1 periods " ++ decimal periods)) }
{
    write!(out, "audit 1 periods {periods}")?;
    Ok(())
}

/// Appends the ticks of a schedule.
fn push_ticks(out: &mut String, ticks: u128) -> Result<(), NoMemory>
    ensures { OnOk result (string_bytes out.new ≡ string_bytes out.old ++ (codes " ticks " ++ decimal ticks)) }
{
    write!(out, " ticks {ticks}")?;
    Ok(())
}

/// Appends how many tasks or messages are completed, and ends the line.
fn push_count(out: &mut String, count: u64) -> Result<(), NoMemory>
    ensures { OnOk result (string_bytes out.new ≡ string_bytes out.old ++ line (codes " completed " ++ decimal count)) }
{
    write!(out, " completed {count}\n")?;
    Ok(())
}

/// The line of an audit.
fn audit_line(alloc: Global, periods: u64, ticks: u128, count: u64) -> Result<String, NoMemory>
    ensures { IfOk result (λ text. string_bytes text ≡ audit_text periods ticks count) }
{
    let mut out = String::new(alloc);
    push_periods(&mut out, periods)?;
    push_ticks(&mut out, ticks)?;
    push_count(&mut out, count)?;
    Ok(out)
}

/// The schedule of the plan in some bytes, with its series, over some periods.
fn schedule_in<'a>(
    alloc: Global,
    timed: &Timed,
    bytes: &[u8],
    periods: u64,
) -> Result<(Series, Schedule), TopFault<'a>>
    requires { periods ≤ 1000000 }
    ensures { MatchResult result
        (λ found. IsScheduleOf periods timed.now bytes.now found.0 found.1)
        (λ fault. IsAuditFault periods timed.now bytes.now (refusal_of fault)) }
{
    let (series, table) = match read_plan(alloc, timed, bytes) {
        Ok(found) => found,
        Err(PlanTextFault::Line(number)) => return Err(TopFault::Unread(ReadingFault::PlanLine(
            number,
        ))),
        Err(PlanTextFault::NoMemory) => return Err(TopFault::NoMemory),
    };
    match unroll(alloc, timed, series, &table, periods) {
        Ok(schedule) => Ok((series, schedule)),
        Err(UnrollFault::TooLong) => Err(TopFault::Unread(ReadingFault::LongSchedule)),
        Err(UnrollFault::NoMemory) => Err(TopFault::NoMemory),
    }
}

/// What the audit of the plan in some bytes comes to.
fn audit_of<'a>(
    alloc: Global,
    timed: &Timed,
    bytes: &[u8],
    periods: u64,
) -> Result<String, TopFault<'a>>
    requires { periods ≤ 1000000 }
    ensures { MatchResult result
        (λ text. IsAudit periods timed.now bytes.now (string_bytes text))
        (λ fault. IsAuditFault periods timed.now bytes.now (refusal_of fault)) }
{
    let (series, schedule) = schedule_in(alloc, timed, bytes, periods)?;
    match check_schedule(timed, series, &schedule) {
        Ok(count) => Ok(audit_line(alloc, periods, schedule.length, count)?),
        Err(breach) => Err(TopFault::Breach(breach)),
    }
}

/// The numbers of the plan in the named file, for a platform, over some periods.
fn audit_over<'a, F: Files>(
    alloc: Global,
    files: &mut F,
    name: &'a str,
    timed: &Timed,
    periods: u64,
) -> Result<String, TopFault<'a>>
    requires { periods ≤ 1000000 }
    ensures { MatchResult result
        (λ text. IsAudited timed.now periods (F.state files.old) name.now (F.state files.new) (string_bytes text))
        (λ fault. IsSecondFault (audit_of_file periods timed.now) (F.state files.old) name.now (F.state files.new) (refusal_of fault)) }
{
    timed.known();
    let long = TopFault::Unread(ReadingFault::LongPlan);
    let bytes = read_named(alloc, files, name, MOST_PLAN_BYTES, long)?;
    audit_of(alloc, timed, &bytes, periods)
}

/// The numbers of the plan in the second file, for the platform in the first, over some periods.
pub(crate) fn audit<'a, F: Files>(
    alloc: Global,
    files: &mut F,
    name: &'a str,
    second: &'a str,
    periods: u64,
) -> Result<String, TopFault<'a>>
    requires { periods ≤ 1000000 }
    ensures { MatchResult result
        (λ text. IsMade (audit name.now second.now periods) (F.state files.old) (F.state files.new) (string_bytes text))
        (λ fault. IsCauseFor (audit name.now second.now periods) (F.state files.old) (F.state files.new) (refusal_of fault)) }
{
    let timed = read_timed(alloc, files, name)?;
    audit_over(alloc, files, second, &timed, periods)
}
