//! The command `rehearse`.

ghost use Rattle.std.specs.Prelude.{◌≡◌, ◌≤◌, ◌^◌, length, MatchResult, IfOk};
ghost use Rattle.schedule_model.specs.declared.schedule.Series.TheVariants.{Tasking};
ghost use Rattle.period_table.specs.Tables.{Fits};
ghost use Rattle.step_core.specs.declared.wiring.Event.{Event};
ghost use Rattle.actor_programs.specs.Programs.{wiring_of};
ghost use Rattle.actor_programs.specs.Faults.{events_in};
ghost use Rattle.chunk_tasks.specs.Chunks.{chunk_count, digests_of};
ghost use Rattle.run_text.specs.Reports.{report_text};
ghost use Rattle.run_text.specs.Counts.{node_counts};
ghost use Rattle.command_words.specs.Words.{rehearse};
ghost use Rattle.steady_top.specs.Faults.{refusal_of};
ghost use Rattle.steady_top.specs.Rehearsals.{IsHistoryOf, run_text};
ghost use Rattle.steady_top.specs.Outcomes.{rehearse_of_file};
ghost use Rattle.steady_top.specs.Answers.{IsMade, IsCauseFor};
ghost use Rattle.steady_top.specs.Planned.{IsSecondFault, IsWired, IsTableFault, IsRunOf, IsBestRehearsal, IsRehearsalFault, IsRehearsedOver};

use crate::fault::{RunFault, TopFault};
use crate::reading::{read_named, read_timed};
use actor_programs::{WiringFault, wiring, wirings_hold};
use chunk_tasks::{chunk_count, digest_chunks};
use listed::NoMemory;
use outside_io::Files;
use period_table::Table;
use plan_text::print_plan;
use platform_file::Timed;
use run_text::{node_counts, print_report};
use schedule_model::Series;
use std::alloc::Global;
use step_core::{Event, Wiring};

/// The most bytes of data.
const MOST_DATA_BYTES: u64 = 268435456;

/// The wiring of a table for so many chunks, where it computes them and in few enough events.
fn wired<'a>(
    alloc: Global,
    timed: &Timed,
    table: &Table,
    chunks: u64,
) -> Result<Wiring, TopFault<'a>>
    requires fits { Fits timed.now Tasking table.now }
    requires few { chunks ≤ 2 ^ 28 }
    ensures { MatchResult result
        (λ wiring. IsWired timed.now table.now chunks wiring)
        (λ fault. IsTableFault timed.now table.now chunks (refusal_of fault)) }
{
    if chunks != 0 && table.tasks == 0 {
        return Err(TopFault::Unrun(RunFault::NothingComputes));
    }
    match wiring(alloc, timed, table, chunks) {
        Ok(wiring) => Ok(wiring),
        Err(WiringFault::TooLong { .. }) => Err(TopFault::Unrun(RunFault::LongEvents)),
        Err(WiringFault::NoMemory) => Err(TopFault::NoMemory),
    }
}

/// The history of a table's run over so many chunks, as the seed chooses it.
fn history_of(
    alloc: Global,
    timed: &Timed,
    table: &Table,
    chunks: u64,
    wiring: &Wiring,
    seed: u64,
) -> Result<Vec<Event>, NoMemory>
    requires fits { Fits timed.now Tasking table.now }
    requires wired { IsWired timed.now table.now chunks wiring.now }
    ensures history { IfOk result (λ history. IsHistoryOf timed.now table.now chunks seed history.items) }
    ensures events { IfOk result (λ history. length history.items ≡ events_in timed.now table.now chunks) }
{
    timed.known();
    wirings_hold();
    // These name the run that the contract speaks of.
    let _ = table;
    let _ = chunks;
    rehearsal::rehearse(alloc, wiring, seed)
}

/// The report of a table's run over some data in chunks of a size.
fn report_of(
    alloc: Global,
    timed: &Timed,
    table: &Table,
    wiring: &Wiring,
    bytes: &[u8],
    size: u32,
    events: u64,
) -> Result<Vec<u8>, NoMemory>
    requires fits { Fits timed.now Tasking table.now }
    requires some { 1 ≤ size }
    requires wired { IsWired timed.now table.now (chunk_count size bytes.now) wiring.now }
    ensures { IfOk result (λ text. text.items
        ≡ report_text timed.now table.now events (digests_of size bytes.now) (node_counts timed.now table.now (chunk_count size bytes.now))) }
{
    let chunks = chunk_count(bytes, size as usize) as u64;
    let digests = digest_chunks(alloc, bytes, size)?;
    let counts = node_counts(alloc, timed, table, chunks, wiring)?;
    print_report(alloc, timed, table, events, &digests, &counts)
}

/// The text of a table and of its run over some data in chunks of a size, with the history that a seed chooses.
fn text_of(
    alloc: Global,
    timed: &Timed,
    table: &Table,
    wiring: &Wiring,
    bytes: &[u8],
    size: u32,
    seed: u64,
) -> Result<Vec<u8>, NoMemory>
    requires fits { Fits timed.now Tasking table.now }
    requires some { 1 ≤ size }
    requires wired { IsWired timed.now table.now (chunk_count size bytes.now) wiring.now }
    ensures { IfOk result (λ text. IsRunOf timed.now table.now size seed bytes.now text.items) }
{
    let chunks = chunk_count(bytes, size as usize) as u64;
    let history = history_of(alloc, timed, table, chunks, wiring, seed)?;
    let events = history.len() as u64;
    let report = report_of(alloc, timed, table, wiring, bytes, size, events)?;
    let mut text = print_plan(alloc, timed, Series::Tasking, table)?.into_bytes();
    text.extend_from_slice(&report)?;
    Ok(text)
}

/// What the run of a table over some data comes to.
fn run_of<'a>(
    alloc: Global,
    timed: &Timed,
    table: &Table,
    bytes: &[u8],
    size: u32,
    seed: u64,
) -> Result<Vec<u8>, TopFault<'a>>
    requires fits { Fits timed.now Tasking table.now }
    requires some { 1 ≤ size }
    requires few { length bytes.now ≤ 268435456 }
    ensures { MatchResult result
        (λ text. IsRunOf timed.now table.now size seed bytes.now text.items)
        (λ fault. IsTableFault timed.now table.now (chunk_count size bytes.now) (refusal_of fault)) }
{
    let chunks = chunk_count(bytes, size as usize) as u64;
    let wiring = wired(alloc, timed, table, chunks)?;
    Ok(text_of(alloc, timed, table, &wiring, bytes, size, seed)?)
}

/// What the rehearsal of a platform's plan over some data comes to.
fn rehearsal_of<'a>(
    alloc: Global,
    timed: &Timed,
    bytes: &[u8],
    size: u32,
    seed: u64,
    pivots: u64,
) -> Result<Vec<u8>, TopFault<'a>>
    requires some { 1 ≤ size }
    requires few { length bytes.now ≤ 268435456 }
    ensures { MatchResult result
        (λ text. IsBestRehearsal pivots size seed timed.now bytes.now text.items)
        (λ fault. IsRehearsalFault pivots size seed timed.now bytes.now (refusal_of fault)) }
{
    let plan = planner::plan(alloc, timed, Series::Tasking, pivots)?;
    run_of(alloc, timed, &plan.table, bytes, size, seed)
}

/// The same over the data in the named file.
fn rehearsal_over<'a, F: Files>(
    alloc: Global,
    files: &mut F,
    name: &'a str,
    timed: &Timed,
    size: u32,
    seed: u64,
    pivots: u64,
) -> Result<Vec<u8>, TopFault<'a>>
    requires { 1 ≤ size }
    ensures { MatchResult result
        (λ text. IsRehearsedOver timed.now pivots size seed (F.state files.old) name.now (F.state files.new) text.items)
        (λ fault. IsSecondFault (rehearse_of_file pivots size seed timed.now) (F.state files.old) name.now (F.state files.new) (refusal_of fault)) }
{
    let long = TopFault::Unrun(RunFault::LongData);
    let bytes = read_named(alloc, files, name, MOST_DATA_BYTES, long)?;
    rehearsal_of(alloc, timed, &bytes, size, seed, pivots)
}

/// The plan of the platform in the first file, carried out over the data in the second one: the plan's text and the report.
pub(crate) fn rehearse<'a, F: Files>(
    alloc: Global,
    files: &mut F,
    name: &'a str,
    second: &'a str,
    size: u32,
    seed: u64,
    pivots: u64,
) -> Result<Vec<u8>, TopFault<'a>>
    requires { 1 ≤ size }
    ensures { MatchResult result
        (λ text. IsMade (rehearse name.now second.now size seed pivots) (F.state files.old) (F.state files.new) text.items)
        (λ fault. IsCauseFor (rehearse name.now second.now size seed pivots) (F.state files.old) (F.state files.new) (refusal_of fault)) }
{
    let timed = read_timed(alloc, files, name)?;
    rehearsal_over(alloc, files, second, &timed, size, seed, pivots)
}
