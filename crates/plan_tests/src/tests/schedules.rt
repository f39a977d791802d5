//! Schedules: what each completes, or the first operation that breaks a rule.

use crate::tests::fixtures::holds;
use crate::tests::lent::{Told, tells_of};
use crate::tests::op_rows::OpRow::{Computed, Sent};
use crate::tests::op_rows::{OpRow, ops_of};
use platform_file::Timed;
use schedule_model::{Rule, Schedule, Series, check_schedule, ports_have_time};
use std::alloc::Global;
use std::test::Fail;

/// A master without a time, and a worker with a time of 2 behind a link of cost 3.
const ONE_WORKER: &str =
    "version = 1\nmaster = 'm'\nnode = [{name = 'm'}, {name = 'w', time = 2}]\n\
    link = [{from = 'm', to = 'w', cost = 3}]\n";

/// Two nodes that can both send to a third, which computes, and a way back to the master. The unit is 2: the links last 2, 3, 2 and 2
/// ticks, and a task at d lasts 4.
const DIAMOND: &str =
    "version = 1\nmaster = 'm'\ntargets = ['d', 'a']\nnode = [{name = 'm'}, {name = 'a'}, {name = 'd', time = 2}]\n\
    link = [{from = 'm', to = 'a', cost = 1}, {from = 'm', to = 'd', cost = '3/2'}, {from = 'a', to = 'd', cost = 1}, {from = 'd', to = 'm', cost = 1}]\n";

/// How many tasks or messages a schedule completes, or the index of the operation that breaks a rule, and the rule.
type Verdict = Result<u64, (u64, Rule)>;

/// The ticks of a time unit, the length in ticks and the operations of a schedule.
type ScheduleRow = (u64, u128, &'static [OpRow]);

fn schedule(alloc: Global, row: &ScheduleRow) -> Result<Schedule, Fail> {
    Ok(Schedule {
        ticks_per_unit: row.0,
        length: row.1,
        ops: ops_of(alloc, row.2)?,
    })
}

fn verdict(timed: &Timed, series: Series, schedule: &Schedule) -> Result<Verdict, Fail> {
    if timed.platform().targets().is_empty() && series == Series::Scatter {
        return Err(Fail::new("no targets"));
    }
    match check_schedule(timed, series, schedule) {
        Ok(completed) => Ok(Ok(completed)),
        Err(breach) => Ok(Err((breach.index, breach.rule))),
    }
}

fn verdict_of_row(
    alloc: Global,
    timed: &Timed,
    series: Series,
    row: &ScheduleRow,
) -> Result<Verdict, Fail> {
    verdict(timed, series, &schedule(alloc, row)?)
}

fn tells_verdicts(
    alloc: Global,
    timed: &Timed,
    series: Series,
    rows: &[(&str, ScheduleRow, Verdict)],
) -> Result<(), Fail> {
    for (name, row, wanted) in rows {
        holds(name, verdict_of_row(alloc, timed, series, row)? == *wanted)?;
    }
    Ok(())
}

/// Schedules of one worker.
static OF_ONE_WORKER: [(&str, ScheduleRow, Verdict); 15] = [
    ("a task", (1, 5, &[Sent(0, 0, 0), Computed(1, 3)]), Ok(1)),
    (
        "a task in half ticks",
        (2, 10, &[Sent(0, 0, 0), Computed(1, 6)]),
        Ok(1),
    ),
    ("no operation", (1, 0, &[]), Ok(0)),
    (
        "computed before it comes",
        (1, 5, &[Sent(0, 0, 0), Computed(1, 2)]),
        Err((1, Rule::Supply)),
    ),
    (
        "computed after the end",
        (1, 4, &[Sent(0, 0, 0), Computed(1, 3)]),
        Err((1, Rule::Late)),
    ),
    (
        "two sends at once",
        (1, 5, &[Sent(0, 0, 0), Sent(0, 0, 2), Computed(1, 3)]),
        Err((1, Rule::SendPort)),
    ),
    (
        "no ticks in a time unit",
        (0, 5, &[Sent(0, 0, 0), Computed(1, 3)]),
        Err((0, Rule::Unit)),
    ),
    (
        "no ticks and no operation",
        (0, 5, &[]),
        Err((0, Rule::Unit)),
    ),
    (
        "the task before its send",
        (1, 5, &[Computed(1, 3), Sent(0, 0, 0)]),
        Err((0, Rule::Supply)),
    ),
    (
        "an earlier start behind a later one",
        (1, 9, &[Sent(0, 0, 3), Computed(1, 2)]),
        Err((1, Rule::Order)),
    ),
    (
        "a link that there isn't",
        (1, 5, &[Sent(1, 0, 0)]),
        Err((0, Rule::Range)),
    ),
    (
        "a kind that there isn't",
        (1, 5, &[Sent(0, 1, 0)]),
        Err((0, Rule::Range)),
    ),
    (
        "a node that doesn't compute",
        (1, 5, &[Computed(0, 0)]),
        Err((0, Rule::Range)),
    ),
    (
        "a node that there isn't",
        (1, 5, &[Computed(2, 0)]),
        Err((0, Rule::Range)),
    ),
    (
        "an end past all numbers",
        (1, u128::MAX, &[Sent(0, 0, u128::MAX - 1)]),
        Err((0, Rule::Late)),
    ),
];

pub(crate) fn tells_of_one_worker(alloc: Global, timed: &Timed) -> Result<(), Fail> {
    tells_verdicts(alloc, timed, Series::Tasking, &OF_ONE_WORKER)
}

#[test]
fn checks_schedules_of_one_worker(rt: HostRuntime) -> Result<(), Fail> {
    tells_of(rt.alloc(), ONE_WORKER, Told::OneWorker)
}

/// Schedules of tasks over the diamond.
static TASKS: [(&str, ScheduleRow, Verdict); 6] = [
    (
        "no multiple of the unit",
        (3, 20, &[]),
        Err((0, Rule::Unit)),
    ),
    (
        "two tasks",
        (
            2,
            20,
            &[
                Sent(0, 0, 0),
                Sent(1, 0, 2),
                Sent(2, 0, 5),
                Computed(2, 5),
                Computed(2, 9),
            ],
        ),
        Ok(2),
    ),
    (
        "two receives at once",
        (2, 20, &[Sent(0, 0, 0), Sent(1, 0, 2), Sent(2, 0, 4)]),
        Err((2, Rule::ReceivePort)),
    ),
    (
        "two tasks at once",
        (
            2,
            20,
            &[
                Sent(0, 0, 0),
                Sent(1, 0, 2),
                Sent(2, 0, 5),
                Computed(2, 5),
                Computed(2, 8),
            ],
        ),
        Err((4, Rule::ComputePort)),
    ),
    (
        "sent on before it comes",
        (2, 20, &[Sent(0, 0, 0), Sent(2, 0, 1)]),
        Err((1, Rule::Supply)),
    ),
    (
        "sent back and computed",
        (2, 20, &[Sent(1, 0, 0), Sent(3, 0, 3), Computed(2, 5)]),
        Err((2, Rule::Supply)),
    ),
];

/// Schedules of messages over the diamond: 0 is the kind of the target d, 1 that of a.
static MESSAGES: [(&str, ScheduleRow, Verdict); 6] = [
    (
        "a message to each",
        (2, 20, &[Sent(0, 0, 0), Sent(0, 1, 2), Sent(2, 0, 4)]),
        Ok(1),
    ),
    (
        "a message to one alone",
        (2, 20, &[Sent(0, 0, 0), Sent(2, 0, 2)]),
        Ok(0),
    ),
    (
        "a message that didn't come",
        (2, 20, &[Sent(0, 1, 0), Sent(2, 0, 2)]),
        Err((1, Rule::Supply)),
    ),
    (
        "a message of the target's own",
        (2, 20, &[Sent(0, 1, 0), Sent(2, 1, 2)]),
        Err((1, Rule::OwnType)),
    ),
    (
        "a kind of no target",
        (2, 20, &[Sent(0, 2, 0)]),
        Err((0, Rule::Range)),
    ),
    ("a task", (2, 20, &[Computed(2, 0)]), Err((0, Rule::Range))),
];

pub(crate) fn tells_of_the_diamond(alloc: Global, timed: &Timed) -> Result<(), Fail> {
    tells_verdicts(alloc, timed, Series::Tasking, &TASKS)?;
    tells_verdicts(alloc, timed, Series::Scatter, &MESSAGES)
}

#[test]
fn checks_ports_and_kinds(rt: HostRuntime) -> Result<(), Fail> {
    tells_of(rt.alloc(), DIAMOND, Told::Diamond)
}

/// Series and their words.
static WORDS: [(Series, &str); 2] = [(Series::Tasking, "tasking"), (Series::Scatter, "scatter")];

#[test]
fn names_series() -> Result<(), Fail> {
    for (series, word) in &WORDS {
        holds(word, series.word() == *word)?;
    }
    Ok(())
}

#[test]
fn cites_laws_of_schedules() {
    ports_have_time();
}
