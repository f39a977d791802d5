//! Reports of runs.

use period_table::Table;
use plan_text::read_plan;
use platform_file::{Platform, Timed, read_platform, timed};
use run_text::print_report;
use schedule_model::Series;
use std::alloc::Global;
use std::test::Fail;

/// A master without a time, and a node behind it that computes in a time unit over a link that costs one.
const PAIR: &str =
    "version = 1\nmaster = 'm'\nnode = [{name = 'm'}, {name = 'w', time = 1}]\nlink = [{from = 'm', to = 'w', cost = 1}]\n";

/// A plan of these two.
const PAIR_PLAN: &str =
    "plan 1 tasking\nunit 1\nperiod 1\ntasks 1\ndepth 1\nrate 1/1\nroute 0 1 m w\nslot 1 0:1\nend\n";

/// The digest of the chunk `a`.
const DIGESTS: [[u8; 32]; 1] = [[
    0xca, 0x97, 0x81, 0x12, 0xca, 0x1b, 0xbd, 0xca, 0xfa, 0xc2, 0x31, 0xb3, 0x9a, 0x23, 0xdc, 0x4d,
    0xa7, 0x86, 0xef, 0xf8, 0x14, 0x7c, 0x4e, 0x72, 0xb9, 0x80, 0x77, 0x85, 0xaf, 0xee, 0x48, 0xbb,
]];

/// What a run over that chunk reports.
const ONE: &str = "run 1 chunks 1 batches 1 periods 2 events 4\n\
    digest 0 ca978112ca1bbdcafac231b39a23dc4da786eff8147c4e72b9807785afee48bb\nnode m 0\nnode w 1\nend\n";

/// What a run over no chunk reports.
const NONE: &str = "run 1 chunks 0 batches 0 periods 0 events 0\nnode m 0\nnode w 0\nend\n";

/// A run's events, digests and counts, and its report.
type Row = (u64, &'static [[u8; 32]], [u64; 2], &'static str);

static ROWS: [Row; 2] = [(4, &DIGESTS, [0, 1], ONE), (0, &[], [0, 0], NONE)];

/// Whether a report is printed, and then appended to a text that has room for it.
fn is_reported(alloc: Global, timed: &Timed, table: &Table, row: &Row) -> Result<bool, Fail> {
    let counts = row.2.as_slice();
    if !table.fits(timed, Series::Tasking)
        || counts.len() != timed.platform().nodes().len()
        || table.tasks == 0
    {
        return Ok(false);
    }
    let printed = print_report(alloc, timed, table, row.0, row.1, counts)?;
    Ok(printed.as_slice() == row.3.as_bytes())
}

fn reports(alloc: Global, timed: &Timed, table: &Table) -> Result<(), Fail> {
    for row in &ROWS {
        if !is_reported(alloc, timed, table, row)? {
            return Err(row.3.into());
        }
    }
    Ok(())
}

fn reports_of_the_plan(alloc: Global, timed: &Timed) -> Result<(), Fail> {
    match read_plan(alloc, timed, PAIR_PLAN.as_bytes()) {
        Ok((_, table)) => reports(alloc, timed, &table),
        Err(_) => Err("the plan".into()),
    }
}

fn pair(alloc: Global) -> Result<Platform, Fail> {
    Ok(read_platform(alloc, PAIR.as_bytes())?)
}

/// The two in ticks.
fn pair_in_ticks(alloc: Global) -> Result<Timed, Fail> {
    Ok(timed(alloc, pair(alloc)?)?)
}

#[test]
fn reports_a_run(rt: HostRuntime) -> Result<(), Fail> {
    reports_of_the_plan(rt.alloc(), &pair_in_ticks(rt.alloc())?)
}
