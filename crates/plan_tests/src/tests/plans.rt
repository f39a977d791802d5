//! Plans: the prices and the table of a platform, or why it has none.

ghost use Rattle.std.specs.Prelude.{◌≡◌, ◌∷◌, []};
ghost use Rattle.ratio_core.specs.Fraction.{reduced};
ghost use Rattle.tasking_program.specs.Programme.{tasking_programme};
ghost use Rattle.schedule_model.specs.declared.schedule.Series.TheVariants.{Tasking};
ghost use Rattle.series_flows.specs.Points.{IsPoint};

use crate::tests::fixtures::{holds, in_ticks};
use crate::tests::lent::{Told, tells_of};
use crate::tests::table_rows::{IDLE, TableRow, is_of_row};
use linear_program::{Certificate, Lp};
use planner::{PeriodStep, Plan, PlanFault, plan, prices, table_of};
use platform_file::Timed;
use ratio_core::Ratio;
use schedule_model::Series;
use std::alloc::Global;
use std::test::Fail;
use tasking_program::{columns_of, tasking_lp};

/// A master that computes alone.
const LONE_MASTER: &str = "version = 1\nmaster = 'm'\nnode = [{name = 'm', time = 2}]\n";

/// Two workers behind links of costs 1 and 2.
const TWO_WORKERS: &str =
    "version = 1\nmaster = 'm'\nnode = [{name = 'm'}, {name = 'u', time = 3}, {name = 'v', time = 2}]\n\
    link = [{from = 'm', to = 'u', cost = 1}, {from = 'm', to = 'v', cost = 2}]\n";

/// A chain whose last node alone computes, behind links whose costs are primes.
const PRIME_CHAIN: &str =
    "version = 1\nmaster = 'm'\nnode = [{name = 'm'}, {name = 'a'}, {name = 'b'}, {name = 'c'}, {name = 'd'}, {name = 'e', time = 1}]\n\
    link = [{from = 'm', to = 'a', cost = 999983}, {from = 'a', to = 'b', cost = 999979}, {from = 'b', to = 'c', cost = 999961}, {from = 'c', to = 'd', cost = 999959}, {from = 'd', to = 'e', cost = 999953}]\n";

/// The same with one link more.
const LONGER_CHAIN: &str =
    "version = 1\nmaster = 'm'\nnode = [{name = 'm'}, {name = 'a'}, {name = 'b'}, {name = 'c'}, {name = 'd'}, {name = 'e'}, {name = 'f', time = 1}]\n\
    link = [{from = 'm', to = 'a', cost = 999983}, {from = 'a', to = 'b', cost = 999979}, {from = 'b', to = 'c', cost = 999961}, {from = 'c', to = 'd', cost = 999959}, {from = 'd', to = 'e', cost = 999953}, {from = 'e', to = 'f', cost = 999931}]\n";

/// The product of the costs of the first five links.
const FIVE_PRIMES: u128 = 999835010541675870768950170379;

/// The table of two workers: a tick for the first, two for the second.
const WORKERS_TABLE: TableRow = (
    [3, 2],
    1,
    &[(1, 1, 0, &[0]), (2, 1, 0, &[1])],
    &[(1, &[(0, 1)]), (2, &[(1, 1)])],
);

/// Whether a certificate has the scale, the best value and the prices of two workers.
fn is_certificate_of_workers(certificate: &Certificate) -> bool {
    certificate.scale() == 6
        && certificate.best() == 4
        && certificate.prices() == [1, 0, 3, 0, 0, 0, 0, 0, 3, 6].as_slice()
}

fn tells_prices(alloc: Global, timed: &Timed) -> Result<(), Fail> {
    let certificate = prices(alloc, timed, Series::Tasking, 100)?;
    holds(
        "the prices of two workers",
        is_certificate_of_workers(&certificate),
    )
}

fn tells_spent(alloc: Global, timed: &Timed) -> Result<(), Fail> {
    holds(
        "no pivot is left",
        prices(alloc, timed, Series::Tasking, 0).err() == Some(PlanFault::Spent { limit: 0 }),
    )
}

/// The table that is made anew of a plan's solution.
fn tells_remade(alloc: Global, timed: &Timed, values: &[Ratio]) -> Result<(), Fail>
    requires { IsPoint timed.now Tasking values.now }
{
    let table = table_of(alloc, timed, Series::Tasking, values)?;
    holds("the table made anew", is_of_row(&table, &WORKERS_TABLE))
}

/// Whether a plan has the table, the best value and the solution of two workers.
fn is_plan_of_workers(plan: &Plan) -> bool {
    is_of_row(&plan.table, &WORKERS_TABLE)
        && plan.optimum.certificate.best() == 4
        && plan.optimum.values.as_slice() == [Ratio::new(1, 3); 4].as_slice()
}

fn tells_plan(alloc: Global, timed: &Timed, plan: &Plan) -> Result<(), Fail>
    requires { IsPoint timed.now Tasking plan.now.optimum.values }
{
    holds("the plan of two workers", is_plan_of_workers(plan))?;
    tells_remade(alloc, timed, plan.optimum.values.as_slice())
}

fn tells_planned(alloc: Global, timed: &Timed) -> Result<(), Fail> {
    tells_plan(alloc, timed, &plan(alloc, timed, Series::Tasking, 100)?)
}

pub(crate) fn tells_workers(alloc: Global, timed: &Timed) -> Result<(), Fail> {
    tells_prices(alloc, timed)?;
    tells_spent(alloc, timed)?;
    tells_planned(alloc, timed)
}

#[test]
fn prices_and_plans_two_workers(rt: HostRuntime) -> Result<(), Fail> {
    tells_of(rt.alloc(), TWO_WORKERS, Told::Workers)
}

/// Chains, and where their period exceeds its bound.
static LONG_PERIODS: [(&str, &str, PlanFault); 2] = [
    (
        "the product of the period and the costs",
        PRIME_CHAIN,
        PlanFault::Period {
            step: PeriodStep::Product,
            left: 999983,
            right: FIVE_PRIMES,
        },
    ),
    (
        "the least common multiple of the costs",
        LONGER_CHAIN,
        PlanFault::Period {
            step: PeriodStep::Costs,
            left: FIVE_PRIMES,
            right: 999931,
        },
    ),
];

/// Why a platform isn't planned.
fn fault_of_plan(alloc: Global, text: &str) -> Result<Option<PlanFault>, Fail> {
    let timed = in_ticks(alloc, text)?;
    Ok(plan(alloc, &timed, Series::Tasking, 100).err())
}

fn tells_long_periods(alloc: Global) -> Result<(), Fail> {
    for (name, text, fault) in &LONG_PERIODS {
        holds(name, fault_of_plan(alloc, text)? == Some(*fault))?;
    }
    Ok(())
}

#[test]
fn tells_where_a_period_passes(rt: HostRuntime) -> Result<(), Fail> {
    tells_long_periods(rt.alloc())
}

/// The table in which nothing is done.
const NO_TASK: TableRow = ([1, 0], 0, &[], &[IDLE]);

fn tells_table_of_nothing(alloc: Global, timed: &Timed) -> Result<(), Fail>
    requires { IsPoint timed.now Tasking (reduced 0 1 ∷ []) }
{
    let table = table_of(alloc, timed, Series::Tasking, &[Ratio::new(0, 1)])?;
    holds("the table of no task", is_of_row(&table, &NO_TASK))
}

/// With one column, the value 0 alone is a point of the programme.
fn tells_no_task(alloc: Global, timed: &Timed, lp: &Lp) -> Result<(), Fail>
    requires { lp.now ≡ tasking_programme timed.now }
{
    lp.known();
    let columns = columns_of(alloc, timed)?.len();
    holds("one column", columns == 1)?;
    tells_table_of_nothing(alloc, timed)
}

pub(crate) fn tells_lone_master(alloc: Global, timed: &Timed) -> Result<(), Fail> {
    tells_no_task(alloc, timed, &tasking_lp(alloc, timed)?)
}

#[test]
fn makes_the_table_of_no_task(rt: HostRuntime) -> Result<(), Fail> {
    tells_of(rt.alloc(), LONE_MASTER, Told::LoneMaster)
}
