//! The programme of a scatter, and what its links carry for each target.

ghost use Rattle.std.specs.Prelude.{◌≡◌, ◌≤◌, All, length};
ghost use Rattle.schedule_model.specs.declared.schedule.Series.TheVariants.{Scatter};
ghost use Rattle.series_flows.specs.Programmes.{programme_of};
ghost use Rattle.series_flows.specs.Flows.{tasks_in};

use crate::tests::fixtures::holds;
use crate::tests::lent::{Told, tells_of};
use flow_routes::Flow;
use linear_program::Lp;
use platform_file::Timed;
use ratio_core::Ratio;
use schedule_model::Series;
use series_flows::{
    ProgrammeFault, flows_of, points_are_amounts, prices_bound_rates, programme_of,
};
use std::alloc::Global;
use std::test::Fail;

/// Two targets, the second of them behind the first.
pub(crate) const TWO_TARGETS: &str =
    "version = 1\nmaster = 'm'\ntargets = ['a', 'b']\nnode = [{name = 'm'}, {name = 'a'}, {name = 'b'}]\n\
    link = [{from = 'm', to = 'a', cost = 1}, {from = 'a', to = 'b', cost = 1}]\n";

/// A worker, and no target.
const NO_TARGET: &str =
    "version = 1\nmaster = 'm'\nnode = [{name = 'm'}, {name = 'a', time = 1}]\nlink = [{from = 'm', to = 'a', cost = 1}]\n";

/// Whose messages, how many of them each link carries, and how many each node keeps.
type FlowRow = (&'static str, &'static [u128], &'static [u128]);

/// What a message for each target in 2 ticks comes to: the second one's goes over both links.
static FLOWS: [FlowRow; 2] = [
    ("the messages of a", &[1, 0], &[0, 1, 0]),
    ("the messages of b", &[1, 1], &[0, 0, 1]),
];

fn is_flow(flow: &Flow, wanted: &FlowRow) -> bool {
    flow.amounts.as_slice() == wanted.1 && flow.demands.as_slice() == wanted.2
}

fn tells_flows(flows: &[Flow]) -> Result<(), Fail> {
    holds("a flow for each target", flows.len() == FLOWS.len())?;
    for (flow, wanted) in flows.iter().zip(&FLOWS) {
        holds(wanted.0, is_flow(flow, wanted))?;
    }
    Ok(())
}

fn tells_values(alloc: Global, timed: &Timed, values: &[Ratio]) -> Result<(), Fail>
    requires one_each { length values.now ≡ (programme_of timed.now Scatter).columns }
    requires small { All (λ value. tasks_in 2 value ≤ 2) values.now }
{
    tells_flows(flows_of(alloc, timed, Series::Scatter, values, 2)?.as_slice())
}

/// The columns are the rate, the flow of the first target's messages over the first link, and those of the second's over both.
fn tells_halves_of_a_message(alloc: Global, timed: &Timed, lp: &Lp) -> Result<(), Fail>
    requires { lp.now ≡ programme_of timed.now Scatter }
{
    holds("four columns", lp.columns() == 4)?;
    tells_values(alloc, timed, &[Ratio::new(1, 2); 4])
}

pub(crate) fn tells_two_targets(alloc: Global, timed: &Timed) -> Result<(), Fail> {
    tells_halves_of_a_message(alloc, timed, &programme_of(alloc, timed, Series::Scatter)?)
}

#[test]
fn gives_each_target_its_flow(rt: HostRuntime) -> Result<(), Fail> {
    tells_of(rt.alloc(), TWO_TARGETS, Told::TwoTargets)
}

pub(crate) fn tells_no_target(alloc: Global, timed: &Timed) -> Result<(), Fail> {
    holds(
        "no target",
        programme_of(alloc, timed, Series::Scatter).err() == Some(ProgrammeFault::NoTargets),
    )
}

#[test]
fn refuses_a_scatter_without_targets(rt: HostRuntime) -> Result<(), Fail> {
    tells_of(rt.alloc(), NO_TARGET, Told::NoTarget)
}

#[test]
fn cites_laws_of_flows() {
    prices_bound_rates();
    points_are_amounts();
}
