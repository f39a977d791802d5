//! The one owner of platforms: it makes each, and lends it to what is told of it.

use crate::tests::fixtures::in_ticks;
use crate::tests::flows::{tells_no_target, tells_two_targets};
use crate::tests::plans::{tells_lone_master, tells_workers};
use crate::tests::platforms::{tells_arrays, tells_pair};
use crate::tests::programmes::tells_halves;
use crate::tests::routings::tells_routes;
use crate::tests::schedules::{tells_of_one_worker, tells_of_the_diamond};
use crate::tests::tables::{tells_chain, tells_rates};
use crate::tests::unrolled_tables::{tells_lengths, tells_periods};
use platform_file::Timed;
use std::alloc::Global;
use std::test::Fail;

/// What is told of a platform.
#[derive(Clone, Copy)]
pub(crate) enum Told {
    Pair,
    Arrays,
    OneWorker,
    Diamond,
    Halves,
    TwoTargets,
    NoTarget,
    Routes,
    Workers,
    LoneMaster,
    Chain,
    Periods,
    Rates,
    Lengths,
}

fn tells(alloc: Global, timed: &Timed, told: Told) -> Result<(), Fail> {
    match told {
        Told::Pair => tells_pair(timed),
        Told::Arrays => tells_arrays(timed),
        Told::OneWorker => tells_of_one_worker(alloc, timed),
        Told::Diamond => tells_of_the_diamond(alloc, timed),
        Told::Halves => tells_halves(alloc, timed),
        Told::TwoTargets => tells_two_targets(alloc, timed),
        Told::NoTarget => tells_no_target(alloc, timed),
        Told::Routes => tells_routes(alloc, timed),
        Told::Workers => tells_workers(alloc, timed),
        Told::LoneMaster => tells_lone_master(alloc, timed),
        Told::Chain => tells_chain(alloc, timed),
        Told::Periods => tells_periods(alloc, timed),
        Told::Rates => tells_rates(alloc, timed),
        Told::Lengths => tells_lengths(alloc, timed),
    }
}

/// Tells this of the platform of a text.
pub(crate) fn tells_of(alloc: Global, text: &str, told: Told) -> Result<(), Fail> {
    tells(alloc, &in_ticks(alloc, text)?, told)
}
