//! Programmes that are solved over a tableau of whole rows, as worked out by hand.

ghost use Rattle.std.specs.Prelude.{◌≡◌};
ghost use Rattle.linear_program.specs.Duality.{IsBounded};

use crate::tests::comparing::{fails_at, holds, is_written};
use crate::tests::models::{crossing, halves};
use crate::tests::programmes::is_optimum;
use dense_tableau::Dense;
use exact_simplex::{
    SolveFault, bounded_runs_find_rows, choices_follow_bland, ended_runs_are_optimal, solve,
};
use linear_program::{Lp, Optimum, Tableau};
use std::alloc::Global;
use std::test::Fail;

/// Solves a bounded programme with at most so many pivots.
fn solved(alloc: Global, lp: &Lp, limit: u64) -> Result<Optimum, SolveFault>
    requires { IsBounded lp.now }
{
    lp.known();
    solve(alloc, &mut Dense::start(alloc, lp)?, limit)
}

/// Fails where a programme isn't refused so.
fn refuses(alloc: Global, lp: &Lp, limit: u64, fault: SolveFault) -> Result<(), Fail>
    requires { IsBounded lp.now }
{
    if solved(alloc, lp, limit).err() != Some(fault) {
        return fails_at(&fault);
    }
    Ok(())
}

fn solves(alloc: Global, lp: &Lp) -> Result<(), Fail>
    requires { IsBounded lp.now }
{
    refuses(alloc, lp, 0, SolveFault::Spent { limit: 0 })?;
    holds(is_optimum(&solved(alloc, lp, 1)?), "a half")
}

#[test]
fn solves_one_row(rt: HostRuntime) -> Result<(), Fail> {
    solves(rt.alloc(), &halves(rt.alloc())?)
}

#[test]
fn cites_laws() {
    choices_follow_bland();
    bounded_runs_find_rows();
    ended_runs_are_optimal();
}

#[test]
fn tells_where_a_pivot_overflows(rt: HostRuntime) -> Result<(), Fail> {
    const LONG: i128 = 1 << 100;
    const FAULT: SolveFault = SolveFault::Overflow {
        pivots: 0,
        row: 1,
        column: 1,
    };
    refuses(
        rt.alloc(),
        &crossing(rt.alloc(), LONG, LONG - 1)?,
        10,
        FAULT,
    )
}

static CAUSES: [(SolveFault, &str); 3] = [
    (
        SolveFault::Overflow {
            pivots: 7,
            row: 2,
            column: 5,
        },
        "after 7 pivots the next one overflows at row 2, column 5",
    ),
    (SolveFault::Spent { limit: 9 }, "9 pivots are spent"),
    (SolveFault::NoMemory, "no memory"),
];

#[test]
fn says_why_a_programme_is_not_solved(rt: HostRuntime) -> Result<(), Fail> {
    for (fault, text) in &CAUSES {
        is_written(rt.alloc(), fault, text)?;
    }
    Ok(())
}
