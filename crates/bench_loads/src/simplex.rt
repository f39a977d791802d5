//! The load of the exact simplex: the programme of a chain of workers, solved.

ghost use Rattle.std.specs.Prelude.{◌≡◌, ◌≢◌, ◌≤◌, Err, Some};
ghost use Rattle.linear_program.specs.Duality.{IsBounded};
ghost use Rattle.linear_program.specs.Starts.{start_tableau};
ghost use Rattle.exact_simplex.specs.Answers.{answer_of};
ghost use Rattle.exact_simplex.specs.Bland.{bland_run};

use crate::load::Size;
use crate::programme::{MOST_WORKERS, chain};
use dense_tableau::Dense;
use exact_simplex::{SolveFault, solve};
use linear_program::{Lp, Optimum, Tableau};
use ratio_core::Ratio;
use std::alloc::Global;

/// The most pivots of a run.
const MOST_PIVOTS: u64 = 100000;

/// Solves a bounded programme over a tableau of whole rows.
fn solved(alloc: Global, lp: &Lp, limit: u64) -> Result<Optimum, SolveFault>
    requires { IsBounded lp.now }
    ensures { result ≢ Err SolveFault.NoMemory → answer_of limit (bland_run limit (start_tableau lp.now)) ≡ Some result }
{
    lp.known();
    let mut tableau = Dense::start(alloc, lp)?;
    solve(alloc, &mut tableau, limit)
}

/// The best rate of an optimum.
fn rate_of(optimum: &Optimum) -> Ratio {
    let certificate = &optimum.certificate;
    certificate.known();
    Ratio::new(
        certificate.best().unsigned_abs(),
        certificate.scale().unsigned_abs(),
    )
}

/// The best rate of a bounded programme, solved as often as said; nothing where it isn't solved at all.
fn last_rate(alloc: Global, lp: &Lp, times: u32) -> Option<Ratio>
    requires { IsBounded lp.now }
{
    let mut rate = None;
    for _ in 0..times {
        let optimum = solved(alloc, lp, MOST_PIVOTS).ok()?;
        rate = Some(rate_of(&optimum));
    }
    rate
}

/// The best rate of a chain of so many workers, solved as often as said; nothing where it isn't solved at all.
pub fn best_rate(alloc: Global, size: Size) -> Option<Ratio> {
    if size.parts == 0 || size.parts > MOST_WORKERS {
        return None;
    }
    let lp = chain(alloc, size.parts).ok()?;
    last_rate(alloc, &lp, size.times)
}
