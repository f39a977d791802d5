//! The best rate, with prices.

ghost use Rattle.std.specs.Prelude.{◌≡◌, ◌≢◌, ◌*◌, nat_abs, false, Err, Some, IfOk};
ghost use Rattle.schedule_model.specs.Throughput.{IsUpperRate};
ghost use Rattle.linear_program.specs.Duality.{IsBounded};
ghost use Rattle.linear_program.specs.Starts.{start_tableau};
ghost use Rattle.exact_simplex.specs.Answers.{answer_of};
ghost use Rattle.exact_simplex.specs.Bland.{bland_run};
ghost use Rattle.exact_simplex.specs.Optima.{IsOptimal};
ghost use Rattle.series_flows.specs.Programmes.{programme_of, lacks_targets};
ghost use Rattle.planner.specs.Plans.{solution_of};
ghost use Rattle.planner.specs.Prices.{prices_of, IsBestCertificate};

use crate::fault::PlanFault;
use dense_tableau::Dense;
use exact_simplex::{SolveFault, solve};
use linear_program::{Certificate, Lp, Optimum, Tableau};
use platform_file::Timed;
use schedule_model::Series;
use series_flows::{prices_bound_rates, programme_of};
use std::alloc::Global;

/// Solves a bounded programme over a tableau of whole rows.
fn solved(alloc: Global, lp: &Lp, limit: u64) -> Result<Optimum, SolveFault>
    requires { IsBounded lp.now }
    ensures exact { result ≢ Err SolveFault.NoMemory → answer_of limit (bland_run limit (start_tableau lp.now)) ≡ Some result }
    ensures optimal { IfOk result (IsOptimal lp.now) }
{
    lp.known();
    let mut table = Dense::start(alloc, lp)?;
    solve(alloc, &mut table, limit)
}

/// The solution of a series' programme, as `plan` and `prices` have it.
pub(crate) fn solution(
    alloc: Global,
    timed: &Timed,
    series: Series,
    limit: u64,
) -> Result<Optimum, PlanFault>
    ensures exact { result ≢ Err PlanFault.NoMemory → solution_of limit timed.now series ≡ Some result }
    ensures optimal { IfOk result (IsOptimal (programme_of timed.now series)) }
    ensures targets { IfOk result (λ _. lacks_targets timed.now series ≡ false) }
{
    timed.known();
    prices_bound_rates();
    let lp = programme_of(alloc, timed, series)?;
    Ok(solved(alloc, &lp, limit)?)
}

/// The certificate of a platform's best rate: `best / scale` tasks or messages per tick are reached by the solution of which it is, and
/// exceeded by no schedule of any resolution, length and list of operations.
///
/// Takes the pivots of the simplex, each in a pass over the tableau.
///
/// # Errors
///
/// `NoTargets` where messages have nowhere to go, `Pivot` where a pivot exceeds 2^127 - 1 in size, `Spent` where the best rate isn't
/// reached after `limit` pivots, `NoMemory` where memory runs out.
pub fn prices(
    alloc: Global,
    timed: &Timed,
    series: Series,
    limit: u64,
) -> Result<Certificate, PlanFault>
    ensures exact { result ≢ Err PlanFault.NoMemory → prices_of limit timed.now series ≡ Some result }
    ensures best { IfOk result (IsBestCertificate limit timed.now series) }
    ensures rate { IfOk result (λ c. IsUpperRate timed.now series (nat_abs c.best * timed.now.unit) (nat_abs c.scale)) }
    ensures targets { IfOk result (λ _. lacks_targets timed.now series ≡ false) }
{
    timed.known();
    prices_bound_rates();
    let optimum = solution(alloc, timed, series, limit)?;
    optimum.certificate.known();
    Ok(optimum.certificate)
}
