//! The commands `plan` and `prices`.

ghost use Rattle.std.specs.Prelude.{string_bytes, MatchResult};
ghost use Rattle.command_words.specs.Words.{plan, prices};
ghost use Rattle.steady_top.specs.Faults.{refusal_of};
ghost use Rattle.steady_top.specs.Outcomes.{plan_of, certificate_for};
ghost use Rattle.steady_top.specs.Answers.{IsMade, IsCauseFor};
ghost use Rattle.steady_top.specs.Planned.{IsBestPlan, IsBestPrices, MayRefuse};

use crate::fault::TopFault;
use crate::reading::read_timed;
use dual_checker::print_certificate;
use outside_io::Files;
use plan_text::print_plan;
use platform_file::Timed;
use schedule_model::Series;
use std::alloc::Global;

/// The plan text of a platform.
fn plan_of<'a>(
    alloc: Global,
    timed: &Timed,
    series: Series,
    pivots: u64,
) -> Result<String, TopFault<'a>>
    ensures { MatchResult result
        (λ text. IsBestPlan pivots timed.now series (string_bytes text))
        (λ fault. MayRefuse (plan_of pivots timed.now series) (refusal_of fault)) }
{
    let plan = planner::plan(alloc, timed, series, pivots)?;
    Ok(print_plan(alloc, timed, series, &plan.table)?)
}

/// The plan text of the platform in the named file.
pub(crate) fn plan<'a, F: Files>(
    alloc: Global,
    files: &mut F,
    name: &'a str,
    series: Series,
    pivots: u64,
) -> Result<String, TopFault<'a>>
    ensures { MatchResult result
        (λ text. IsMade (plan name.now series pivots) (F.state files.old) (F.state files.new) (string_bytes text))
        (λ fault. IsCauseFor (plan name.now series pivots) (F.state files.old) (F.state files.new) (refusal_of fault)) }
{
    let timed = read_timed(alloc, files, name)?;
    plan_of(alloc, &timed, series, pivots)
}

/// The certificate of the best rate of a platform.
fn prices_of<'a>(
    alloc: Global,
    timed: &Timed,
    series: Series,
    pivots: u64,
) -> Result<String, TopFault<'a>>
    ensures { MatchResult result
        (λ text. IsBestPrices pivots timed.now series (string_bytes text))
        (λ fault. MayRefuse (certificate_for pivots timed.now series) (refusal_of fault)) }
{
    let certificate = planner::prices(alloc, timed, series, pivots)?;
    Ok(print_certificate(alloc, series, &certificate)?)
}

/// The certificate of the best rate of the platform in the named file.
pub(crate) fn prices<'a, F: Files>(
    alloc: Global,
    files: &mut F,
    name: &'a str,
    series: Series,
    pivots: u64,
) -> Result<String, TopFault<'a>>
    ensures { MatchResult result
        (λ text. IsMade (prices name.now series pivots) (F.state files.old) (F.state files.new) (string_bytes text))
        (λ fault. IsCauseFor (prices name.now series pivots) (F.state files.old) (F.state files.new) (refusal_of fault)) }
{
    let timed = read_timed(alloc, files, name)?;
    prices_of(alloc, &timed, series, pivots)
}
