//! What an operation is on a platform: whether there is one such, and when it ends.

ghost use Rattle.std.specs.Prelude.{◌≡◌, true, cond, nat_lt, None, Some, slice_index_or};
ghost use Rattle.std.specs.Option.{is_some};
ghost use Rattle.schedule_model.specs.Operations.{start_of, end_of};
ghost use Rattle.schedule_model.specs.Tallies.{has_kind, is_in_range, sends_own, platform_ticks};

use crate::schedule::{Op, Series};
use platform_file::Timed;

/// The tick at which an operation starts.
pub(crate) fn start_of(op: Op) -> u128
    ensures { result ≡ start_of op }
{
    match op {
        Op::Send { start, .. } | Op::Compute { start, .. } => start,
    }
}

/// Whether the node exists and computes.
fn computes(timed: &Timed, node: u32) -> bool
    ensures { result ≡ is_some (slice_index_or timed.now.times node None) }
{
    timed.known();
    (node as usize) < timed.platform().nodes().len() && timed.time(node).is_some()
}

/// Whether the series has messages of the kind: targets' in a Scatter, and 0 for tasks.
fn has_kind(timed: &Timed, series: Series, kind: u32) -> bool
    ensures { result ≡ has_kind timed.now series kind }
{
    match series {
        Series::Tasking => kind == 0,
        Series::Scatter => (kind as usize) < timed.platform().targets().len(),
    }
}

/// Whether the link or the node exists, and the series has such an operation.
pub(crate) fn is_in_range(timed: &Timed, series: Series, op: Op) -> bool
    ensures { result ≡ is_in_range timed.now series op }
{
    match op {
        Op::Send { link, kind, .. } => {
            (link as usize) < timed.platform().links().len() && has_kind(timed, series, kind)
        }
        Op::Compute { node, .. } => series == Series::Tasking && computes(timed, node),
    }
}

/// Whether a node is the target whose kind this is.
pub(crate) fn sends_own(timed: &Timed, series: Series, kind: u32, node: u32) -> bool
    requires { has_kind timed.now series kind ≡ true }
    ensures { result ≡ sends_own timed.now series kind node }
{
    match series {
        Series::Tasking => false,
        Series::Scatter => timed.platform().targets()[kind as usize] == node,
    }
}

/// How many of the platform's ticks an operation lasts.
fn platform_ticks(timed: &Timed, series: Series, op: Op) -> u64
    requires { is_in_range timed.now series op ≡ true }
    ensures { result ≡ platform_ticks timed.now op }
{
    timed.known();
    match op {
        Op::Send { link, .. } => timed.cost(link),
        Op::Compute { node, .. } => timed.time(node).unwrap_or(0),
    }
}

/// The first tick after an operation, where that is no later than the last tick.
pub(crate) fn end_within(
    timed: &Timed,
    series: Series,
    ticks_per_unit: u64,
    last: u128,
    op: Op,
) -> Option<u128>
    requires { is_in_range timed.now series op ≡ true }
    ensures { result ≡ cond (nat_lt last (end_of timed.now ticks_per_unit op)) None (Some (end_of timed.now ticks_per_unit op)) }
{
    let scale = ticks_per_unit / timed.unit();
    let lasts = u128::from(platform_ticks(timed, series, op)) * u128::from(scale);
    match start_of(op).checked_add(lasts) {
        Some(end) if end <= last => Some(end),
        _ => None,
    }
}
