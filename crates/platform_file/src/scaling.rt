//! Brings a platform into ticks.

ghost use Rattle.std.specs.Prelude.{◌≡◌, ◌≤◌, ◌^◌, All, Ok, Err, IfOk, IfErr, MatchResult, cond, map, flat_map, nat_le, option_map, option_to_list};
ghost use Rattle.ratio_core.specs.Multiples.{lcm_of};
ghost use Rattle.ratio_core.specs.Texts.{HasSmallParts};
ghost use Rattle.platform_file.specs.Platform.{IsNode};
ghost use Rattle.platform_file.specs.Ticks.{denominators_of, unit_from, ticks_of, timed_of, IsTimedFault, HasNoUnit};
ghost use Rattle.platform_file.specs.declared.fault.TimedFault.TheVariants.{Unit};

use crate::fault::TimedFault;
use crate::platform::{Link, Node, Platform};
use crate::ticks::Timed;
use listed::{Listed, NoMemory};
use ratio_core::{Ratio, lcm_within, multiples_are_least};
use std::alloc::Global;

/// The most ticks that a time unit may have: 2^40.
const MOST_UNIT: u128 = 1 << 40;

/// The least common multiple of what stands so far and one more denominator.
fn folded(left: u128, right: u128) -> Result<u128, TimedFault>
    requires left { 1 ≤ left }
    requires right { 1 ≤ right }
    ensures value { result ≡ cond (nat_le (lcm_of left right) (2 ^ 40)) (Ok (lcm_of left right)) (Err (Unit left right)) }
    ensures some { IfOk result (λ unit. 1 ≤ unit) }
{
    lcm_within(left, right, MOST_UNIT).ok_or(TimedFault::Unit { left, right })
}

/// The least common multiple of the denominators of the nodes' times, in node order.
fn unit_of_nodes(nodes: &[Node]) -> Result<u128, TimedFault>
    ensures value { result ≡ unit_from 1 (flat_map (λ node. option_to_list (option_map (λ time. time.den) node.time)) nodes.now) }
    ensures some { IfOk result (λ unit. 1 ≤ unit) }
{
    let mut unit = 1;
    for node in nodes {
        if let Some(time) = node.time() {
            unit = folded(unit, time.den())?;
        }
    }
    Ok(unit)
}

/// The least common multiple of what stands so far and the denominators of the links' costs, in link order.
fn unit_of_links(left: u128, links: &[Link]) -> Result<u128, TimedFault>
    requires { 1 ≤ left }
    ensures { result ≡ unit_from left (map (λ link. link.cost.den) links.now) }
{
    let mut unit = left;
    for link in links {
        unit = folded(unit, link.cost().den())?;
    }
    Ok(unit)
}

/// The ticks of a time unit.
#[tactic(auto, using(crate::proofs::Units::ends, crate::proofs::Units::goes_on))]
fn unit_of(platform: &Platform) -> Result<u128, TimedFault>
    ensures { result ≡ unit_from 1 (denominators_of platform.now) }
{
    let unit = unit_of_nodes(platform.nodes())?;
    unit_of_links(unit, platform.links())
}

/// The ticks of a time or cost.
fn ticks_of(unit: u64, span: Ratio) -> u64
    requires unit { unit ≤ 2 ^ 40 }
    requires span { HasSmallParts span }
    ensures { result ≡ ticks_of unit span }
{
    (u128::from(unit) * span.num() / span.den()) as u64
}

/// The ticks of each node's task, where it computes.
fn times_of(alloc: Global, unit: u64, nodes: &[Node]) -> Result<Listed<Option<u64>>, NoMemory>
    requires unit { unit ≤ 2 ^ 40 }
    requires nodes { All IsNode nodes.now }
    ensures { IfOk result (λ times. times ≡ map (λ node. option_map (ticks_of unit) node.time) nodes.now) }
{
    let mut times = Listed::new(alloc);
    for node in nodes {
        let time = match node.time() {
            Some(time) => Some(ticks_of(unit, time)),
            None => None,
        };
        times.push(time)?;
    }
    Ok(times)
}

/// The ticks of each link's task or message.
fn costs_of(alloc: Global, unit: u64, links: &[Link]) -> Result<Listed<u64>, NoMemory>
    requires unit { unit ≤ 2 ^ 40 }
    requires links { All (λ link. HasSmallParts link.cost) links.now }
    ensures { IfOk result (λ costs. costs ≡ map (λ link. ticks_of unit link.cost) links.now) }
{
    let mut costs = Listed::new(alloc);
    for link in links {
        costs.push(ticks_of(unit, link.cost()))?;
    }
    Ok(costs)
}

/// The ticks of all nodes' tasks, and of all links' tasks or messages.
fn spans_of(
    alloc: Global,
    unit: u64,
    platform: &Platform,
) -> Result<(Listed<Option<u64>>, Listed<u64>), NoMemory>
    requires unit { unit ≤ 2 ^ 40 }
    requires nodes { All IsNode platform.now.nodes }
    requires links { All (λ link. HasSmallParts link.cost) platform.now.links }
    ensures times { IfOk result (λ spans. spans.0 ≡ map (λ node. option_map (ticks_of unit) node.time) platform.now.nodes) }
    ensures costs { IfOk result (λ spans. spans.1 ≡ map (λ link. ticks_of unit link.cost) platform.now.links) }
{
    let times = times_of(alloc, unit, platform.nodes())?;
    let costs = costs_of(alloc, unit, platform.links())?;
    Ok((times, costs))
}

/// The platform in ticks, where a time unit has at most 2^40 of them: the least common multiple of the denominators of all times
/// and costs, folded over the times in node order and then over the costs in link order, from 1 on. `Unit` comes exactly where
/// it has more. A refusal drops the platform.
#[tactic(auto, using(crate::proofs::Units::has_no_unit, crate::proofs::Units::is_short, crate::proofs::Units::link_costs))]
pub fn timed(alloc: Global, platform: Platform) -> Result<Timed, TimedFault>
    ensures value { MatchResult result (λ timed. timed_of platform ≡ Ok timed) (λ fault. IsTimedFault fault (timed_of platform)) }
    ensures passes { IfErr result (HasNoUnit platform) }
{
    platform.known();
    multiples_are_least();
    let unit = unit_of(&platform)? as u64;
    let (times, costs) = spans_of(alloc, unit, &platform)?;
    Ok(Timed::new(platform, unit, times, costs))
}
