//! Rounds: a cycle is cancelled, or a route is found.

ghost use Rattle.std.specs.Prelude.{◌≡◌, ℕ, ◌+◌, ◌-◌, ◌^◌, ◌<◌, ◌≤◌, ◌≢◌, [], false, length, reverse, slice_index, IfOk, OnOk, IfSome, IfNone};
ghost use Rattle.flow_routes.specs.Flows.{IsKept, LinksExist, only};
ghost use Rattle.flow_routes.specs.Walks.{IsBackWalk, is_marked, node_on, IsClear, IsEnough, IsLeastOn};
ghost use Rattle.flow_routes.specs.Rounds.{IsRouteRound, IsCycleRound};

use crate::flow::Route;
use crate::walk::{least_on, place_of, take_along, walk_back};
use listed::{Listed, NoMemory};
use std::alloc::Global;

/// A node with some demand left, and the kind of what it is sent.
#[derive(Clone, Copy, Debug, PartialEq, Eq)]
pub struct Served {
    pub node: u32,
    pub demand: u128,
    pub kind: u32,
}

/// Walks back from the node: takes a route's count from its links and answers the route, or cancels a cycle.
pub fn round(
    alloc: Global,
    links: &[(u32, u32)],
    amounts: &mut [u128],
    master: u32,
    served: Served,
    marked: &mut [bool],
) -> Result<Option<Route>, NoMemory>
    requires lengths { length amounts.old ≡ length links.now }
    requires few { length links.now < 2 ^ 32 }
    requires exist { LinksExist links.now (length marked.old) }
    requires node { served.node < length marked.old }
    requires not_master { served.node ≢ master }
    requires demand { 0 < served.demand }
    requires kept { IsKept master links.now amounts.old (only served.node served.demand) }
    ensures route { IfOk result
        (λ found. IfSome found (λ route. IsRouteRound master served.kind links.now amounts.old served.demand served.node route amounts.new)) }
    ensures cycle { IfOk result (λ found. IfNone found (IsCycleRound master links.now amounts.old served.node amounts.new)) }
    ensures length { length amounts.new ≡ length amounts.old }
    ensures marks { length marked.new ≡ length marked.old }
{
    marked.fill(false);
    let (path, end) = walk_back(alloc, links, amounts, master, served.node, marked)?;
    if end == master {
        let links = turned(alloc, path.as_slice())?;
        let count = least_on(amounts, path.as_slice()).min(served.demand);
        take_along(amounts, path.as_slice(), count);
        Ok(Some(Route {
            links,
            end: served.node,
            count,
            kind: served.kind,
        }))
    } else {
        cancel_cycle(links, amounts, path.as_slice(), end);
        Ok(None)
    }
}

/// The links of a walk, the other way round.
fn turned(alloc: Global, path: &[u32]) -> Result<Listed<u32>, NoMemory>
    ensures { IfOk result (λ links. links ≡ reverse path.now) }
{
    let mut links = Listed::new(alloc);
    let mut left = path.len();
    while left > 0 {
        left -= 1;
        links.push(path[left])?;
    }
    Ok(links)
}

/// Takes the least amount on the cycle at the end of a walk from each of its links.
fn cancel_cycle(links: &[(u32, u32)], amounts: &mut [u128], path: &[u32], end: u32)
    requires lengths { length amounts.old ≡ length links.now }
    requires clear { IsClear amounts.old path.now }
    requires met { (place : ℕ) × (place < length path.now) × (node_on links.now path.now place ≡ end) }
    ensures cycle { (master node : ℕ) → IsBackWalk master links.now amounts.old node path.now end
        → IsCycleRound master links.now amounts.old node amounts.new }
    ensures length { length amounts.new ≡ length amounts.old }
{
    let begin = place_of(links, path, end);
    let cycle = &path[begin..];
    let least = least_on(amounts, cycle);
    take_along(amounts, cycle, least);
}
