//! Walks backward over links.

ghost use Rattle.std.specs.Prelude.{◌≡◌, ℕ, ◌+◌, ◌<◌, ◌≤◌, ◌≢◌, ◌^◌, [], false, length, slice_index, IfOk};
ghost use Rattle.flow_routes.specs.Flows.{passing, enters, IsKept, LinksExist};
ghost use Rattle.flow_routes.specs.Walks.{IsFirstEntering, IsEnough, IsLeastOn, taken_along, IsBackWalk, is_marked, node_on};

use listed::{Listed, NoMemory};
use std::alloc::Global;

/// Walks backward from the node, each time over the first link with amount left, until it comes to the master or to a node that is
/// on the walk already; answers the links and where it ended. The marks are those of no node.
pub fn walk_back(
    alloc: Global,
    links: &[(u32, u32)],
    amounts: &[u128],
    master: u32,
    node: u32,
    marked: &mut [bool],
) -> Result<(Listed<u32>, u32), NoMemory>
    requires lengths { length amounts.now ≡ length links.now }
    requires few { length links.now < 2 ^ 32 }
    requires exist { LinksExist links.now (length marked.old) }
    requires node { node < length marked.old }
    requires kept { IsKept master links.now amounts.now (λ v. 0) }
    requires some { 0 < passing (enters node) links.now amounts.now }
    requires unmarked { (v : ℕ) → is_marked marked.old v ≡ false }
    ensures walk { IfOk result (λ found. IsBackWalk master links.now amounts.now node found.0 found.1) }
    ensures length { length marked.new ≡ length marked.old }
{
    let mut path = Listed::new(alloc);
    let mut at = node;
    while at != master && !marked[at as usize] {
        marked[at as usize] = true;
        let link = first_entering(links, amounts, at);
        path.push(link as u32)?;
        at = links[link].0;
    }
    Ok((path, at))
}

/// The first link that enters the node and has amount left.
fn first_entering(links: &[(u32, u32)], amounts: &[u128], node: u32) -> usize
    requires lengths { length amounts.now ≡ length links.now }
    requires few { length links.now < 2 ^ 32 }
    requires some { 0 < passing (enters node) links.now amounts.now }
    ensures { IsFirstEntering links.now amounts.now node result }
{
    let mut link = 0;
    while links[link].1 != node || amounts[link] == 0 {
        link += 1;
    }
    link
}

/// Takes a number from the amounts of all links of a walk.
pub fn take_along(amounts: &mut [u128], path: &[u32], by: u128)
    requires { IsEnough amounts.old path.now by }
    ensures taken { amounts.new ≡ taken_along amounts.old path.now by }
    ensures length { length amounts.new ≡ length amounts.old }
{
    for link in path {
        amounts[*link as usize] -= by;
    }
}

/// The least amount on the links of a walk.
pub fn least_on(amounts: &[u128], path: &[u32]) -> u128
    requires some { 0 < length path.now }
    requires inside { (place : ℕ) → place < length path.now → slice_index path.now place < length amounts.now }
    ensures { IsLeastOn amounts.now path.now result }
{
    let mut least = amounts[path[0] as usize];
    for link in path {
        least = least.min(amounts[*link as usize]);
    }
    least
}

/// The place on a walk of a link that enters the node.
pub fn place_of(links: &[(u32, u32)], path: &[u32], node: u32) -> usize
    requires inside { (place : ℕ) → place < length path.now → slice_index path.now place < length links.now }
    requires there { (place : ℕ) × (place < length path.now) × (node_on links.now path.now place ≡ node) }
    ensures inside { result < length path.now }
    ensures entered { node_on links.now path.now result ≡ node }
{
    let mut place = 0;
    while links[path[place] as usize].1 != node {
        place += 1;
    }
    place
}
