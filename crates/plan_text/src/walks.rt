//! Walks that names tell.

ghost use Rattle.std.specs.Prelude.{◌≡◌, ℕ, ◌<◌, List, IfOk, MatchOption, true, length, map};
ghost use Rattle.schedule_model.specs.Operations.{receiver_of};
ghost use Rattle.plan_text.specs.Walks.{IsNamed, IsHop, IsNamedWalk};

use listed::{Listed, NoMemory};
use platform_file::Timed;
use std::alloc::Global;

/// The node with a name.
pub(crate) fn node_named(timed: &Timed, name: &[u8]) -> Option<u32>
    ensures { MatchOption result ((node : ℕ) → IsNamed timed.now name.now node → ⊥) (λ node. IsNamed timed.now name.now node) }
{
    timed.known();
    let nodes = timed.platform().nodes();
    for node in 0..nodes.len() {
        if nodes[node].name().as_str().as_bytes() == name {
            return Some(node as u32);
        }
    }
    None
}

/// The node that a link enters.
fn receiver(timed: &Timed, link: u32) -> u32
    requires { link < length timed.now.platform.links }
    ensures value { result ≡ receiver_of timed.now link }
    ensures exists { result < length timed.now.platform.nodes }
{
    timed.known();
    timed.platform().links()[link as usize].to()
}

/// Whether a link leads from a node to one with a name.
fn is_hop(timed: &Timed, at: u32, name: &[u8], link: u32) -> bool
    requires { link < length timed.now.platform.links }
    ensures yes { result ≡ true → IsHop timed.now at name.now link }
    ensures no { IsHop timed.now at name.now link → result ≡ true }
{
    timed.known();
    timed.platform().links()[link as usize].from() == at
        && timed.platform().nodes()[receiver(timed, link) as usize]
            .name()
            .as_str()
            .as_bytes()
            == name
}

/// The link that leads from a node to one with a name.
fn hop_to(timed: &Timed, at: u32, name: &[u8]) -> Option<u32>
    ensures { MatchOption result ((link : ℕ) → IsHop timed.now at name.now link → ⊥) (λ link. IsHop timed.now at name.now link) }
{
    timed.known();
    for link in 0..timed.platform().links().len() as u32 {
        if is_hop(timed, at, name, link) {
            return Some(link);
        }
    }
    None
}

/// The links of the walk from a node over the nodes with some names, and its end.
///
/// # Errors
///
/// `NoMemory` where memory runs out.
pub(crate) fn walk_over(
    alloc: Global,
    timed: &Timed,
    start: u32,
    names: &[&[u8]],
) -> Result<Option<(Listed<u32>, u32)>, NoMemory>
    ensures { IfOk result
        (λ found. MatchOption found ((links : List ℕ) (end : ℕ) → IsNamedWalk timed.now start (map (λ name. name.now) names.now) links end → ⊥)
        (λ walk. IsNamedWalk timed.now start (map (λ name. name.now) names.now) walk.0 walk.1)) }
{
    timed.known();
    let mut links = Listed::new(alloc);
    let mut at = start;
    for name in names {
        let Some(link) = hop_to(timed, at, name) else {
            return Ok(None);
        };
        links.push(link)?;
        at = receiver(timed, link);
    }
    Ok(Some((links, at)))
}
