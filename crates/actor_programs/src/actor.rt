//! Who acts in a run.

ghost use Rattle.std.specs.Prelude.{◌≡◌, ◌++◌, IfOk, OnOk, [], ◌∷◌, map, filter, length, cond, nat_eq};
ghost use Rattle.std.specs.List.{list_any, range_with_len};
ghost use Rattle.actor_programs.specs.declared.actor.Actor.TheVariants.{Sender, Consumer};
ghost use Rattle.actor_programs.specs.Programs.{is_used, is_end, actors_of};

use flow_routes::Route;
use listed::{Listed, NoMemory};
use period_table::Table;
use platform_file::Timed;
use std::alloc::Global;

/// One of those that act in a run. Actors are numbered as `actors` lists them.
#[derive(Clone, Copy, Debug, PartialEq, Eq)]
pub enum Actor {
    /// Sends over a link what goes over its lanes.
    Sender {
        /// The link.
        link: u32,
    },
    /// Computes at a node what ends there.
    Consumer {
        /// The node.
        node: u32,
    },
}

/// Whether one of a route's hops is the link.
fn is_on(links: &[u32], link: u32) -> bool
    ensures { result ≡ list_any (λ other. nat_eq other link) links.now }
{
    for other in links {
        if *other == link {
            return true;
        }
    }
    false
}

/// Whether a lane goes over the link.
fn is_used(routes: &[Route], link: u32) -> bool
    ensures { result ≡ is_used routes.now link }
{
    for route in routes {
        if is_on(route.links.as_slice(), link) {
            return true;
        }
    }
    false
}

/// Whether a route ends at the node.
fn is_end(routes: &[Route], node: u32) -> bool
    ensures { result ≡ is_end routes.now node }
{
    for route in routes {
        if route.end == node {
            return true;
        }
    }
    false
}

/// Appends the sender of a link, where a lane goes over it.
fn push_sender(out: &mut Listed<Actor>, routes: &[Route], link: u32) -> Result<(), NoMemory>
    ensures ok { OnOk result (out.new ≡ out.old ++ cond (is_used routes.now link) (Sender link ∷ []) []) }
{
    if !is_used(routes, link) {
        return Ok(());
    }
    out.push(Actor::Sender { link })
}

/// Appends the consumer at a node, where a route ends there.
fn push_consumer(out: &mut Listed<Actor>, routes: &[Route], node: u32) -> Result<(), NoMemory>
    ensures ok { OnOk result (out.new ≡ out.old ++ cond (is_end routes.now node) (Consumer node ∷ []) []) }
{
    if !is_end(routes, node) {
        return Ok(());
    }
    out.push(Actor::Consumer { node })
}

/// Appends the senders of those of the first links over which a lane goes.
fn push_senders(out: &mut Listed<Actor>, routes: &[Route], links: u32) -> Result<(), NoMemory>
    ensures ok { OnOk result (out.new ≡ out.old ++ map Sender (filter (is_used routes.now) (range_with_len 0 links))) }
{
    for link in 0..links {
        push_sender(out, routes, link)?;
    }
    Ok(())
}

/// Appends the consumers at those of the first nodes at which a route ends.
fn push_consumers(out: &mut Listed<Actor>, routes: &[Route], nodes: u32) -> Result<(), NoMemory>
    ensures ok { OnOk result (out.new ≡ out.old ++ map Consumer (filter (is_end routes.now) (range_with_len 0 nodes))) }
{
    for node in 0..nodes {
        push_consumer(out, routes, node)?;
    }
    Ok(())
}

/// Who acts in a run of the table: a sender for each link that carries a lane, in link order, then a consumer for each node at
/// which a route ends, in node order. An actor's place in the list is its number.
pub fn actors(alloc: Global, timed: &Timed, table: &Table) -> Result<Listed<Actor>, NoMemory>
    ensures actors { IfOk result (λ actors. actors ≡ actors_of timed.now table.now) }
{
    timed.known();
    let routes = table.routes.as_slice();
    let links = timed.platform().links().len() as u32;
    let nodes = timed.platform().nodes().len() as u32;
    let mut out = Listed::new(alloc);
    push_senders(&mut out, routes, links)?;
    push_consumers(&mut out, routes, nodes)?;
    Ok(out)
}
