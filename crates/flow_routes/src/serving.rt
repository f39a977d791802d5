//! The routes of a flow, node after node.

ghost use Rattle.std.specs.Prelude.{◌≡◌, ℕ, ◌+◌, ◌^◌, ◌<◌, ◌≤◌, ◌≢◌, ◌++◌, length, slice_index, OnOk, IfOk};
ghost use Rattle.flow_routes.specs.Flows.{IsKept, IsFlow, LinksExist, only};
ghost use Rattle.flow_routes.specs.Routes.{AreRoutes};
ghost use Rattle.flow_routes.specs.Rounds.{IsNodeServed, AreChosen, HasAppended, own_route};

use crate::flow::{Flow, Route};
use crate::round::{Served, round};
use listed::{Listed, NoMemory};
use std::alloc::Global;

/// Splits a flow into simple routes from the master whose counts meet each demand exactly, and which carry no more than its amount
/// over a link. There are at most as many routes as nodes and links together.
///
/// The nodes are served in order. A master's demand is a route without links; another node's routes are walks backward, each time
/// over the first link with amount left, turned round, and take the least of the demand and the amounts on them. A cycle that such a
/// walk meets loses its least amount. So equal flows give equal routes. Takes at most as many walks as nodes and links together, each
/// of at most one search through the links for each node.
///
/// # Errors
///
/// `NoMemory` where there is no memory for the amounts that are left or for the routes.
pub fn routes(alloc: Global, flow: &Flow, kind: u32) -> Result<Listed<Route>, NoMemory>
    requires { IsFlow flow.now }
    ensures routes { IfOk result (λ routes. AreRoutes flow.now kind routes) }
    ensures chosen { IfOk result (λ routes. AreChosen flow.now kind routes) }
{
    let mut amounts = copied(alloc, flow.amounts.as_slice())?;
    let mut marked = vec![in alloc; false; flow.nodes as usize]?;
    let mut routes = Listed::new(alloc);
    for node in 0..flow.nodes {
        let served = Served {
            node,
            demand: flow.demands.as_slice()[node as usize],
            kind,
        };
        serve(
            alloc,
            flow.links.as_slice(),
            amounts.as_mut_slice(),
            flow.master,
            served,
            marked.as_mut_slice(),
            &mut routes,
        )?;
    }
    Ok(routes)
}

/// A copy of the amounts.
fn copied(alloc: Global, amounts: &[u128]) -> Result<Vec<u128>, NoMemory>
    ensures { IfOk result (λ copy. copy.items ≡ amounts.now) }
{
    let mut copy = Vec::with_capacity(alloc, amounts.len())?;
    copy.extend_from_slice(amounts)?;
    Ok(copy)
}

/// Appends the routes of a node.
fn serve(
    alloc: Global,
    links: &[(u32, u32)],
    amounts: &mut [u128],
    master: u32,
    served: Served,
    marked: &mut [bool],
    routes: &mut Listed<Route>,
) -> Result<(), NoMemory>
    requires lengths { length amounts.old ≡ length links.now }
    requires few { length links.now < 2 ^ 32 }
    requires exist { LinksExist links.now (length marked.old) }
    requires node { served.node < length marked.old }
    requires kept { IsKept master links.now amounts.old (only served.node served.demand) }
    ensures appended { OnOk result
        (HasAppended routes.old routes.new (λ own. IsNodeServed master served.kind links.now served.node served.demand amounts.old own amounts.new)) }
    ensures length { length amounts.new ≡ length amounts.old }
    ensures marks { length marked.new ≡ length marked.old }
{
    if served.node == master {
        return serve_master(alloc, served, routes);
    }
    let mut left = served;
    while left.demand > 0 {
        if let Some(route) = round(alloc, links, amounts, master, left, marked)? {
            left.demand -= route.count;
            routes.push(route)?;
        }
    }
    Ok(())
}

/// Appends a master's own route, where it has a demand.
fn serve_master(alloc: Global, served: Served, routes: &mut Listed<Route>) -> Result<(), NoMemory>
    ensures { OnOk result (routes.new ≡ routes.old ++ own_route served.kind served.node served.demand) }
{
    if served.demand > 0 {
        routes.push(Route {
            links: Listed::new(alloc),
            end: served.node,
            count: served.demand,
            kind: served.kind,
        })?;
    }
    Ok(())
}
