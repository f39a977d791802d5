//! The lanes of a table: each hop of each route.

ghost use Rattle.std.specs.Prelude.{◌≡◌, ◌++◌, ◌<◌, ◌≤◌, ◌^◌, length, All, OnOk, IfOk};
ghost use Rattle.flow_routes.specs.declared.flow.Route.{Route};
ghost use Rattle.period_table.specs.Lanes.{lanes_from, lanes_of};
ghost use Rattle.period_table.specs.Tables.{longest};

use flow_routes::Route;
use listed::{Listed, NoMemory};
use std::alloc::Global;
use std::marker::Model;

/// One hop of one route, with what each batch moves over it.
#[derive(Clone, Copy)]
pub(crate) struct Lane {
    pub(crate) link: u32,
    pub(crate) hop: u32,
    pub(crate) kind: u32,
    pub(crate) count: u128,
}

impl Model for Lane {
    ghost use Rattle.period_table.specs.Lanes.{LaneAt};

    ghost Value = { LaneAt };

    ghost view = { λ a. record { link = a.link; hop = a.hop; kind = a.kind; count = a.count } };

    ghost inverse = { λ p. record { link = p.link; hop = p.hop; kind = p.kind; count = p.count } };
}

/// Appends the lanes of a route.
fn push_lanes(out: &mut Listed<Lane>, route: &Route) -> Result<(), NoMemory>
    requires { length route.now.links < 2 ^ 32 }
    ensures ok { OnOk result (out.new ≡ out.old ++ lanes_from route.now.kind route.now.count 0 route.now.links) }
{
    let mut hop = 0;
    for link in route.links.as_slice() {
        out.push(Lane {
            link: *link,
            hop,
            kind: route.kind,
            count: route.count,
        })?;
        hop += 1;
    }
    Ok(())
}

/// The lanes of some routes, route by route and hop by hop.
pub(crate) fn lanes_of(alloc: Global, routes: &[Route]) -> Result<Listed<Lane>, NoMemory>
    requires { longest routes.now < 2 ^ 32 }
    ensures { IfOk result (λ lanes. lanes ≡ lanes_of routes.now) }
{
    let mut lanes = Listed::new(alloc);
    for route in routes {
        push_lanes(&mut lanes, route)?;
    }
    Ok(lanes)
}
