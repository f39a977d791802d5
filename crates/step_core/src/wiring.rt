//! Lanes between nodes, and what the actors on them are to do.

ghost use Rattle.std.specs.Prelude.{◌≡◌, ℕ, ◌<◌, ◌^◌, ◌-◌, Some, List, length, slice_get, sum_by, min};
ghost use Rattle.step_core.specs.Wirings.{WiringView, IsWellFormedWiring, program_of};

use listed::Listed;
use std::marker::Model;

/// A way for tasks from one node to another.
#[derive(Clone, Copy, Debug, PartialEq, Eq)]
pub struct Lane {
    /// The node that sends on the lane.
    pub sender: u32,
    /// The node that receives on it.
    pub receiver: u32,
    /// How many tasks may be on it: opened and not yet taken.
    pub capacity: u64,
}

/// What an actor does.
#[derive(Clone, Copy, Debug, PartialEq, Eq)]
pub enum Event {
    /// Takes a task off a lane.
    Take { actor: u32, lane: u32, task: u64 },
    /// Begins to send a task over a lane.
    Open { actor: u32, lane: u32, task: u64 },
    /// Ends sending it.
    Close { actor: u32, lane: u32, task: u64 },
    /// Has computed a task.
    Done { actor: u32, task: u64 },
}

/// The lanes of some nodes, and the program of each actor: the events that it is to make, in order.
#[derive(Drop)]
pub struct Wiring {
    nodes: u32,
    lanes: Listed<Lane>,
    programs: Listed<Listed<Event>>,
}

impl Model for Wiring {
    ghost use Rattle.step_core.specs.Wirings.{WiringView, IsWellFormedWiring};

    ghost Value = { WiringView };

    ghost view = { λ w. record { nodes = w.nodes; lanes = w.lanes; programs = w.programs } };

    ghost invariant = { λ w. IsWellFormedWiring (record { nodes = w.nodes; lanes = w.lanes; programs = w.programs }) };
}

impl Wiring {
    /// The wiring of these lanes and programs. Takes no memory.
    pub fn new(nodes: u32, lanes: Listed<Lane>, programs: Listed<Listed<Event>>) -> Wiring
        requires { IsWellFormedWiring (record { nodes = nodes; lanes = lanes; programs = programs }) }
        ensures { result ≡ record { nodes = nodes; lanes = lanes; programs = programs } }
    {
        Wiring {
            nodes,
            lanes,
            programs,
        }
    }

    /// What is known of every wiring.
    pub fn known(&self)
        ensures { IsWellFormedWiring self.now }
    {
        let _ = &self.lanes;
    }

    /// How many actors there are.
    pub fn actors(&self) -> u64
        ensures { result ≡ length self.now.programs }
    {
        self.programs.len() as u64
    }

    /// How many events all programs have together, or 2^64 - 1 where they have more.
    pub fn events(&self) -> u64
        ensures { result ≡ min (sum_by length self.now.programs) (2 ^ 64 - 1) }
    {
        let mut events: u64 = 0;
        for program in self.programs.as_slice() {
            events = events.saturating_add(program.len() as u64);
        }
        events
    }

    /// How many nodes there are.
    pub fn nodes(&self) -> u32
        ensures { result ≡ self.now.nodes }
    {
        self.nodes
    }

    /// The lanes.
    pub fn lanes(&self) -> &[Lane]
        ensures { result.now ≡ self.now.lanes }
    {
        self.lanes.as_slice()
    }

    /// One of the lanes.
    pub fn lane(&self, lane: u32) -> Lane
        requires { lane < length self.now.lanes }
        ensures { slice_get self.now.lanes lane ≡ Some result }
    {
        self.lanes.as_slice()[lane as usize]
    }

    /// The events that an actor is to make, in order.
    pub fn program(&self, actor: u32) -> &[Event]
        requires { actor < length self.now.programs }
        ensures { result.now ≡ program_of self.now actor }
    {
        self.programs.as_slice()[actor as usize].as_slice()
    }
}
