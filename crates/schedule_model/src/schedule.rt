//! Schedules.

ghost use Rattle.std.specs.Prelude.{◌≡◌};
ghost use Rattle.schedule_model.specs.Texts.{series_text};

use listed::Listed;

/// What is run again and again: independent tasks from the master, or messages from it, one to each target.
#[derive(Clone, Copy, Debug, PartialEq, Eq)]
pub enum Series {
    /// Tasks, each computed once, at any node that computes.
    Tasking,
    /// Messages, of which each target wants those of its own kind.
    Scatter,
}

impl Series {
    /// The word that names the series in texts.
    pub fn word(self) -> &'static str
        ensures { result.now ≡ series_text self }
    {
        match self {
            Series::Tasking => "tasking",
            Series::Scatter => "scatter",
        }
    }
}

/// An operation with the tick at which it starts. It lasts what its platform says.
#[derive(Clone, Copy, Debug, PartialEq, Eq)]
pub enum Op {
    /// A task or a message moves over a link. For Scatter `kind` is the number of the target whose message it is, for Tasking 0.
    Send { link: u32, kind: u32, start: u128 },
    /// A node computes a task.
    Compute { node: u32, start: u128 },
}

/// Timed operations on a platform, by their starts.
#[derive(Drop)]
pub struct Schedule {
    /// How many ticks a time unit has here: a multiple of the platform's.
    pub ticks_per_unit: u64,
    /// How many ticks the schedule has.
    pub length: u128,
    /// The operations, in order of their starts.
    pub ops: Listed<Op>,
}
