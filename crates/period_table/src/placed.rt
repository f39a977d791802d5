//! Operations in the order of a schedule.

ghost use Rattle.std.specs.Prelude.{◌≡◌, ℕ, List, [], ◌∷◌};
ghost use Rattle.period_table.specs.TableSchedules.{key_of, in_order};

use schedule_model::Op;
use std::marker::Model;

/// An operation with the lane by which ties are ordered; a computation has lane 0.
#[derive(Clone, Copy)]
pub(crate) struct Placed {
    op: Op,
    lane: u32,
}

impl Model for Placed {
    ghost use Rattle.period_table.specs.TableSchedules.{Placed};

    ghost Value = { Placed };

    ghost view = { λ a. record { op = a.op; lane = a.lane } };

    ghost inverse = { λ p. record { op = p.op; lane = p.lane } };
}

impl Placed {
    pub(crate) fn new(op: Op, lane: u32) -> Placed
        ensures { result ≡ record { op = op; lane = lane } }
    {
        Placed { op, lane }
    }

    /// The operation.
    pub(crate) fn op(&self) -> Op
        ensures { result ≡ self.now.op }
    {
        self.op
    }
}

/// What decides an operation's place in the list.
fn key(placed: &Placed) -> [u128; 5]
    ensures { result ≡ key_of placed.now }
{
    let lane = u128::from(placed.lane);
    match placed.op {
        Op::Send { link, kind, start } => [start, 0, u128::from(link), lane, u128::from(kind)],
        Op::Compute { node, start } => [start, 1, u128::from(node), lane, 0],
    }
}

/// Puts operations into the order of a schedule.
pub(crate) fn put_in_order(placed: &mut [Placed])
    ensures { placed.new ≡ in_order placed.old }
{
    placed.sort_unstable_by_key(key);
}
