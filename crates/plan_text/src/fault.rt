//! Why a text is no plan.

use listed::NoMemory;

/// Why a text is no plan.
#[derive(Clone, Copy, Debug, PartialEq, Eq)]
pub enum PlanTextFault {
    /// This line, counted from 1, is the first at which reading stops. Each line is read by itself first, up to the first that isn't one of
    /// a plan in its place or is missing; then the period, the tasks, the depth and the rate are compared with the routes and slots, in
    /// this order, and last what the slots move, of which the fault is at the line of the end.
    Line(u64),
    /// Memory ran out.
    NoMemory,
}

impl From<NoMemory> for PlanTextFault {
    ghost use Rattle.std.specs.Prelude.{◌≡◌};
    ghost use Rattle.plan_text.specs.declared.fault.PlanTextFault.TheVariants.{NoMemory as OutOfMemory};

    ghost from_gives = { λ _ fault. fault ≡ OutOfMemory };

    fn from(_error: NoMemory) -> PlanTextFault {
        PlanTextFault::NoMemory
    }
}
