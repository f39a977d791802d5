//! Why a platform isn't planned.

use exact_simplex::SolveFault;
use listed::NoMemory;
use series_flows::ProgrammeFault;
use series_routes::{PeriodStep, TableFault};
use std::fmt;

/// Why a platform isn't planned. `Display` writes the line that names the fault, without a line feed.
#[derive(Clone, Copy, Debug, PartialEq, Eq)]
pub enum PlanFault {
    /// The platform has no target for the messages of a scatter.
    NoTargets,
    /// After so many pivots the next one exceeds 2^127 - 1 in size, first at this cell of the tableau.
    Pivot {
        pivots: u64,
        row: u32,
        column: u32,
    },
    /// The best rate isn't reached after so many pivots, which is all that were allowed.
    Spent {
        limit: u64,
    },
    /// The period of the best solution exceeds 2^100 ticks: at this step the multiple so far and the next number, or the two factors.
    Period {
        step: PeriodStep,
        left: u128,
        right: u128,
    },
    /// Memory ran out.
    NoMemory,
}

impl fmt::Display for PlanFault {
    ghost use Rattle.std.specs.Prelude.{Some};
    ghost use Rattle.planner.specs.Plans.{plan_fault_text};

    ghost output = { λ fault. Some (plan_fault_text fault) };

    fn fmt<W: fmt::Write>(&self, f: &mut fmt::Formatter<W>) -> fmt::Result {
        match self {
            PlanFault::NoTargets => write!(f, "platform: no targets"),
            PlanFault::Pivot {
                pivots,
                row,
                column,
            } => write!(
                f,
                "pivot overflow after {pivots} pivots at cell {row} {column}"
            ),
            PlanFault::Spent { limit } => write!(f, "pivot limit {limit} spent"),
            PlanFault::Period { step, left, right } => {
                let (step, left, right) = (*step, *left, *right);
                fmt::Display::fmt(&TableFault::Period { step, left, right }, f)
            }
            PlanFault::NoMemory => write!(f, "out of memory"),
        }
    }
}

impl From<NoMemory> for PlanFault {
    ghost use Rattle.std.specs.Prelude.{◌≡◌};
    ghost use Rattle.planner.specs.declared.fault.PlanFault.TheVariants.{NoMemory as OutOfMemory};

    ghost from_gives = { λ _ fault. fault ≡ OutOfMemory };

    fn from(_error: NoMemory) -> PlanFault {
        PlanFault::NoMemory
    }
}

impl From<ProgrammeFault> for PlanFault {
    ghost use Rattle.std.specs.Prelude.{◌≡◌};
    ghost use Rattle.planner.specs.Plans.{programme_fault};

    ghost from_gives = { λ error fault. fault ≡ programme_fault error };

    fn from(error: ProgrammeFault) -> PlanFault {
        match error {
            ProgrammeFault::NoTargets => PlanFault::NoTargets,
            ProgrammeFault::NoMemory => PlanFault::NoMemory,
        }
    }
}

impl From<SolveFault> for PlanFault {
    ghost use Rattle.std.specs.Prelude.{◌≡◌};
    ghost use Rattle.planner.specs.Plans.{plan_fault};

    ghost from_gives = { λ error fault. fault ≡ plan_fault error };

    fn from(error: SolveFault) -> PlanFault {
        match error {
            SolveFault::Overflow {
                pivots,
                row,
                column,
            } => PlanFault::Pivot {
                pivots,
                row,
                column,
            },
            SolveFault::Spent { limit } => PlanFault::Spent { limit },
            SolveFault::NoMemory => PlanFault::NoMemory,
        }
    }
}

impl From<TableFault> for PlanFault {
    ghost use Rattle.std.specs.Prelude.{◌≡◌};
    ghost use Rattle.planner.specs.Plans.{period_fault};

    ghost from_gives = { λ error fault. fault ≡ period_fault error };

    fn from(error: TableFault) -> PlanFault {
        match error {
            TableFault::Period { step, left, right } => PlanFault::Period { step, left, right },
            TableFault::NoMemory => PlanFault::NoMemory,
        }
    }
}
