//! Why a programme isn't solved.

use listed::NoMemory;
use thiserror::Error;

/// Why a run was refused. The tableau is then the one that the run had reached.
#[derive(Clone, Copy, Debug, PartialEq, Eq, Error)]
pub enum SolveFault {
    /// After so many pivots the next one overflows; this cell of the tableau is the first whose product or difference exceeds 2^127 - 1.
    #[error("after {pivots} pivots the next one overflows at row {row}, column {column}")]
    Overflow { pivots: u64, row: u32, column: u32 },
    /// A column would still gain after so many pivots, which is all that were allowed.
    #[error("{limit} pivots are spent")]
    Spent { limit: u64 },
    /// Memory ran out.
    #[error("no memory")]
    NoMemory,
}

impl From<NoMemory> for SolveFault {
    ghost use Rattle.std.specs.Prelude.{◌≡◌};
    ghost use Rattle.exact_simplex.specs.declared.fault.SolveFault.TheVariants.{NoMemory as OutOfMemory};

    ghost from_gives = { λ _ fault. fault ≡ OutOfMemory };

    fn from(_error: NoMemory) -> SolveFault {
        SolveFault::NoMemory
    }
}
