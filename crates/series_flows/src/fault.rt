//! Why a series has no programme.

use listed::NoMemory;

/// Why a series has no programme.
#[derive(Clone, Copy, Debug, PartialEq, Eq)]
pub enum ProgrammeFault {
    /// The platform has no target for the messages of a scatter.
    NoTargets,
    /// Memory ran out.
    NoMemory,
}

impl From<NoMemory> for ProgrammeFault {
    ghost use Rattle.std.specs.Prelude.{◌≡◌};
    ghost use Rattle.series_flows.specs.declared.fault.ProgrammeFault.TheVariants.{NoMemory as OutOfMemory};

    ghost from_gives = { λ _ fault. fault ≡ OutOfMemory };

    fn from(_error: NoMemory) -> ProgrammeFault {
        ProgrammeFault::NoMemory
    }
}
