//! Commands.

use schedule_model::Series;
use std::alloc::AllocError;

/// A command with its names and what its options say.
#[derive(Clone, Copy, Debug, PartialEq, Eq)]
pub enum Command<'a> {
    /// `plan FILE`: print a plan, found with at most so many pivots.
    Plan {
        file: &'a str,
        series: Series,
        pivots: u64,
    },
    /// `prices FILE`: print the certificate of the best rate, found with at most so many pivots.
    Prices {
        file: &'a str,
        series: Series,
        pivots: u64,
    },
    /// `check FILE CERTIFICATE`: check a certificate.
    Check {
        file: &'a str,
        certificate: &'a str,
        series: Series,
    },
    /// `audit FILE PLAN`: check a plan over so many periods.
    Audit {
        file: &'a str,
        plan: &'a str,
        periods: u64,
    },
    /// `rehearse FILE DATA`: carry the plan out on one thread over the data in chunks of so many bytes, in an order drawn from a seed.
    Rehearse {
        file: &'a str,
        data: &'a str,
        chunk: u32,
        seed: u64,
        pivots: u64,
    },
}

/// Why words give no command.
#[derive(Clone, Copy, Debug, PartialEq, Eq)]
pub enum WordsFault {
    /// They aren't those of a command.
    Usage,
    /// Memory ran out.
    NoMemory,
}

impl From<AllocError> for WordsFault {
    ghost use Rattle.std.specs.Prelude.{◌≡◌};
    ghost use Rattle.command_words.specs.declared.command.WordsFault.TheVariants.{NoMemory as OutOfMemory};

    ghost from_gives = { λ _ fault. fault ≡ OutOfMemory };

    fn from(_error: AllocError) -> WordsFault {
        WordsFault::NoMemory
    }
}
