//! How the program ends.

ghost use Rattle.std.specs.Prelude.{◌≡◌};
ghost use Rattle.steady_top.specs.Exits.{exit_code};

/// How the program ends, each with its number, which is the process's exit status.
#[derive(Clone, Copy, Debug, PartialEq, Eq)]
pub enum Status {
    /// The text is written whole.
    Done,
    /// The words are no command.
    Usage,
    /// The platform file is refused.
    Platform,
    /// The ticks of a time unit, a cell of a pivot, a plan's period or a sum of a check exceed their bound.
    Overflow,
    /// The pivot limit is spent.
    Spent,
    /// A file can't be opened or read.
    ReadFault,
    /// Standard output can't be written.
    WriteFault,
    /// Memory ran out.
    NoMemory,
    /// A certificate, a plan or its schedule is too long.
    TooLong,
    /// A certificate, a plan or its schedule is refused.
    Refused,
}

impl Status {
    /// The status's number, from 0 to 9.
    pub fn code(self) -> u8
        ensures { result ≡ exit_code self }
    {
        self as u8
    }
}
