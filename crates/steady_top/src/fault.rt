//! Why the program refuses.

ghost use Rattle.std.specs.Prelude.{◌≡◌, IfOk, string_bytes};
ghost use Rattle.steady_top.specs.Refusals.{status_of, error_line};
ghost use Rattle.steady_top.specs.Faults.{refusal_of};

use crate::status::Status;
use listed::NoMemory;
use planner::PlanFault;
use platform_file::{PlatformFault, TimedFault};
use schedule_model::Breach;
use series_flows::ProgrammeFault;
use std::alloc::Global;
use std::fmt;

/// Why a certificate or a plan isn't read. `Display` writes the line that names the fault, without a line feed.
#[derive(Clone, Copy)]
pub enum ReadingFault {
    /// The certificate's file is longer than 1 MiB.
    LongCertificate,
    /// This line, counted from 1, is the first that isn't a certificate's.
    CertificateLine(u64),
    /// The plan's file is longer than 4 MiB.
    LongPlan,
    /// This line, counted from 1, is the first at which a plan isn't one.
    PlanLine(u64),
    /// The plan's schedule has more than 4,000,000 operations.
    LongSchedule,
}

/// Why a certificate proves nothing. `Display` writes the line that names the fault, without a line feed.
#[derive(Clone, Copy)]
pub enum CheckFault {
    /// The price of this row is below 0.
    NegativePrice(u32),
    /// The prices don't cover this column.
    UncoveredColumn(u32),
    /// The prices make more of the right-hand sides than the certificate's best.
    PassedValue,
    /// A product or a sum of this column exceeds 2^127 - 1 in size.
    Overflow(u32),
}

impl fmt::Display for ReadingFault {
    ghost use Rattle.std.specs.Prelude.{Some};
    ghost use Rattle.steady_top.specs.Refusals.{reason_text};
    ghost use Rattle.steady_top.specs.Faults.{reading_reason};

    ghost output = { λ fault. Some (reason_text (reading_reason fault)) };

    fn fmt<W: fmt::Write>(&self, f: &mut fmt::Formatter<W>) -> fmt::Result {
        match self {
            ReadingFault::LongCertificate => write!(f, "too long: certificate"),
            ReadingFault::CertificateLine(number) => write!(f, "certificate: line {number}"),
            ReadingFault::LongPlan => write!(f, "too long: plan"),
            ReadingFault::PlanLine(number) => write!(f, "plan: line {number}"),
            ReadingFault::LongSchedule => write!(f, "too long: operations"),
        }
    }
}

impl fmt::Display for CheckFault {
    ghost use Rattle.std.specs.Prelude.{Some};
    ghost use Rattle.steady_top.specs.Refusals.{reason_text};
    ghost use Rattle.steady_top.specs.Faults.{check_reason};

    ghost output = { λ fault. Some (reason_text (check_reason fault)) };

    fn fmt<W: fmt::Write>(&self, f: &mut fmt::Formatter<W>) -> fmt::Result {
        match self {
            CheckFault::NegativePrice(row) => write!(f, "certificate: price {row} negative"),
            CheckFault::UncoveredColumn(column) => write!(f, "certificate: column {column}"),
            CheckFault::PassedValue => write!(f, "certificate: value"),
            CheckFault::Overflow(column) => write!(f, "check overflow at column {column}"),
        }
    }
}

/// Why a plan isn't carried out over some data. `Display` writes the line that names the fault, without a line feed.
#[derive(Clone, Copy)]
pub enum RunFault {
    /// There is a chunk, and the best rate is 0: no node that the master's tasks can reach computes.
    NothingComputes,
    /// The data's file is longer than 256 MiB.
    LongData,
    /// The run has more than 4,000,000 events.
    LongEvents,
}

impl fmt::Display for RunFault {
    ghost use Rattle.std.specs.Prelude.{Some};
    ghost use Rattle.steady_top.specs.Refusals.{reason_text};
    ghost use Rattle.steady_top.specs.Faults.{run_reason};

    ghost output = { λ fault. Some (reason_text (run_reason fault)) };

    fn fmt<W: fmt::Write>(&self, f: &mut fmt::Formatter<W>) -> fmt::Result {
        match self {
            RunFault::NothingComputes => f.write_str("no node that can be reached computes"),
            RunFault::LongData => f.write_str("too long: data"),
            RunFault::LongEvents => f.write_str("too long: events"),
        }
    }
}

/// Why the program refuses, with what its error line names. `Display` writes the line without `error: ` and the line feed.
///
/// A fault of the crates below stands here as it is, but for `NoMemory`, which is one case for all.
#[derive(Clone, Copy)]
pub enum TopFault<'a> {
    /// The words are no command.
    Usage,
    /// The platform file isn't a platform.
    Platform(PlatformFault),
    /// The platform has no ticks.
    Ticks(TimedFault),
    /// The platform isn't planned, or has no prices.
    Plan(PlanFault),
    /// The certificate or the plan isn't read.
    Unread(ReadingFault),
    /// The certificate proves nothing.
    Unproved(CheckFault),
    /// The first operation of a plan's schedule that breaks a rule, and the first rule that it breaks.
    Breach(Breach),
    /// The plan isn't carried out.
    Unrun(RunFault),
    /// The file with this name can't be opened or read.
    CannotRead(&'a str),
    /// Memory ran out.
    NoMemory,
}

impl fmt::Display for TopFault<'_> {
    ghost use Rattle.std.specs.Prelude.{Some};
    ghost use Rattle.steady_top.specs.Refusals.{refusal_text};
    ghost use Rattle.steady_top.specs.Faults.{refusal_of};

    ghost output = { λ fault. Some (refusal_text (refusal_of fault)) };

    fn fmt<W: fmt::Write>(&self, f: &mut fmt::Formatter<W>) -> fmt::Result {
        match self {
            TopFault::Usage => f.write_str("usage"),
            TopFault::Platform(fault) => fmt::Display::fmt(fault, f),
            TopFault::Ticks(fault) => fmt::Display::fmt(fault, f),
            TopFault::Plan(fault) => fmt::Display::fmt(fault, f),
            TopFault::Unread(fault) => fmt::Display::fmt(fault, f),
            TopFault::Unproved(fault) => fmt::Display::fmt(fault, f),
            TopFault::Breach(breach) => fmt::Display::fmt(breach, f),
            TopFault::Unrun(fault) => fmt::Display::fmt(fault, f),
            TopFault::CannotRead(name) => write!(f, "cannot read {name}"),
            TopFault::NoMemory => f.write_str("out of memory"),
        }
    }
}

impl From<PlatformFault> for TopFault<'_> {
    ghost use Rattle.steady_top.specs.Refusals.{platform_refusal};
    ghost use Rattle.steady_top.specs.Faults.{refusal_of};

    ghost from_gives = { λ fault top. refusal_of top ≡ platform_refusal fault };

    fn from(fault: PlatformFault) -> Self {
        match fault {
            PlatformFault::NoMemory => TopFault::NoMemory,
            fault => TopFault::Platform(fault),
        }
    }
}

impl From<TimedFault> for TopFault<'_> {
    ghost use Rattle.steady_top.specs.Refusals.{timed_refusal};
    ghost use Rattle.steady_top.specs.Faults.{refusal_of};

    ghost from_gives = { λ fault top. refusal_of top ≡ timed_refusal fault };

    fn from(fault: TimedFault) -> Self {
        match fault {
            TimedFault::NoMemory => TopFault::NoMemory,
            fault => TopFault::Ticks(fault),
        }
    }
}

impl From<ProgrammeFault> for TopFault<'_> {
    ghost use Rattle.planner.specs.Plans.{programme_fault};
    ghost use Rattle.steady_top.specs.Refusals.{plan_refusal};
    ghost use Rattle.steady_top.specs.Faults.{refusal_of};

    ghost from_gives = { λ fault top. refusal_of top ≡ plan_refusal (programme_fault fault) };

    fn from(fault: ProgrammeFault) -> Self {
        TopFault::from(PlanFault::from(fault))
    }
}

impl From<PlanFault> for TopFault<'_> {
    ghost use Rattle.steady_top.specs.Refusals.{plan_refusal};
    ghost use Rattle.steady_top.specs.Faults.{refusal_of};

    ghost from_gives = { λ fault top. refusal_of top ≡ plan_refusal fault };

    fn from(fault: PlanFault) -> Self {
        match fault {
            PlanFault::NoMemory => TopFault::NoMemory,
            fault => TopFault::Plan(fault),
        }
    }
}

impl From<NoMemory> for TopFault<'_> {
    ghost use Rattle.steady_top.specs.Refusals.{no_memory};
    ghost use Rattle.steady_top.specs.Faults.{refusal_of};

    ghost from_gives = { λ _ top. refusal_of top ≡ no_memory };

    fn from(_error: NoMemory) -> Self {
        TopFault::NoMemory
    }
}

impl TopFault<'_> {
    /// The status with which the refusal ends the program.
    pub fn status(&self) -> Status
        ensures { result ≡ status_of (refusal_of self.now) }
    {
        match self {
            TopFault::Usage => Status::Usage,
            TopFault::Platform(_)
            | TopFault::Plan(PlanFault::NoTargets)
            | TopFault::Unrun(RunFault::NothingComputes) => Status::Platform,
            TopFault::Plan(PlanFault::Spent { .. }) => Status::Spent,
            TopFault::Ticks(_) | TopFault::Plan(_) | TopFault::Unproved(CheckFault::Overflow(_)) =>
                Status::Overflow,
            TopFault::Unread(ReadingFault::LongCertificate)
            | TopFault::Unread(ReadingFault::LongPlan)
            | TopFault::Unread(ReadingFault::LongSchedule)
            | TopFault::Unrun(RunFault::LongData)
            | TopFault::Unrun(RunFault::LongEvents) => Status::TooLong,
            TopFault::Unread(ReadingFault::CertificateLine(_))
            | TopFault::Unread(ReadingFault::PlanLine(_))
            | TopFault::Unproved(CheckFault::NegativePrice(_))
            | TopFault::Unproved(CheckFault::UncoveredColumn(_))
            | TopFault::Unproved(CheckFault::PassedValue)
            | TopFault::Breach(_) => Status::Refused,
            TopFault::CannotRead(_) => Status::ReadFault,
            TopFault::NoMemory => Status::NoMemory,
        }
    }

    /// The refusal's one error line, with its line feed.
    pub fn line(&self, alloc: Global) -> Result<String, NoMemory>
        ensures { IfOk result (λ text. string_bytes text ≡ error_line (refusal_of self.now)) }
    {
        Ok(format!(in alloc; "error: {self}\n")?)
    }
}
