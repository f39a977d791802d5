//! Why some bytes are no platform.

ghost use Rattle.std.specs.Prelude.{◌≡◌};
ghost use Rattle.platform_file.specs.declared.fault.PlatformFault.TheVariants.{NoMemory as OutOfMemory};
ghost use Rattle.platform_file.specs.FaultTexts.{limit_text, cause_text, fault_text};
ghost use Rattle.platform_file.specs.Places.{field_text};
ghost use Rattle.platform_file.specs.Reading.{bad_field, unknown};
ghost use Rattle.platform_file.specs.Wordings.{wording_text};

use listed::NoMemory;
use ratio_core::RatioFault;
use std::alloc::AllocError;
use std::fmt;

/// What a platform file has too much of.
#[derive(Clone, Copy, Debug, PartialEq, Eq)]
pub enum Kind {
    /// Bytes of its text.
    Text,
    /// Nodes.
    Nodes,
    /// Links.
    Links,
    /// Targets.
    Targets,
}

/// The part of a platform file in which a fault lies. Nodes, links and targets are numbered from 0, in the order of the file.
#[derive(Clone, Copy, Debug, PartialEq, Eq)]
pub enum Section {
    /// The document itself.
    Top,
    /// A table of `node`.
    Node(u32),
    /// A table of `link`.
    Link(u32),
    /// A name in `targets`.
    Target(u32),
}

/// What is at fault in a section.
#[derive(Clone, Copy, Debug, PartialEq, Eq)]
pub enum Field {
    /// The value at `version`.
    Version,
    /// The value at `master`.
    Master,
    /// The value at `targets`.
    Targets,
    /// The value at `node`.
    Nodes,
    /// The value at `link`.
    Links,
    /// The value at `name`.
    Name,
    /// The value at `time`.
    Time,
    /// The value at `from`.
    From,
    /// The value at `to`.
    To,
    /// The value at `cost`.
    Cost,
    /// The section as a whole.
    Itself,
    /// A key that isn't one of the section's.
    Extra,
}

/// Where in a platform file a fault lies. `Display` writes `top.FIELD`, `node N.FIELD`, `link N.FIELD` or `target N`.
#[derive(Clone, Copy, Debug, PartialEq, Eq)]
pub struct Place {
    /// The part of the file.
    pub section: Section,
    /// What is at fault there.
    pub field: Field,
}

/// The word for a field.
fn field_word(field: Field) -> &'static str
    ensures { result.now ≡ field_text field }
{
    match field {
        Field::Version => "version",
        Field::Master => "master",
        Field::Targets => "targets",
        Field::Nodes => "nodes",
        Field::Links => "links",
        Field::Name => "name",
        Field::Time => "time",
        Field::From => "from",
        Field::To => "to",
        Field::Cost => "cost",
        Field::Itself => "itself",
        Field::Extra => "extra",
    }
}

impl fmt::Display for Field {
    ghost use Rattle.std.specs.Prelude.{Some};
    ghost use Rattle.platform_file.specs.Places.{field_text};

    ghost output = { λ field. Some (field_text field) };

    fn fmt<W: fmt::Write>(&self, f: &mut fmt::Formatter<W>) -> fmt::Result {
        let word = field_word(*self);
        write!(f, "{word}")
    }
}

impl fmt::Display for Place {
    ghost use Rattle.std.specs.Prelude.{Some};
    ghost use Rattle.platform_file.specs.Places.{place_text};

    ghost output = { λ place. Some (place_text place) };

    fn fmt<W: fmt::Write>(&self, f: &mut fmt::Formatter<W>) -> fmt::Result {
        let field = field_word(self.field);
        match self.section {
            Section::Top => write!(f, "top.{field}"),
            Section::Node(number) => write!(f, "node {number}.{field}"),
            Section::Link(number) => write!(f, "link {number}.{field}"),
            Section::Target(number) => write!(f, "target {number}"),
        }
    }
}

/// Why some bytes are no platform. `Display` and `Debug` write the line that names the fault, without a line feed.
#[derive(Clone, Copy, PartialEq, Eq)]
pub enum PlatformFault {
    /// More of a kind than is allowed, and how much there is.
    Limit(Kind, u64),
    /// The bytes aren't UTF-8, or no TOML document.
    NotToml,
    /// A value is absent or of another type than the format has there, or a key isn't the format's.
    BadField(Place),
    /// The node with this number has an earlier node's name.
    TwiceNamed(u32),
    /// A name that no node has.
    Unknown(Place),
    /// The target with this number is the master.
    TargetIsMaster(u32),
    /// The target with this number equals an earlier one.
    TargetTwice(u32),
    /// The link with this number joins a node to itself.
    SelfLink(u32),
    /// The link with this number joins the same nodes, in the same direction, as an earlier one.
    TwiceLinked(u32),
    /// A time or cost is no fraction, and why.
    BadRatio(Place, RatioFault),
    /// Memory ran out.
    NoMemory,
}

impl PlatformFault {
    /// A value that is absent or of another type, or a key that isn't the format's.
    pub(crate) fn bad_field(section: Section, field: Field) -> PlatformFault
        ensures { result ≡ bad_field section field }
    {
        PlatformFault::BadField(Place { section, field })
    }

    /// A name that no node has.
    pub(crate) fn unknown(section: Section, field: Field) -> PlatformFault
        ensures { result ≡ unknown section field }
    {
        PlatformFault::Unknown(Place { section, field })
    }
}

/// The words for why a text is no fraction.
fn cause_words(cause: RatioFault) -> &'static str
    ensures { result.now ≡ cause_text cause }
{
    match cause {
        RatioFault::Shape => ": shape",
        RatioFault::Zero => ": zero",
        RatioFault::TooLarge => ": too large",
    }
}

/// How a line that names a fault is put together: words, and a number or a place between them.
#[derive(Clone, Copy)]
enum Wording {
    Plain(&'static str),
    Number(&'static str, u64),
    Numbered(&'static str, u64, &'static str),
    Place(&'static str, Place),
    Placed(&'static str, Place, &'static str),
}

impl fmt::Display for Wording {
    ghost use Rattle.std.specs.Prelude.{Some};
    ghost use Rattle.platform_file.specs.Wordings.{wording_text};

    ghost output = { λ wording. Some (wording_text wording) };

    fn fmt<W: fmt::Write>(&self, f: &mut fmt::Formatter<W>) -> fmt::Result {
        match self {
            Wording::Plain(words) => write!(f, "{words}"),
            Wording::Number(words, number) => write!(f, "{words}{number}"),
            Wording::Numbered(words, number, rest) => write!(f, "{words}{number}{rest}"),
            Wording::Place(words, place) => write!(f, "{words}{place}"),
            Wording::Placed(words, place, rest) => write!(f, "{words}{place}{rest}"),
        }
    }
}

/// The words for what there is too much of.
fn limit_wording(kind: Kind, found: u64) -> Wording
    ensures { wording_text result ≡ limit_text kind found }
{
    match kind {
        Kind::Text => Wording::Numbered("platform: text of ", found, " bytes"),
        Kind::Nodes => Wording::Number("platform: too many nodes: ", found),
        Kind::Links => Wording::Number("platform: too many links: ", found),
        Kind::Targets => Wording::Number("platform: too many targets: ", found),
    }
}

/// The words for a fault.
fn wording_of(fault: PlatformFault) -> Wording
    ensures { wording_text result ≡ fault_text fault }
{
    match fault {
        PlatformFault::Limit(kind, found) => limit_wording(kind, found),
        PlatformFault::NotToml => Wording::Plain("platform: not TOML"),
        PlatformFault::BadField(place) => Wording::Place("platform: bad field ", place),
        PlatformFault::TwiceNamed(node) => {
            Wording::Numbered("platform: node ", u64::from(node), " named twice")
        }
        PlatformFault::Unknown(place) => Wording::Place("platform: unknown name at ", place),
        PlatformFault::TargetIsMaster(target) => {
            Wording::Numbered("platform: target ", u64::from(target), " is the master")
        }
        PlatformFault::TargetTwice(target) => {
            Wording::Numbered("platform: target ", u64::from(target), " named twice")
        }
        PlatformFault::SelfLink(link) => {
            Wording::Numbered(
                "platform: link ",
                u64::from(link),
                " joins a node to itself",
            )
        }
        PlatformFault::TwiceLinked(link) => {
            Wording::Numbered("platform: link ", u64::from(link), " given twice")
        }
        PlatformFault::BadRatio(place, cause) => {
            Wording::Placed("platform: bad ratio at ", place, cause_words(cause))
        }
        PlatformFault::NoMemory => Wording::Plain("out of memory"),
    }
}

impl fmt::Display for PlatformFault {
    ghost use Rattle.std.specs.Prelude.{Some};
    ghost use Rattle.platform_file.specs.FaultTexts.{fault_text};

    ghost output = { λ fault. Some (fault_text fault) };

    fn fmt<W: fmt::Write>(&self, f: &mut fmt::Formatter<W>) -> fmt::Result {
        let wording = wording_of(*self);
        write!(f, "{wording}")
    }
}

impl fmt::Debug for PlatformFault {
    fn fmt<W: fmt::Write>(&self, f: &mut fmt::Formatter<W>) -> fmt::Result {
        fmt::Display::fmt(self, f)
    }
}

impl From<AllocError> for PlatformFault {
    ghost from_gives = { λ _ fault. fault ≡ OutOfMemory };

    fn from(_error: AllocError) -> PlatformFault {
        PlatformFault::NoMemory
    }
}

impl From<NoMemory> for PlatformFault {
    ghost from_gives = { λ _ fault. fault ≡ OutOfMemory };

    fn from(_error: NoMemory) -> PlatformFault {
        PlatformFault::NoMemory
    }
}

/// Why a platform has no ticks. `Display` writes the line that names the fault, without a line feed.
#[derive(Clone, Copy, Debug, PartialEq, Eq)]
pub enum TimedFault {
    /// The least common multiple of the denominators exceeds 2^40: that of those before is `left`, and `right` is the first
    /// denominator that makes it exceed that.
    Unit { left: u128, right: u128 },
    /// Memory ran out.
    NoMemory,
}

impl From<NoMemory> for TimedFault {
    ghost use Rattle.std.specs.Prelude.{◌≡◌};
    ghost use Rattle.platform_file.specs.declared.fault.TimedFault.TheVariants.{NoMemory as OutOfMemory};

    ghost from_gives = { λ _ fault. fault ≡ OutOfMemory };

    fn from(_error: NoMemory) -> TimedFault {
        TimedFault::NoMemory
    }
}

impl fmt::Display for TimedFault {
    ghost use Rattle.std.specs.Prelude.{Some};
    ghost use Rattle.platform_file.specs.FaultTexts.{timed_fault_text};

    ghost output = { λ fault. Some (timed_fault_text fault) };

    fn fmt<W: fmt::Write>(&self, f: &mut fmt::Formatter<W>) -> fmt::Result {
        match self {
            TimedFault::Unit { left, right } => {
                write!(f, "ticks overflow: lcm of {left} and {right}")
            }
            TimedFault::NoMemory => write!(f, "out of memory"),
        }
    }
}
