//! The first rule that a schedule breaks.

ghost use Rattle.std.specs.Prelude.{◌≡◌};
ghost use Rattle.schedule_model.specs.BreachTexts.{rule_text};

use std::fmt;

/// A rule that a schedule keeps where a platform can carry it out, in the order in which the rules are tried.
#[derive(Clone, Copy, Debug, PartialEq, Eq)]
pub enum Rule {
    /// A time unit has a multiple of the platform's ticks, and not none.
    Unit,
    /// No operation starts before the one that is listed before it.
    Order,
    /// The link or the node exists, the node computes, and the series has such an operation and such a kind.
    Range,
    /// No operation ends after the schedule's length.
    Late,
    /// A node sends one task or message at a time.
    SendPort,
    /// A node receives one task or message at a time.
    ReceivePort,
    /// A node computes one task at a time.
    ComputePort,
    /// No target sends messages of its own kind.
    OwnType,
    /// No node but the master begins with more than it has received.
    Supply,
}

/// The words for a rule.
fn rule_words(rule: Rule) -> &'static str
    ensures { result.now ≡ rule_text rule }
{
    match rule {
        Rule::Unit => "unit",
        Rule::Order => "order",
        Rule::Range => "range",
        Rule::Late => "late",
        Rule::SendPort => "send port",
        Rule::ReceivePort => "receive port",
        Rule::ComputePort => "compute port",
        Rule::OwnType => "own type",
        Rule::Supply => "supply",
    }
}

/// The first operation that breaks a rule, by its index in the list, and the first rule that it breaks. `Display` writes the line that
/// names both, without a line feed.
#[derive(Clone, Copy, Debug, PartialEq, Eq)]
pub struct Breach {
    /// The operation's index; 0 where the ticks of a time unit break the rule.
    pub index: u64,
    /// The rule.
    pub rule: Rule,
}

impl fmt::Display for Breach {
    ghost use Rattle.std.specs.Prelude.{Some};
    ghost use Rattle.schedule_model.specs.BreachTexts.{breach_text};

    ghost output = { λ breach. Some (breach_text breach) };

    fn fmt<W: fmt::Write>(&self, f: &mut fmt::Formatter<W>) -> fmt::Result {
        let index = self.index;
        let rule = rule_words(self.rule);
        write!(f, "schedule: operation {index}: {rule}")
    }
}
