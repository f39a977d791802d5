//! Platforms.

ghost use Rattle.std.specs.Prelude.{◌≡◌, ◌<◌, ◌↔◌, true, false, length, IsNone, IfSome, string_bytes};
ghost use Rattle.std.specs.List.{list_all};
ghost use Rattle.platform_file.specs.Platform.{is_name, is_name_byte, is_master, master_of, same_ends, IsPlatform};

use listed::Listed;
use ratio_core::Ratio;
use std::marker::Model;

/// A name of 1 to 32 ASCII letters, digits, `_`, `-` or `.`.
#[derive(Drop)]
pub struct Name {
    text: String,
}

impl Model for Name {
    ghost use Rattle.std.specs.Prelude.{◌≡◌, ℕ, List, true, string_bytes};
    ghost use Rattle.platform_file.specs.Platform.{is_name};

    ghost Value = { List ℕ };

    ghost view = { λ a. string_bytes a.text };

    ghost invariant = { λ a. is_name (string_bytes a.text) ≡ true };
}

impl Name {
    /// The name that a text is; `None` where it is none.
    pub fn new(text: String) -> Option<Name>
        ensures value { IfSome result (λ name. name ≡ string_bytes text) }
        ensures refused { IsNone result ↔ (is_name (string_bytes text) ≡ false) }
    {
        if may_name(text.as_str()) {
            Some(Name { text })
        } else {
            None
        }
    }

    /// What is known of every name.
    pub fn known(&self)
        ensures { is_name self.now ≡ true }
    {
        let _ = &self.text;
    }

    /// The name's text.
    pub fn as_str(&self) -> &str
        ensures { result.now ≡ self.now }
    {
        self.text.as_str()
    }
}

/// Whether a byte may stand in a name.
fn may_stand(byte: u8) -> bool
    ensures { result ≡ is_name_byte byte }
{
    matches!(byte, b'0'..=b'9' | b'A'..=b'Z' | b'a'..=b'z' | b'_' | b'-' | b'.')
}

/// Whether all of the bytes may stand in a name.
fn may_all_stand(bytes: &[u8]) -> bool
    ensures { result ≡ list_all is_name_byte bytes.now }
{
    bytes.iter().all(|byte| may_stand(*byte))
}

/// Whether a text is a name.
fn may_name(text: &str) -> bool
    ensures { result ≡ is_name text.now }
{
    1 <= text.len() && text.len() <= 32 && may_all_stand(text.as_bytes())
}

/// A node, with the time of a task where it computes.
#[derive(Drop)]
pub struct Node {
    name: Name,
    time: Option<Ratio>,
}

impl Model for Node {
    ghost use Rattle.platform_file.specs.Platform.{NodeView};

    ghost Value = { NodeView };

    ghost view = { λ a. record { name = a.name; time = a.time } };
}

impl Node {
    /// A node with its name and its time.
    pub(crate) fn new(name: Name, time: Option<Ratio>) -> Node
        ensures { result ≡ record { name = name; time = time } }
    {
        Node { name, time }
    }

    /// The node's name.
    pub fn name(&self) -> &Name
        ensures { result.now ≡ self.now.name }
    {
        &self.name
    }

    /// The time units of a task, where the node computes.
    pub fn time(&self) -> Option<Ratio>
        ensures { result ≡ self.now.time }
    {
        self.time
    }
}

/// A link from a node to another, with the cost of a task or message.
#[derive(Drop)]
pub struct Link {
    from: u32,
    to: u32,
    cost: Ratio,
}

impl Model for Link {
    ghost use Rattle.platform_file.specs.Platform.{LinkView};

    ghost Value = { LinkView };

    ghost view = { λ a. record { from = a.from; to = a.to; cost = a.cost } };
}

impl Link {
    /// A link with its ends and its cost.
    pub(crate) fn new(from: u32, to: u32, cost: Ratio) -> Link
        ensures { result ≡ record { from = from; to = to; cost = cost } }
    {
        Link { from, to, cost }
    }

    /// Whether both links lead from one node to one other.
    pub(crate) fn has_same_ends(&self, other: &Link) -> bool
        ensures { result ≡ same_ends self.now other.now }
    {
        self.from == other.from && self.to == other.to
    }

    /// The number of the node that the link leaves.
    pub fn from(&self) -> u32
        ensures { result ≡ self.now.from }
    {
        self.from
    }

    /// The number of the node that the link enters.
    pub fn to(&self) -> u32
        ensures { result ≡ self.now.to }
    {
        self.to
    }

    /// The time units of a task or message.
    pub fn cost(&self) -> Ratio
        ensures { result ≡ self.now.cost }
    {
        self.cost
    }
}

/// A platform: nodes, links, the master and the targets, in the order of the file.
#[derive(Drop)]
pub struct Platform {
    nodes: Listed<Node>,
    links: Listed<Link>,
    master: u32,
    targets: Listed<u32>,
}

impl Model for Platform {
    ghost use Rattle.platform_file.specs.Platform.{PlatformView, IsPlatform};

    ghost Value = { PlatformView };

    ghost view = { λ a. record { nodes = a.nodes; links = a.links; master = a.master; targets = a.targets } };

    ghost invariant = { λ a. IsPlatform (record { nodes = a.nodes; links = a.links; master = a.master; targets = a.targets }) };
}

impl Platform {
    /// What is known of every platform.
    pub fn known(&self)
        ensures { IsPlatform self.now }
    {
        let _ = &self.master;
    }

    /// A platform of its parts.
    pub(crate) fn new(
        nodes: Listed<Node>,
        links: Listed<Link>,
        master: u32,
        targets: Listed<u32>,
    ) -> Platform
        requires { IsPlatform (record { nodes = nodes; links = links; master = master; targets = targets }) }
        ensures { result ≡ record { nodes = nodes; links = links; master = master; targets = targets } }
    {
        Platform {
            nodes,
            links,
            master,
            targets,
        }
    }

    /// The nodes, by their numbers.
    pub fn nodes(&self) -> &[Node]
        ensures { result.now ≡ self.now.nodes }
    {
        self.nodes.as_slice()
    }

    /// The links, by their numbers.
    pub fn links(&self) -> &[Link]
        ensures { result.now ≡ self.now.links }
    {
        self.links.as_slice()
    }

    /// The targets of a series of scatters, as numbers of nodes.
    pub fn targets(&self) -> &[u32]
        ensures { result.now ≡ self.now.targets }
    {
        self.targets.as_slice()
    }

    /// The number of the master, as the node from which routes begin.
    pub fn master(&self) -> u32
        ensures value { result ≡ master_of self.now }
        ensures is { is_master self.now result ≡ true }
        ensures exists { result < length self.now.nodes }
    {
        self.master
    }

    /// Whether a node holds as many tasks and messages as are wanted.
    pub fn is_master(&self, node: u32) -> bool
        requires { node < length self.now.nodes }
        ensures { result ≡ is_master self.now node }
    {
        node == self.master
    }
}
