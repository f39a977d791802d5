//! Reads a platform from a file's bytes.

ghost use Rattle.std.specs.Prelude.{◌≡◌, ◌≢◌, ◌≤◌, ◌<◌, false, All, [], Some, Ok, IfOk, IfSome, MatchResult, length, map, ok_or, nat_eq};
ghost use Rattle.toml.specs.View.{view, table_view};
ghost use Rattle.platform_file.specs.Platform.{same_ends, same_name, IsNode, IsLink, IsTarget};
ghost use Rattle.ratio_core.specs.Texts.{HasSmallParts};
ghost use Rattle.platform_file.specs.Documents.{document_of};
ghost use Rattle.platform_file.specs.Reading.{IsFaultOf, platform_of, each_of, node_in, name_in, time_in, span_of, whole_ratio, ratio_of_value, node_named, known_node, target_in, cost_in, joining, link_in, platform_over, platform_of_sections};
ghost use Rattle.platform_file.specs.Sections.{sections_view};
ghost use Rattle.platform_file.specs.declared.fault.PlatformFault.TheVariants.{NotToml};
ghost use Rattle.std.specs.List.{list_any, IsDistinct};

use crate::document::{has_other_key, text_at, value_at};
use crate::fault::{Field, Kind, Place, PlatformFault, Section};
use crate::platform::{Link, Name, Node, Platform};
use crate::sections::{Sections, read_sections, within_limits};
use listed::{Listed, NoMemory};
use ratio_core::{Ratio, RatioFault, parse_ratio};
use std::alloc::Global;
use toml::{Table, Value};

/// A platform's text has at most so many bytes: 1 MiB.
pub const MOST_BYTES: u64 = 1048576;

/// The greatest numerator and denominator.
const MOST_PART: i64 = 1000000;

/// The fraction that a whole number is.
fn whole_ratio(n: i64) -> Result<Ratio, RatioFault>
    ensures value { result ≡ whole_ratio n }
    ensures parts { IfOk result HasSmallParts }
{
    if n < 0 {
        Err(RatioFault::Shape)
    } else if n == 0 {
        Err(RatioFault::Zero)
    } else if n > MOST_PART {
        Err(RatioFault::TooLarge)
    } else {
        Ok(Ratio::from(n as u128))
    }
}

/// The fraction that a string or a whole number writes; no other value writes one.
fn ratio_of_value(value: &Value) -> Option<Result<Ratio, RatioFault>>
    ensures value { result ≡ ratio_of_value (view value.now) }
    ensures parts { IfSome result (λ ratio. IfOk ratio HasSmallParts) }
{
    match value {
        Value::String(text) => Some(parse_ratio(text)),
        Value::Integer(n) => Some(whole_ratio(*n)),
        _ => None,
    }
}

/// The time or cost that a value writes.
fn read_span(section: Section, field: Field, value: &Value) -> Result<Ratio, PlatformFault>
    ensures value { result ≡ span_of section field (view value.now) }
    ensures parts { IfOk result HasSmallParts }
{
    match ratio_of_value(value) {
        None => Err(PlatformFault::bad_field(section, field)),
        Some(Ok(ratio)) => Ok(ratio),
        Some(Err(cause)) => Err(PlatformFault::BadRatio(Place { section, field }, cause)),
    }
}

/// A node's name.
fn read_name(alloc: Global, number: u32, table: &Table) -> Result<Name, PlatformFault>
    ensures { MatchResult result
        (λ name. name_in number (table_view table.now) ≡ Ok name)
        (λ fault. IsFaultOf fault (name_in number (table_view table.now))) }
{
    let Some(text) = text_at(table, "name") else {
        return Err(PlatformFault::bad_field(Section::Node(number), Field::Name));
    };
    match Name::new(String::from_str(alloc, text)?) {
        Some(name) => Ok(name),
        None => Err(PlatformFault::bad_field(Section::Node(number), Field::Name)),
    }
}

/// A node's time, where there is one.
fn read_time(number: u32, table: &Table) -> Result<Option<Ratio>, PlatformFault>
    ensures value { result ≡ time_in number (table_view table.now) }
    ensures parts { IfOk result (λ time. IfSome time HasSmallParts) }
{
    match value_at(table, "time") {
        None => Ok(None),
        Some(value) => Ok(Some(read_span(Section::Node(number), Field::Time, value)?)),
    }
}

/// The number of the node with a name.
fn node_named(nodes: &[Node], name: &str) -> Option<u32>
    requires { length nodes.now ≤ 32 }
    ensures value { result ≡ node_named nodes.now name.now }
    ensures exists { IfSome result (λ number. number < length nodes.now) }
{
    let mut number = 0;
    for node in nodes {
        if node.name().as_str() == name {
            return Some(number);
        }
        number += 1;
    }
    None
}

/// A node that has no earlier one's name.
#[tactic(auto, using(crate::proofs::Growing::unnamed))]
fn read_node(alloc: Global, earlier: &[Node], table: &Table) -> Result<Node, PlatformFault>
    requires { length earlier.now < 32 }
    ensures value { MatchResult result
        (λ node. node_in earlier.now (table_view table.now) ≡ Ok node)
        (λ fault. IsFaultOf fault (node_in earlier.now (table_view table.now))) }
    ensures node { IfOk result IsNode }
    ensures fresh { IfOk result (λ node. list_any (λ other. same_name other node) earlier.now ≡ false) }
{
    let number = earlier.len() as u32;
    if has_other_key(&["name", "time"], table) {
        return Err(PlatformFault::bad_field(Section::Node(number), Field::Extra));
    }
    let name = read_name(alloc, number, table)?;
    let time = read_time(number, table)?;
    if node_named(earlier, name.as_str()).is_some() {
        return Err(PlatformFault::TwiceNamed(number));
    }
    Ok(Node::new(name, time))
}

/// The nodes of some tables.
#[tactic(auto, using(crate::proofs::Growing::none_differ))]
fn read_nodes(alloc: Global, tables: &[&Table]) -> Result<Listed<Node>, PlatformFault>
    requires { length tables.now ≤ 32 }
    ensures value { MatchResult result
        (λ nodes. each_of node_in [] (map (λ table. table_view table.now) tables.now) ≡ Ok nodes)
        (λ fault. IsFaultOf fault (each_of node_in [] (map (λ table. table_view table.now) tables.now))) }
    ensures nodes { IfOk result (All IsNode) }
    ensures differ { IfOk result (IsDistinct same_name) }
    ensures count { IfOk result (λ nodes. length nodes ≡ length tables.now) }
{
    let mut nodes = Listed::new(alloc);
    for table in tables {
        let node = read_node(alloc, nodes.as_slice(), table)?;
        nodes.push(node)?;
    }
    Ok(nodes)
}

/// The node that a name at a place means.
fn read_known(
    nodes: &[Node],
    section: Section,
    field: Field,
    name: &str,
) -> Result<u32, PlatformFault>
    requires { length nodes.now ≤ 32 }
    ensures value { result ≡ known_node nodes.now section field name.now }
    ensures exists { IfOk result (λ node. node < length nodes.now) }
{
    node_named(nodes, name).ok_or(PlatformFault::unknown(section, field))
}

/// Whether a number is one of some.
fn is_one_of(number: u32, numbers: &[u32]) -> bool
    ensures { result ≡ list_any (λ other. nat_eq other number) numbers.now }
{
    numbers.iter().any(|other| *other == number)
}

/// A target that is not the master and no earlier target.
fn read_target(
    nodes: &[Node],
    master: u32,
    earlier: &[u32],
    name: &str,
) -> Result<u32, PlatformFault>
    requires nodes { length nodes.now ≤ 32 }
    requires earlier { length earlier.now < 8 }
    ensures value { result ≡ target_in nodes.now master earlier.now name.now }
    ensures target { IfOk result (IsTarget nodes.now master) }
    ensures fresh { IfOk result (λ target. list_any (λ other. nat_eq other target) earlier.now ≡ false) }
{
    let number = earlier.len() as u32;
    let target = read_known(nodes, Section::Target(number), Field::Itself, name)?;
    if target == master {
        return Err(PlatformFault::TargetIsMaster(number));
    }
    if is_one_of(target, earlier) {
        return Err(PlatformFault::TargetTwice(number));
    }
    Ok(target)
}

/// The targets of some names.
#[tactic(auto, using(crate::proofs::Growing::none_differ))]
fn read_targets(
    alloc: Global,
    nodes: &[Node],
    master: u32,
    names: &[&str],
) -> Result<Listed<u32>, PlatformFault>
    requires nodes { length nodes.now ≤ 32 }
    requires names { length names.now ≤ 8 }
    ensures value { MatchResult result
        (λ targets. each_of (target_in nodes.now master) [] (map (λ name. name.now) names.now) ≡ Ok targets)
        (λ fault. IsFaultOf fault (each_of (target_in nodes.now master) [] (map (λ name. name.now) names.now))) }
    ensures targets { IfOk result (All (IsTarget nodes.now master)) }
    ensures differ { IfOk result (IsDistinct nat_eq) }
    ensures count { IfOk result (λ targets. length targets ≡ length names.now) }
{
    let mut targets = Listed::new(alloc);
    for name in names {
        let target = read_target(nodes, master, targets.as_slice(), name)?;
        targets.push(target)?;
    }
    Ok(targets)
}

/// A link's cost.
fn read_cost(number: u32, table: &Table) -> Result<Ratio, PlatformFault>
    ensures value { result ≡ cost_in number (table_view table.now) }
    ensures parts { IfOk result HasSmallParts }
{
    match value_at(table, "cost") {
        None => Err(PlatformFault::bad_field(Section::Link(number), Field::Cost)),
        Some(value) => read_span(Section::Link(number), Field::Cost, value),
    }
}

/// Whether some link has the ends of another.
fn some_joins(links: &[Link], link: &Link) -> bool
    ensures { result ≡ list_any (λ other. same_ends other link.now) links.now }
{
    links.iter().any(|other| other.has_same_ends(link))
}

/// A link between two nodes that no earlier one joins in this direction.
fn joining(earlier: &[Link], link: Link) -> Result<Link, PlatformFault>
    requires { length earlier.now < 128 }
    ensures value { result ≡ joining earlier.now link }
    ensures link { IfOk result (λ joined. (joined ≡ link) × (link.from ≢ link.to)) }
    ensures fresh { IfOk result (λ joined. list_any (λ other. same_ends other joined) earlier.now ≡ false) }
{
    let number = earlier.len() as u32;
    if link.from() == link.to() {
        return Err(PlatformFault::SelfLink(number));
    }
    if some_joins(earlier, &link) {
        return Err(PlatformFault::TwiceLinked(number));
    }
    Ok(link)
}

/// A link: its ends' names, its cost, and then the nodes that the names mean.
fn read_link(nodes: &[Node], earlier: &[Link], table: &Table) -> Result<Link, PlatformFault>
    requires nodes { length nodes.now ≤ 32 }
    requires earlier { length earlier.now < 128 }
    ensures value { result ≡ link_in nodes.now earlier.now (table_view table.now) }
    ensures link { IfOk result (IsLink nodes.now) }
    ensures fresh { IfOk result (λ link. list_any (λ other. same_ends other link) earlier.now ≡ false) }
{
    let number = earlier.len() as u32;
    let section = Section::Link(number);
    if has_other_key(&["from", "to", "cost"], table) {
        return Err(PlatformFault::bad_field(section, Field::Extra));
    }
    let Some(from) = text_at(table, "from") else {
        return Err(PlatformFault::bad_field(section, Field::From));
    };
    let Some(to) = text_at(table, "to") else {
        return Err(PlatformFault::bad_field(section, Field::To));
    };
    let cost = read_cost(number, table)?;
    let from = read_known(nodes, section, Field::From, from)?;
    let to = read_known(nodes, section, Field::To, to)?;
    joining(earlier, Link::new(from, to, cost))
}

/// The links of some tables.
#[tactic(auto, using(crate::proofs::Growing::none_differ))]
fn read_links(
    alloc: Global,
    nodes: &[Node],
    tables: &[&Table],
) -> Result<Listed<Link>, PlatformFault>
    requires nodes { length nodes.now ≤ 32 }
    requires tables { length tables.now ≤ 128 }
    ensures value { MatchResult result
        (λ links. each_of (link_in nodes.now) [] (map (λ table. table_view table.now) tables.now) ≡ Ok links)
        (λ fault. IsFaultOf fault (each_of (link_in nodes.now) [] (map (λ table. table_view table.now) tables.now))) }
    ensures links { IfOk result (All (IsLink nodes.now)) }
    ensures differ { IfOk result (IsDistinct same_ends) }
    ensures count { IfOk result (λ links. length links ≡ length tables.now) }
{
    let mut links = Listed::new(alloc);
    for table in tables {
        let link = read_link(nodes, links.as_slice(), table)?;
        links.push(link)?;
    }
    Ok(links)
}

/// What stands beside the nodes: the master, the targets and the links.
fn read_over(
    alloc: Global,
    nodes: &[Node],
    sections: &Sections<'_>,
) -> Result<(u32, Listed<u32>, Listed<Link>), PlatformFault>
    requires nodes { length nodes.now ≤ 32 }
    requires links { length sections.now.links.items ≤ 128 }
    requires targets { length sections.now.targets.items ≤ 8 }
    ensures value { MatchResult result
        (λ rest. platform_over nodes.now (sections_view sections.now)
        ≡ Ok (record { nodes = nodes.now; links = rest.2; master = rest.0; targets = rest.1 }))
        (λ fault. IsFaultOf fault (platform_over nodes.now (sections_view sections.now))) }
    ensures master { IfOk result (λ rest. rest.0 < length nodes.now) }
    ensures targets { IfOk result (λ rest. All (IsTarget nodes.now rest.0) rest.1) }
    ensures differ { IfOk result (λ rest. IsDistinct nat_eq rest.1) }
    ensures few { IfOk result (λ rest. (length rest.1 ≤ 8) × (length rest.2 ≤ 128)) }
    ensures links { IfOk result (λ rest. All (IsLink nodes.now) rest.2) }
    ensures apart { IfOk result (λ rest. IsDistinct same_ends rest.2) }
{
    let master = read_known(nodes, Section::Top, Field::Master, sections.master)?;
    let targets = read_targets(alloc, nodes, master, &sections.targets)?;
    let links = read_links(alloc, nodes, &sections.links)?;
    Ok((master, targets, links))
}

/// The platform of the sections of a top table.
fn read_sections_platform(alloc: Global, sections: &Sections<'_>) -> Result<Platform, PlatformFault>
    requires nodes { length sections.now.nodes.items ≤ 32 }
    requires links { length sections.now.links.items ≤ 128 }
    requires targets { length sections.now.targets.items ≤ 8 }
    ensures { MatchResult result
        (λ platform. platform_of_sections (sections_view sections.now) ≡ Ok platform)
        (λ fault. IsFaultOf fault (platform_of_sections (sections_view sections.now))) }
{
    let nodes = read_nodes(alloc, &sections.nodes)?;
    let (master, targets, links) = read_over(alloc, nodes.as_slice(), sections)?;
    Ok(Platform::new(nodes, links, master, targets))
}

/// The TOML document of some bytes.
fn read_document(alloc: Global, bytes: &[u8]) -> Result<Table, PlatformFault>
    ensures { MatchResult result
        (λ table. document_of bytes.now ≡ Some (table_view table))
        (λ fault. IsFaultOf fault (ok_or (document_of bytes.now) NotToml)) }
{
    let Ok(text) = str::from_utf8(bytes) else {
        return Err(PlatformFault::NotToml);
    };
    match toml::table_from_str(alloc, text) {
        Ok(table) => Ok(table),
        Err(error) if error.is_memory() => Err(PlatformFault::NoMemory),
        Err(_) => Err(PlatformFault::NotToml),
    }
}

/// Reads a platform file. Each fault but `NoMemory` comes exactly where reading stops there, in the order of the format: the
/// length of the text, TOML, the top table, the numbers of nodes, links and targets, each node, the master, each target, each
/// link. Takes time and memory in proportion to the text.
pub fn read_platform(alloc: Global, bytes: &[u8]) -> Result<Platform, PlatformFault>
    ensures { MatchResult result (λ platform. platform_of bytes.now ≡ Ok platform) (λ fault. IsFaultOf fault (platform_of bytes.now)) }
{
    let length = bytes.len() as u64;
    if length > MOST_BYTES {
        return Err(PlatformFault::Limit(Kind::Text, length));
    }
    let document = read_document(alloc, bytes)?;
    let sections = within_limits(read_sections(alloc, &document)?)?;
    read_sections_platform(alloc, &sections)
}
