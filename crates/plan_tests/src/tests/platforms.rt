//! Platform files: what is read of one, what is refused and where, and when a platform has ticks.

use crate::tests::fixtures::{holds, read};
use crate::tests::lent::{Told, tells_of};
use platform_file::{
    Field, Kind, Place, Platform, PlatformFault, Section, Timed, TimedFault, read_platform, timed,
};
use ratio_core::RatioFault;
use std::alloc::Global;
use std::test::Fail;

/// A node that doesn't compute, one that does and is a target, and a link each way.
const PAIR: &str =
    "version = 1\nmaster = \"m\"\ntargets = [\"w\"]\nnode = [{name = \"m\"}, {name = \"w\", time = \"3/2\"}]\n\
    link = [{from = \"m\", to = \"w\", cost = \"0004/6\"}, {from = \"w\", to = \"m\", cost = 5}]\n";

fn has_nodes_of_pair(platform: &Platform) -> bool {
    let nodes = platform.nodes();
    nodes.len() == 2
        && nodes[1].name().as_str() == "w"
        && platform.is_master(0)
        && !platform.is_master(1)
        && platform.targets() == [1].as_slice()
}

fn has_links_of_pair(platform: &Platform) -> bool {
    let links = platform.links();
    links.len() == 2 && links[1].from() == 1 && links[1].to() == 0
}

/// The denominators are 2, 3 and 1.
fn has_ticks_of_pair(pair: &Timed) -> bool {
    pair.unit() == 6
        && pair.platform().nodes().len() == 2
        && pair.platform().links().len() == 2
        && pair.time(0) == None
        && pair.time(1) == Some(9)
        && pair.cost(0) == 4
        && pair.cost(1) == 30
}

pub(crate) fn tells_pair(pair: &Timed) -> Result<(), Fail> {
    holds("the nodes of the pair", has_nodes_of_pair(pair.platform()))?;
    holds("the links of the pair", has_links_of_pair(pair.platform()))?;
    holds("the ticks of the pair", has_ticks_of_pair(pair))
}

#[test]
fn reads_a_platform_and_brings_it_into_ticks(rt: HostRuntime) -> Result<(), Fail> {
    tells_of(rt.alloc(), PAIR, Told::Pair)
}

/// Two nodes that don't compute, written as an array of tables.
const ARRAYS: &str = "version = 1\nmaster = 'a.b'\n[[node]]\nname = 'a.b'\n[[node]]\nname = '-'\n";

pub(crate) fn tells_arrays(arrays: &Timed) -> Result<(), Fail> {
    holds("the unit of no ratio", arrays.unit() == 1)?;
    holds("two nodes", arrays.platform().nodes().len() == 2)
}

#[test]
fn reads_arrays_of_tables_and_no_ratio(rt: HostRuntime) -> Result<(), Fail> {
    tells_of(rt.alloc(), ARRAYS, Told::Arrays)
}

/// Why some bytes are no platform.
fn fault(alloc: Global, bytes: &[u8]) -> Option<PlatformFault> {
    read_platform(alloc, bytes).err()
}

/// Texts, and the field of the top table that is bad in each.
static TOP_FIELDS: [(&str, Field); 11] = [
    ("masters = 1\nversion = 2", Field::Extra),
    ("", Field::Version),
    ("version = 2\nmaster = 1", Field::Version),
    ("version = 1.0", Field::Version),
    ("version = 1\ntargets = 2", Field::Master),
    ("version = 1\nmaster = 1\ntargets = 2", Field::Master),
    ("version = 1\nmaster = 'm'\ntargets = 2", Field::Targets),
    (
        "version = 1\nmaster = 'm'\ntargets = ['m', 2]",
        Field::Targets,
    ),
    ("version = 1\nmaster = 'm'\nlink = 2", Field::Nodes),
    ("version = 1\nmaster = 'm'\nnode = [{}, 2]", Field::Nodes),
    (
        "version = 1\nmaster = 'm'\nnode = []\nlink = [2]",
        Field::Links,
    ),
];

/// The fault of a top table without the master that it names.
const NO_MASTER: PlatformFault = PlatformFault::Unknown(Place {
    section: Section::Top,
    field: Field::Master,
});

/// Whether this field of the top table is what is bad in a text.
fn has_bad_field(alloc: Global, text: &str, field: Field) -> bool {
    let place = Place {
        section: Section::Top,
        field,
    };
    fault(alloc, text.as_bytes()) == Some(PlatformFault::BadField(place))
}

/// A top table without nodes.
const NO_NODES: &str = "version = 1\nmaster = 'm'\nnode = []\nlink = []\ntargets = []";

fn tells_fields(alloc: Global) -> Result<(), Fail> {
    for (text, field) in &TOP_FIELDS {
        holds(text, has_bad_field(alloc, text, *field))?;
    }
    holds(
        NO_NODES,
        fault(alloc, NO_NODES.as_bytes()) == Some(NO_MASTER),
    )
}

#[test]
fn names_each_fault_of_the_top(rt: HostRuntime) -> Result<(), Fail> {
    tells_fields(rt.alloc())
}

/// Why the text between a head and a tail is no platform.
fn fault_between(
    alloc: Global,
    head: &str,
    text: &str,
    tail: &str,
) -> Result<Option<PlatformFault>, Fail> {
    let whole = format!(in alloc; "{head}{text}{tail}")?;
    Ok(fault(alloc, whole.as_bytes()))
}

/// Tells each text between a head and a tail by its fault.
fn tells_faults(
    alloc: Global,
    head: &str,
    rows: &[(&str, PlatformFault)],
    tail: &str,
) -> Result<(), Fail> {
    for (text, found) in rows {
        holds(
            text,
            fault_between(alloc, head, text, tail)? == Some(*found),
        )?;
    }
    Ok(())
}

const NODE_NAME: Place = Place {
    section: Section::Node(0),
    field: Field::Name,
};

const NODE_EXTRA: Place = Place {
    section: Section::Node(0),
    field: Field::Extra,
};

const NODE_TIME: Place = Place {
    section: Section::Node(0),
    field: Field::Time,
};

const SECOND_TIME: Place = Place {
    section: Section::Node(1),
    field: Field::Time,
};

const NODES: Place = Place {
    section: Section::Top,
    field: Field::Nodes,
};

const SECOND_TARGET: Place = Place {
    section: Section::Target(1),
    field: Field::Itself,
};

/// The head of a text, to the master's name.
const MASTER: &str = "version = 1\nmaster = 'm'\n";

/// What stands behind the master's name, and the fault of it.
static NODES_AND_TARGETS: [(&str, PlatformFault); 14] = [
    (
        "node = [{}, {cost = 1}]",
        PlatformFault::BadField(NODE_NAME),
    ),
    (
        "node = [{name = '', nam = ''}]",
        PlatformFault::BadField(NODE_EXTRA),
    ),
    (
        "node = [{name = 'a b'}]",
        PlatformFault::BadField(NODE_NAME),
    ),
    (
        "node = [{name = 'abcdefghijklmnopqrstuvwxyz0123456'}]",
        PlatformFault::BadField(NODE_NAME),
    ),
    (
        "node = [{name = 'm', time = 1.5}]",
        PlatformFault::BadField(NODE_TIME),
    ),
    (
        "node = [{name = 'm', time = -1}]",
        PlatformFault::BadRatio(NODE_TIME, RatioFault::Shape),
    ),
    (
        "node = [{name = 'm', time = 0}]",
        PlatformFault::BadRatio(NODE_TIME, RatioFault::Zero),
    ),
    (
        "node = [{name = 'm', time = 1000001}]",
        PlatformFault::BadRatio(NODE_TIME, RatioFault::TooLarge),
    ),
    (
        "node = [{name = 'm', time = '1/0'}, 1]",
        PlatformFault::BadField(NODES),
    ),
    (
        "node = [{name = 'm'}, {name = 'm', time = '1/0'}]",
        PlatformFault::BadRatio(SECOND_TIME, RatioFault::Zero),
    ),
    (
        "node = [{name = 'm'}, {name = 'm'}, {}]",
        PlatformFault::TwiceNamed(1),
    ),
    (
        "targets = ['n', 'x']\nnode = [{name = 'm'}, {name = 'n'}]",
        PlatformFault::Unknown(SECOND_TARGET),
    ),
    (
        "targets = ['m']\nnode = [{name = 'm'}]",
        PlatformFault::TargetIsMaster(0),
    ),
    (
        "targets = ['n', 'n']\nnode = [{name = 'm'}, {name = 'n'}]",
        PlatformFault::TargetTwice(1),
    ),
];

const LINK_EXTRA: Place = Place {
    section: Section::Link(1),
    field: Field::Extra,
};

const LINK_FROM: Place = Place {
    section: Section::Link(1),
    field: Field::From,
};

const LINK_TO: Place = Place {
    section: Section::Link(1),
    field: Field::To,
};

const LINK_COST: Place = Place {
    section: Section::Link(1),
    field: Field::Cost,
};

/// What stands in the second link, and the fault of it.
static LINKS: [(&str, PlatformFault); 11] = [
    ("cast = 1", PlatformFault::BadField(LINK_EXTRA)),
    ("to = 'm'", PlatformFault::BadField(LINK_FROM)),
    ("from = 1", PlatformFault::BadField(LINK_FROM)),
    ("from = 'x', to = 1", PlatformFault::BadField(LINK_TO)),
    ("from = 'x', to = 'y'", PlatformFault::BadField(LINK_COST)),
    (
        "from = 'x', to = 'y', cost = [1]",
        PlatformFault::BadField(LINK_COST),
    ),
    (
        "from = 'x', to = 'y', cost = '1,5'",
        PlatformFault::BadRatio(LINK_COST, RatioFault::Shape),
    ),
    (
        "from = 'x', to = 'y', cost = 1",
        PlatformFault::Unknown(LINK_FROM),
    ),
    (
        "from = 'n', to = 'y', cost = 1",
        PlatformFault::Unknown(LINK_TO),
    ),
    ("from = 'n', to = 'n', cost = 1", PlatformFault::SelfLink(1)),
    (
        "from = 'm', to = 'n', cost = 2",
        PlatformFault::TwiceLinked(1),
    ),
];

/// The head of a text, into its second link.
const SECOND_LINK: &str =
    "version = 1\nmaster = 'm'\nnode = [{name = 'm'}, {name = 'n'}]\nlink = [{from = 'm', to = 'n', cost = 1}, {";

fn tells_sections(alloc: Global) -> Result<(), Fail> {
    tells_faults(alloc, MASTER, &NODES_AND_TARGETS, "")?;
    tells_faults(alloc, SECOND_LINK, &LINKS, "}]")
}

#[test]
fn names_each_fault_of_nodes_targets_and_links(rt: HostRuntime) -> Result<(), Fail> {
    tells_sections(rt.alloc())
}

/// The fault of a text with a byte more than it may have.
fn fault_of_long_text(alloc: Global) -> Result<Option<PlatformFault>, Fail> {
    let long = vec![in alloc; b' '; 1048577]?;
    Ok(fault(alloc, &long))
}

#[test]
fn refuses_a_long_text(rt: HostRuntime) -> Result<(), Fail> {
    holds(
        "a long text",
        fault_of_long_text(rt.alloc())? == Some(PlatformFault::Limit(Kind::Text, 1048577)),
    )
}

/// Bytes that are no TOML document.
static NO_TOML: [(&str, &[u8]); 2] = [
    ("an array without an end", b"version = 1\nnode = [{name"),
    ("a byte that is no UTF-8", b"\xff"),
];

fn tells_no_toml(alloc: Global) -> Result<(), Fail> {
    for (name, bytes) in &NO_TOML {
        holds(name, fault(alloc, bytes) == Some(PlatformFault::NotToml))?;
    }
    Ok(())
}

#[test]
fn refuses_what_is_no_toml(rt: HostRuntime) -> Result<(), Fail> {
    tells_no_toml(rt.alloc())
}

/// Numbers of nodes, links and targets, and the fault of a text with so many.
static CROWDS: [(&str, [u32; 3], PlatformFault); 4] = [
    (
        "a node too many",
        [33, 129, 9],
        PlatformFault::Limit(Kind::Nodes, 33),
    ),
    (
        "a link too many",
        [32, 129, 9],
        PlatformFault::Limit(Kind::Links, 129),
    ),
    (
        "a target too many",
        [32, 128, 9],
        PlatformFault::Limit(Kind::Targets, 9),
    ),
    (
        "as many as may be",
        [32, 128, 8],
        PlatformFault::BadField(NODE_NAME),
    ),
];

/// The keys of the arrays, and an item of each.
static KEYS: [(&str, &str); 3] = [("node", "{},"), ("link", "{},"), ("targets", "'t',")];

/// Writes a key with an array of so many items.
fn write_array(text: &mut String, key: &str, item: &str, count: u32) -> Result<(), Fail> {
    write!(text, "{key} = [")?;
    for _ in 0..count {
        text.push_str(item)?;
    }
    text.push_str("]\n")?;
    Ok(())
}

fn write_arrays(text: &mut String, counts: &[u32; 3]) -> Result<(), Fail> {
    for (row, count) in KEYS.iter().zip(counts) {
        write_array(text, row.0, row.1, *count)?;
    }
    Ok(())
}

fn arrays(alloc: Global, counts: &[u32; 3]) -> Result<String, Fail> {
    let mut text = String::new(alloc);
    write_arrays(&mut text, counts)?;
    Ok(text)
}

fn fault_of_crowd(alloc: Global, counts: &[u32; 3]) -> Result<Option<PlatformFault>, Fail> {
    fault_between(alloc, MASTER, arrays(alloc, counts)?.as_str(), "")
}

fn tells_crowds(alloc: Global) -> Result<(), Fail> {
    for (name, counts, found) in &CROWDS {
        holds(name, fault_of_crowd(alloc, counts)? == Some(*found))?;
    }
    Ok(())
}

#[test]
fn refuses_too_much(rt: HostRuntime) -> Result<(), Fail> {
    tells_crowds(rt.alloc())
}

/// Three denominators, of which the third makes their least common multiple exceed 2^40.
const THREE_DENOMINATORS: &str =
    "version = 1\nmaster = 'm'\nnode = [{name = 'm', time = '1/999999'}, {name = 'x', time = '1/999998'}, {name = 'y', time = '1/999997'}]";

/// Why the platform of a text has no ticks.
fn fault_of_ticks(alloc: Global, text: &str) -> Result<Option<TimedFault>, Fail> {
    Ok(timed(alloc, read(alloc, text)?).err())
}

#[test]
fn finds_the_denominator_that_passes(rt: HostRuntime) -> Result<(), Fail> {
    let passes = TimedFault::Unit {
        left: 999997000002,
        right: 999997,
    };
    holds(
        "the third denominator",
        fault_of_ticks(rt.alloc(), THREE_DENOMINATORS)? == Some(passes),
    )
}

/// Places of faults, as they are written.
static PLACES: [(Section, Field, &str); 5] = [
    (Section::Top, Field::Version, "top.version"),
    (Section::Top, Field::Links, "top.links"),
    (Section::Node(3), Field::Time, "node 3.time"),
    (Section::Link(12), Field::From, "link 12.from"),
    (Section::Target(0), Field::Itself, "target 0"),
];

fn is_written(alloc: Global, place: Place, text: &str) -> Result<bool, Fail> {
    let written = format!(in alloc; "{place}")?;
    Ok(written.as_str() == text)
}

#[test]
fn writes_places(rt: HostRuntime) -> Result<(), Fail> {
    for (section, field, text) in &PLACES {
        let place = Place {
            section: *section,
            field: *field,
        };
        holds(text, is_written(rt.alloc(), place, text)?)?;
    }
    Ok(())
}
