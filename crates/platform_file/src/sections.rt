//! The top table of a platform file.

ghost use Rattle.std.specs.Prelude.{◌≡◌, ◌≤◌, Ok, MatchResult, IfOk, length, map};
ghost use Rattle.toml.specs.View.{table_view};
ghost use Rattle.platform_file.specs.Reading.{IsFaultOf, master_name_of, target_names_of, node_tables_of, link_tables_of, sections_of, within_limits};
ghost use Rattle.platform_file.specs.Sections.{sections_view};

use crate::document::{
    has_other_key, integer_at, optional_tables, optional_texts, tables_at, text_at,
};
use crate::fault::{Field, Kind, PlatformFault, Section};
use std::alloc::Global;
use toml::Table;

/// The greatest number of nodes.
const MOST_NODES: usize = 32;

/// The greatest number of links.
const MOST_LINKS: usize = 128;

/// The greatest number of targets.
const MOST_TARGETS: usize = 8;

/// What the top table names.
#[derive(Drop)]
pub(crate) struct Sections<'a> {
    pub(crate) master: &'a str,
    pub(crate) targets: Vec<&'a str>,
    pub(crate) nodes: Vec<&'a Table>,
    pub(crate) links: Vec<&'a Table>,
}

/// The master's name, where the top table has no strange key and the version is the format's.
fn master_name(document: &Table) -> Result<&str, PlatformFault>
    ensures { MatchResult result
        (λ name. master_name_of (table_view document.now) ≡ Ok name.now)
        (λ fault. IsFaultOf fault (master_name_of (table_view document.now))) }
{
    if has_other_key(&["version", "master", "targets", "node", "link"], document) {
        return Err(PlatformFault::bad_field(Section::Top, Field::Extra));
    }
    if integer_at(document, "version") != Some(1) {
        return Err(PlatformFault::bad_field(Section::Top, Field::Version));
    }
    match text_at(document, "master") {
        Some(master) => Ok(master),
        None => Err(PlatformFault::bad_field(Section::Top, Field::Master)),
    }
}

/// The targets' names.
fn target_names(alloc: Global, document: &Table) -> Result<Vec<&str>, PlatformFault>
    ensures { MatchResult result
        (λ names. target_names_of (table_view document.now) ≡ Ok (map (λ text. text.now) names.items))
        (λ fault. IsFaultOf fault (target_names_of (table_view document.now))) }
{
    match optional_texts(alloc, document, "targets")? {
        Some(targets) => Ok(targets),
        None => Err(PlatformFault::bad_field(Section::Top, Field::Targets)),
    }
}

/// The tables of nodes.
fn node_tables(alloc: Global, document: &Table) -> Result<Vec<&Table>, PlatformFault>
    ensures { MatchResult result
        (λ tables. node_tables_of (table_view document.now) ≡ Ok (map (λ table. table_view table.now) tables.items))
        (λ fault. IsFaultOf fault (node_tables_of (table_view document.now))) }
{
    match tables_at(alloc, document, "node")? {
        Some(nodes) => Ok(nodes),
        None => Err(PlatformFault::bad_field(Section::Top, Field::Nodes)),
    }
}

/// The tables of links.
fn link_tables(alloc: Global, document: &Table) -> Result<Vec<&Table>, PlatformFault>
    ensures { MatchResult result
        (λ tables. link_tables_of (table_view document.now) ≡ Ok (map (λ table. table_view table.now) tables.items))
        (λ fault. IsFaultOf fault (link_tables_of (table_view document.now))) }
{
    match optional_tables(alloc, document, "link")? {
        Some(links) => Ok(links),
        None => Err(PlatformFault::bad_field(Section::Top, Field::Links)),
    }
}

/// The top table's sections.
pub(crate) fn read_sections(alloc: Global, document: &Table) -> Result<Sections<'_>, PlatformFault>
    ensures { MatchResult result
        (λ s. sections_of (table_view document.now) ≡ Ok (sections_view s))
        (λ fault. IsFaultOf fault (sections_of (table_view document.now))) }
{
    let master = master_name(document)?;
    let targets = target_names(alloc, document)?;
    let nodes = node_tables(alloc, document)?;
    let links = link_tables(alloc, document)?;
    Ok(Sections {
        master,
        targets,
        nodes,
        links,
    })
}

/// The sections, where they have no more nodes, links and targets than are allowed.
pub(crate) fn within_limits(sections: Sections<'_>) -> Result<Sections<'_>, PlatformFault>
    ensures value { MatchResult result
        (λ s. within_limits (sections_view sections.entry) ≡ Ok (sections_view s))
        (λ fault. IsFaultOf fault (within_limits (sections_view sections.entry))) }
    ensures small { IfOk result (λ s. (length s.nodes.items ≤ 32) × (length s.links.items ≤ 128) × (length s.targets.items ≤ 8)) }
{
    if sections.nodes.len() > MOST_NODES {
        return Err(PlatformFault::Limit(Kind::Nodes, sections.nodes.len() as u64));
    }
    if sections.links.len() > MOST_LINKS {
        return Err(PlatformFault::Limit(Kind::Links, sections.links.len() as u64));
    }
    if sections.targets.len() > MOST_TARGETS {
        return Err(PlatformFault::Limit(Kind::Targets, sections.targets.len() as u64));
    }
    Ok(sections)
}
