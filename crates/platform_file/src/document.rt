//! Look-ups in a TOML document.

ghost use Rattle.std.specs.Prelude.{◌≡◌, not, map, string_bytes, IfOk, option_map, option_and_then, option_copied, bytes_eq};
ghost use Rattle.std.specs.List.{list_any};
ghost use Rattle.std.specs.BTreeMap.{keys};
ghost use Rattle.toml.specs.Data.{get_member, as_str, as_table};
ghost use Rattle.toml.specs.View.{view, items_view, table_view};
ghost use Rattle.platform_file.specs.Documents.{text_at, integer_at, has_other_key, all_of, items_of, optional_items};

use std::alloc::{AllocError, Global};
use toml::{Table, Value};

/// The value at a key.
pub(crate) fn value_at<'a>(table: &'a Table, key: &str) -> Option<&'a Value>
    ensures { option_map (λ value. view value.now) result ≡ get_member key.now (table_view table.now) }
{
    table.get(key)
}

/// The whole number at a key.
pub(crate) fn integer_at(table: &Table, key: &str) -> Option<i64>
    ensures { result ≡ integer_at key.now (table_view table.now) }
{
    match value_at(table, key) {
        Some(value) => value.as_integer(),
        None => None,
    }
}

/// The string at a key.
pub(crate) fn text_at<'a>(table: &'a Table, key: &str) -> Option<&'a str>
    ensures { option_copied result ≡ text_at key.now (table_view table.now) }
{
    match value_at(table, key) {
        Some(value) => value.as_str(),
        None => None,
    }
}

/// The strings of some values, where each of them is one.
fn all_texts<'a>(alloc: Global, values: &'a [Value]) -> Result<Option<Vec<&'a str>>, AllocError>
    ensures { IfOk result
        (λ found. option_map (λ texts. map (λ text. text.now) texts.items) found ≡ all_of as_str (items_view values.now)) }
{
    let mut texts = Vec::new(alloc);
    for value in values {
        match value.as_str() {
            Some(text) => texts.push(text)?,
            None => return Ok(None),
        }
    }
    Ok(Some(texts))
}

/// The tables of some values, where each of them is one.
fn all_tables<'a>(alloc: Global, values: &'a [Value]) -> Result<Option<Vec<&'a Table>>, AllocError>
    ensures { IfOk result
        (λ found. option_map (λ tables. map (λ table. table_view table.now) tables.items) found ≡ all_of as_table (items_view values.now)) }
{
    let mut tables = Vec::new(alloc);
    for value in values {
        match value.as_table() {
            Some(table) => tables.push(table)?,
            None => return Ok(None),
        }
    }
    Ok(Some(tables))
}

/// The tables of the array at a key.
pub(crate) fn tables_at<'a>(
    alloc: Global,
    table: &'a Table,
    key: &str,
) -> Result<Option<Vec<&'a Table>>, AllocError>
    ensures { IfOk result
        (λ found. option_map (λ tables. map (λ table. table_view table.now) tables.items) found
        ≡ option_and_then (items_of as_table) (get_member key.now (table_view table.now))) }
{
    match value_at(table, key).and_then(Value::as_array) {
        Some(values) => all_tables(alloc, values),
        None => Ok(None),
    }
}

/// The tables of the array at a key, and none where the key is absent.
pub(crate) fn optional_tables<'a>(
    alloc: Global,
    table: &'a Table,
    key: &str,
) -> Result<Option<Vec<&'a Table>>, AllocError>
    ensures { IfOk result
        (λ found. option_map (λ tables. map (λ table. table_view table.now) tables.items) found
        ≡ optional_items as_table (get_member key.now (table_view table.now))) }
{
    match value_at(table, key) {
        None => Ok(Some(Vec::new(alloc))),
        Some(value) => match value.as_array() {
            Some(values) => all_tables(alloc, values),
            None => Ok(None),
        },
    }
}

/// The strings of the array at a key, and none where the key is absent.
pub(crate) fn optional_texts<'a>(
    alloc: Global,
    table: &'a Table,
    key: &str,
) -> Result<Option<Vec<&'a str>>, AllocError>
    ensures { IfOk result
        (λ found. option_map (λ texts. map (λ text. text.now) texts.items) found
        ≡ optional_items as_str (get_member key.now (table_view table.now))) }
{
    match value_at(table, key) {
        None => Ok(Some(Vec::new(alloc))),
        Some(value) => match value.as_array() {
            Some(values) => all_texts(alloc, values),
            None => Ok(None),
        },
    }
}

/// Whether a key is one of the names.
fn is_among(names: &[&str], key: &str) -> bool
    ensures { result ≡ list_any (λ name. bytes_eq key.now name.now) names.now }
{
    names.iter().any(|name| key == *name)
}

/// Whether a map's key is none of the names.
fn any_other_key(names: &[&str], table: &Table) -> bool
    ensures { result ≡ list_any (λ key. not (list_any (λ name. bytes_eq (string_bytes key) name.now) names.now)) (keys table.now) }
{
    table.keys().any(|key| !is_among(names, key.as_str()))
}

/// Whether a table has a key that is none of the names.
pub(crate) fn has_other_key(names: &[&str], table: &Table) -> bool
    ensures { result ≡ has_other_key (map (λ name. name.now) names.now) (table_view table.now) }
{
    any_other_key(names, table)
}
