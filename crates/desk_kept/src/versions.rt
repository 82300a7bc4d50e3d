//! Versions of kept rows: in the first no leaf of a group says its offset, in the second each does.
ghost use Rattle.std.specs.Prelude.{◌≡◌, bytes_eq, codes, if◌then◌else◌};
ghost use Rattle.serde_json.specs.View.{view, items_view, members_view};
ghost use Rattle.desk_kept.specs.Versions.{version_of, has_offset_as, leaves_are, items_are, members_are, is_of_version, row_in_version, row_of_version};
ghost use Rattle.desk_json.specs.Faults.{IsRead};
ghost use Rattle.desk_kept.specs.Versions.{with_version};

use crate::reading::read_body;
use desk_base::{AnyRow, Field, Key, Table};
use desk_json::{BodyError, BodyRule, parse};
use serde_json::{Map, Value};
use std::alloc::Global;

/// How rows are kept.
#[derive(Clone, Copy, Debug, PartialEq, Eq)]
pub enum Version {
    /// No leaf of a group has an offset: each is 0.
    First,
    /// Each leaf of a group has its offset.
    Second,
}

impl Version {
    /// The version of a number.
    pub(crate) fn of(number: u8) -> Option<Version>
        ensures { result ≡ version_of number }
    {
        match number {
            1 => Some(Version::First),
            2 => Some(Version::Second),
            _ => None,
        }
    }
}

fn has_offset_as(version: Version, leaf: &Value) -> bool
    ensures { result ≡ has_offset_as version (view leaf.now) }
{
    let offset = leaf.get("offset");
    match version {
        Version::First => offset.is_none(),
        Version::Second => offset.is_some(),
    }
}

#[cycle(leaves_are)]
fn leaves_are(version: Version, value: &Value) -> bool
    ensures { result ≡ leaves_are version (view value.now) }
{
    match value {
        Value::Array(items) => items_are(version, items),
        Value::Object(members) => members_are(version, members),
        _ => true,
    }
}

#[cycle(leaves_are)]
fn items_are(version: Version, items: &Vec<Value>) -> bool
    ensures { result ≡ items_are version (items_view items.now.items) }
{
    for item in items {
        if !leaves_are(version, item) {
            return false;
        }
    }
    true
}

#[cycle(leaves_are)]
fn member_is(version: Version, name: &str, value: &Value) -> bool
    ensures { result ≡ (if bytes_eq name.now (codes "leaf") then has_offset_as version (view value.now) else leaves_are version (view value.now)) }
{
    if name == "leaf" {
        has_offset_as(version, value)
    } else {
        leaves_are(version, value)
    }
}

#[cycle(leaves_are)]
fn members_are(version: Version, members: &Map<String, Value>) -> bool
    ensures { result ≡ members_are version (members_view members.now.entries) }
{
    for (name, value) in members.iter() {
        if !member_is(version, name.as_str(), value) {
            return false;
        }
    }
    true
}

fn is_of_version(version: Version, table: Table, body: &Value) -> bool
    ensures { result ≡ is_of_version version table (view body.now) }
{
    match table {
        Table::Group => leaves_are(version, body),
        _ => true,
    }
}

fn with_version(
    version: Version,
    table: Table,
    body: &Value,
    row: AnyRow,
) -> Result<AnyRow, BodyError>
    ensures { result ≡ with_version version table (view body.now) row }
{
    if is_of_version(version, table, body) {
        Ok(row)
    } else {
        Err(BodyError::Bad(BodyRule::Unknown, Field::Tree))
    }
}

#[tactic(auto, unfolding(crate::specs::Versions::row_in_version))]
fn read_in_version(
    alloc: Global,
    version: Version,
    key: &Key,
    body: &Value,
) -> Result<AnyRow, BodyError>
    ensures { IsRead (row_in_version version key.now (view body.now)) result }
{
    let row = read_body(alloc, key, body)?;
    with_version(version, key.table, body, row)
}

/// The row that a text gives under a key in a version, or its first fault.
#[tactic(auto, unfolding(crate::specs::Versions::row_of_version))]
pub(crate) fn read_version(
    alloc: Global,
    version: Version,
    key: &Key,
    text: &[u8],
) -> Result<AnyRow, BodyError>
    ensures { IsRead (row_of_version version key.now text.now) result }
{
    let body = parse(alloc, text)?;
    read_in_version(alloc, version, key, &body)
}
