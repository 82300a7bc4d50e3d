//! Acts, from the fields of a body.
ghost use Rattle.std.specs.Prelude.{◌≡◌, ◌++◌, find, bytes_eq, map};
ghost use Rattle.serde_json.specs.View.{view};
ghost use Rattle.desk_json.specs.Faults.{IsRead};
ghost use Rattle.desk_json.specs.Words.{table_name};
ghost use Rattle.desk_json.specs.Reading.{named};
ghost use Rattle.desk_json.specs.Forms.{all_names};
ghost use Rattle.desk_json.specs.TreeReading.{with_only};
ghost use Rattle.desk_json.specs.Bodies.{table_behind, group_acts, act_named, head_form, booking_form, act_form, names_of, act_in};

use crate::faults::{BodyError, BodyRule};
use crate::fields::{Names, has_only, value_at};
use crate::groups::read_group;
use crate::lists::list_at;
use crate::reading::Read;
use crate::tables::{columns_of, read_key, read_row};
use crate::words::table_name;
use desk_base::{Act, ActCode, Field, GroupId, Minute, Picks, Table};
use serde_json::Value;
use std::alloc::Global;

/// The tables whose rows are put and removed one by one.
const ROW_TABLES: [Table; 16] = [
    Table::Zone,
    Table::Calendar,
    Table::Work,
    Table::Break,
    Table::Day,
    Table::Off,
    Table::Unit,
    Table::Site,
    Table::Role,
    Table::Characteristic,
    Table::Territory,
    Table::Resource,
    Table::HasRole,
    Table::HasCharacteristic,
    Table::HasTerritory,
    Table::Member,
];

/// Whether the name of a table stands behind a front.
fn is_behind(front: &str, table: Table, text: &str) -> bool
    ensures { result ≡ bytes_eq (front.now ++ table_name table) text.now }
{
    match text.as_bytes().strip_prefix(front.as_bytes()) {
        Some(name) => name == table_name(table).as_bytes(),
        None => false,
    }
}

fn find_behind(front: &str, tables: &[Table], text: &str) -> Option<Table>
    ensures { result ≡ find (λ table. bytes_eq (front.now ++ table_name table) text.now) tables.now }
{
    for table in tables {
        if is_behind(front, *table, text) {
            return Some(*table);
        }
    }
    None
}

/// The table whose name stands behind a front.
fn table_behind(front: &str, text: &str) -> Option<Table>
    ensures { result ≡ table_behind front.now text.now }
{
    find_behind(front, &ROW_TABLES, text)
}

/// The act of a name that is of groups.
fn group_act_named(text: &str) -> Option<ActCode>
    ensures { result ≡ named group_acts text.now }
{
    if text == "put_group" {
        Some(ActCode::PutGroup)
    } else if text == "drop_group" {
        Some(ActCode::DropGroup)
    } else if text == "book_group" {
        Some(ActCode::BookGroup)
    } else if text == "move_group" {
        Some(ActCode::MoveGroup)
    } else if text == "cancel_group" {
        Some(ActCode::CancelGroup)
    } else {
        None
    }
}

#[tactic(auto, unfolding(crate::specs::Bodies::act_named))]
fn act_named(text: &str) -> Option<ActCode>
    ensures { result ≡ act_named text.now }
{
    if let Some(table) = table_behind("put_", text) {
        return Some(ActCode::Put(table));
    }
    match table_behind("remove_", text) {
        Some(table) => Some(ActCode::Remove(table)),
        None => group_act_named(text),
    }
}

impl Read for ActCode {
    ghost use Rattle.desk_json.specs.Bodies.{act_name_in};

    ghost meant = { act_name_in };

    #[tactic(auto, unfolding(crate::specs::Bodies::act_name_in, crate::specs::Reading::text_in))]
    fn read(value: &Value, field: Field) -> Result<ActCode, BodyError> {
        let Some(text) = value.as_str() else {
            return Err(BodyError::Bad(BodyRule::Sort, field));
        };
        match act_named(text) {
            Some(act) => Ok(act),
            None => Err(BodyError::Bad(BodyRule::Range, field)),
        }
    }
}

#[tactic(auto, unfolding(crate::specs::Bodies::booking_form))]
fn read_booking(alloc: Global, body: &Value) -> Result<(GroupId, Minute, Picks), BodyError>
    ensures { IsRead (booking_form.read (view body.now)) result }
{
    let group = value_at(body, Field::Group)?;
    let start = value_at(body, Field::Start)?;
    let picks = list_at(alloc, body, Field::Picks)?;
    Ok((group, start, picks))
}

fn read_book(alloc: Global, body: &Value) -> Result<Act, BodyError>
    ensures { IsRead ((act_form ActCode.BookGroup).read (view body.now)) result }
{
    let (group, start, picks) = read_booking(alloc, body)?;
    Ok(Act::BookGroup {
        group,
        start,
        picks,
    })
}

fn read_move(alloc: Global, body: &Value) -> Result<Act, BodyError>
    ensures { IsRead ((act_form ActCode.MoveGroup).read (view body.now)) result }
{
    let (group, start, picks) = read_booking(alloc, body)?;
    Ok(Act::MoveGroup {
        group,
        start,
        picks,
    })
}

fn read_fields(alloc: Global, act: ActCode, body: &Value) -> Result<Act, BodyError>
    ensures { IsRead ((act_form act).read (view body.now)) result }
{
    match act {
        ActCode::Put(table) => Ok(Act::Put(read_row(alloc, table, body)?)),
        ActCode::Remove(table) => Ok(Act::Remove(read_key(table, body)?)),
        ActCode::PutGroup => Ok(Act::PutGroup(read_group(alloc, body)?)),
        ActCode::DropGroup => Ok(Act::DropGroup(value_at(body, Field::Group)?)),
        ActCode::BookGroup => read_book(alloc, body),
        ActCode::MoveGroup => read_move(alloc, body),
        ActCode::CancelGroup => Ok(Act::CancelGroup(value_at(body, Field::Group)?)),
    }
}

/// The names that each body has.
const HEAD: &[&str] = &["act", "caller", "number"];

#[tactic(auto, unfolding(crate::specs::Bodies::head_form))]
fn names_with(key: &'static [&'static str], others: &'static [&'static str]) -> Names
    ensures { all_names result ≡ head_form.names ++ map (λ known. known.now) key.now ++ map (λ known. known.now) others.now }
{
    Names {
        head: HEAD,
        key,
        others,
    }
}

#[tactic(auto, unfolding(crate::specs::Bodies::names_of, crate::specs::Bodies::booking_form, crate::specs::Tables::grid_form, crate::specs::Tables::group_form))]
fn names_of(act: ActCode) -> Names
    ensures { all_names result ≡ names_of act }
{
    match act {
        ActCode::Put(table) => {
            let columns = columns_of(table);
            names_with(columns.key, columns.others)
        }
        ActCode::Remove(table) => names_with(columns_of(table).key, &[]),
        ActCode::PutGroup => names_with(&["id"], &["name", "from", "to", "step", "tree"]),
        ActCode::DropGroup => names_with(&["group"], &[]),
        ActCode::BookGroup => names_with(&["group"], &["start", "picks"]),
        ActCode::MoveGroup => names_with(&["group"], &["start", "picks"]),
        ActCode::CancelGroup => names_with(&["group"], &[]),
    }
}

fn with_only(names: &Names, body: &Value, act: Act) -> Result<Act, BodyError>
    ensures { result ≡ with_only (all_names names.now) Field.Other (view body.now) act }
{
    if has_only(body, names) {
        Ok(act)
    } else {
        Err(BodyError::Bad(BodyRule::Unknown, Field::Other))
    }
}

/// The act of a body, which has no other fields than those of the act.
#[tactic(auto, unfolding(crate::specs::Bodies::act_in))]
pub(crate) fn read_act(alloc: Global, name: ActCode, body: &Value) -> Result<Act, BodyError>
    ensures { IsRead (act_in name (view body.now)) result }
{
    let act = read_fields(alloc, name, body)?;
    with_only(&names_of(name), body, act)
}
