//! The row that a kept body is read as.
ghost use Rattle.std.specs.Prelude.{◌≡◌, ◌++◌, map};
ghost use Rattle.serde_json.specs.View.{view};
ghost use Rattle.desk_json.specs.Faults.{IsRead};
ghost use Rattle.desk_json.specs.Forms.{all_names};
ghost use Rattle.desk_json.specs.TreeReading.{with_only};
ghost use Rattle.desk_kept.specs.Kept.{kept_form, with_key, row_in, row_of_text};

use crate::bookings::read_booking;
use crate::callers::read_caller;
use desk_base::{AnyRow, Field, Key, Table};
use desk_json::{BodyError, BodyRule, Names, columns_of, has_only, parse, read_group};
use serde_json::Value;
use std::alloc::Global;
use std::cmp::Ordering;

const GROUP_NAMES: &[&str] = &["id", "name", "from", "to", "step", "tree"];

const BOOKING_NAMES: &[&str] = &["group", "leaf", "resource", "from", "to", "effort"];

const CALLER_NAMES: &[&str] = &["last", "receipt"];

fn names_with(key: &'static [&'static str], others: &'static [&'static str]) -> Names
    ensures { all_names result ≡ map (λ known. known.now) key.now ++ map (λ known. known.now) others.now }
{
    Names {
        head: &[],
        key,
        others,
    }
}

/// The names of the fields of a row of a table.
#[tactic(auto, unfolding(crate::specs::Kept::kept_form, crate::specs::Bookings::booking_form, crate::specs::Bookings::booked_for_form, crate::specs::Bookings::taken_form, crate::specs::Callers::caller_form, desk_json::specs::Tables::group_form, desk_json::specs::Tables::grid_form))]
fn names_of(key: &Key) -> Names
    ensures { all_names result ≡ (kept_form key.now.table key.now.a).names }
{
    match key.table {
        Table::Group => names_with(&[], GROUP_NAMES),
        Table::Booking => names_with(&[], BOOKING_NAMES),
        Table::Caller => names_with(&[], CALLER_NAMES),
        Table::BookingNumbers => names_with(&[], &[]),
        table => {
            let columns = columns_of(table);
            names_with(columns.key, columns.others)
        }
    }
}

#[tactic(auto, unfolding(crate::specs::Kept::kept_form))]
fn read_fields(alloc: Global, key: &Key, body: &Value) -> Result<AnyRow, BodyError>
    ensures { IsRead ((kept_form key.now.table key.now.a).read (view body.now)) result }
{
    match key.table {
        Table::Group => Ok(AnyRow::Group(read_group(alloc, body)?)),
        Table::Booking => Ok(AnyRow::Booking(read_booking(key.a, body)?)),
        Table::Caller => Ok(AnyRow::Caller(read_caller(key.a, body)?)),
        Table::BookingNumbers => Err(BodyError::Bad(BodyRule::Range, Field::Body)),
        table => desk_json::read_row(alloc, table, body),
    }
}

fn with_only(names: &Names, body: &Value, row: AnyRow) -> Result<AnyRow, BodyError>
    ensures { result ≡ with_only (all_names names.now) Field.Other (view body.now) row }
{
    if has_only(body, names) {
        Ok(row)
    } else {
        Err(BodyError::Bad(BodyRule::Unknown, Field::Other))
    }
}

fn with_key(key: &Key, row: AnyRow) -> Result<AnyRow, BodyError>
    ensures { result ≡ with_key key.now row }
{
    if row.key().compare(key) == Ordering::Equal {
        Ok(row)
    } else {
        Err(BodyError::Bad(BodyRule::Range, Field::Body))
    }
}

#[tactic(auto, unfolding(crate::specs::Kept::row_in))]
pub(crate) fn read_body(alloc: Global, key: &Key, body: &Value) -> Result<AnyRow, BodyError>
    ensures { IsRead (row_in key.now (view body.now)) result }
{
    if !body.is_object() {
        return Err(BodyError::Bad(BodyRule::Object, Field::Body));
    }
    let row = read_fields(alloc, key, body)?;
    let row = with_only(&names_of(key), body, row)?;
    with_key(key, row)
}

/// The row that a body gives under a key, or the first fault of the body: no JSON, no object, the fields in the order in which
/// bodies of changes have them, other names, and last a key that is not the row's, which is a `Range` of the body.
#[tactic(auto, unfolding(crate::specs::Kept::row_of_text))]
pub fn read_row(alloc: Global, key: &Key, text: &[u8]) -> Result<AnyRow, BodyError>
    ensures { IsRead (row_of_text key.now text.now) result }
{
    let body = parse(alloc, text)?;
    read_body(alloc, key, &body)
}
