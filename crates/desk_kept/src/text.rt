//! The text of a row.
ghost use Rattle.std.specs.Prelude.{◌≡◌, IfOk, OnOk, Ok};
ghost use Rattle.serde_json.specs.View.{view};
ghost use Rattle.desk_base.specs.rows.Rows.{key_of};
ghost use Rattle.desk_kept.specs.Kept.{row_data, row_text, row_of_text};
ghost use Rattle.desk_kept.specs.Typed.{IsTyped, HasHorizon};
ghost use Rattle.desk_kept.specs.Rules.{KeepsRules};

use crate::bookings::booking_value;
use crate::callers::caller_value;
use crate::groups::group_value;
use crate::rows::{
    break_value, calendar_value, day_row_value, has_value, member_value, named_value, off_value,
    rated_value, resource_value, work_value, zone_value,
};
use crate::typed::look_at;
use desk_base::{AnyRow, Bytes, NoMemory};
use serde_json::Value;
use std::alloc::{AllocError, Global};

fn row_value(alloc: Global, row: &AnyRow) -> Result<Value, AllocError>
    requires { HasHorizon row.now }
    ensures { IfOk result (λ value. view value ≡ row_data row.now) }
{
    match row {
        AnyRow::Zone(row) => zone_value(alloc, row),
        AnyRow::Calendar(row) => calendar_value(alloc, row),
        AnyRow::Work(row) => work_value(alloc, row),
        AnyRow::Break(row) => break_value(alloc, row),
        AnyRow::Day(row) => day_row_value(alloc, row),
        AnyRow::Off(row) => off_value(alloc, row),
        AnyRow::Unit(row) => named_value(alloc, row),
        AnyRow::Site(row) => named_value(alloc, row),
        AnyRow::Role(row) => named_value(alloc, row),
        AnyRow::Characteristic(row) => named_value(alloc, row),
        AnyRow::Territory(row) => named_value(alloc, row),
        AnyRow::Resource(row) => resource_value(alloc, row),
        AnyRow::HasRole(row) => has_value(alloc, row),
        AnyRow::HasCharacteristic(row) => rated_value(alloc, row),
        AnyRow::HasTerritory(row) => has_value(alloc, row),
        AnyRow::Member(row) => member_value(alloc, row),
        AnyRow::Group(row) => group_value(alloc, row),
        AnyRow::Booking(row) => booking_value(alloc, row),
        AnyRow::Caller(row) => caller_value(alloc, row),
    }
}

/// The text of a row (RFC 8259): compact, with the names of each object in the order of their bytes. A row that keeps its rules is
/// read again from it.
pub fn row_text(alloc: Global, row: &AnyRow) -> Result<Bytes, NoMemory>
    requires horizon { HasHorizon row.now }
    ensures typed { IsTyped row.now }
    ensures text { IfOk result (λ text. text ≡ row_text row.now) }
    ensures reads_back { KeepsRules row.now → row_of_text (key_of row.now) (row_text row.now) ≡ Ok row.now }
{
    look_at(row);
    let value = row_value(alloc, row)?;
    Ok(Bytes::from_vec(value.to_vec(alloc)?))
}
