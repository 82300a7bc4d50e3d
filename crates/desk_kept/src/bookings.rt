//! Bookings: their bodies, and what these are read as.
ghost use Rattle.std.specs.Prelude.{◌≡◌, IfOk};
ghost use Rattle.serde_json.specs.View.{view};
ghost use Rattle.desk_base.specs.rules.Limits.{id_limit, serial_limit};
ghost use Rattle.desk_json.specs.Reading.{from_one};
ghost use Rattle.desk_kept.specs.Bookings.{booking_data, booked_for_form, taken_form, booking_form};

use desk_base::{BookingId, BookingRow, Field, GroupId, Id, Minute, ResourceId, Serial};
use desk_json::{BodyError, BodyRule, moment_value, value_at, value_under};
use serde_json::{Value, json};
use std::alloc::{AllocError, Global};

/// The body of a booking.
pub(crate) fn booking_value(alloc: Global, row: &BookingRow) -> Result<Value, AllocError>
    ensures { IfOk result (λ value. view value ≡ booking_data row.now) }
{
    let row = *row;
    let group = row.group.get();
    let resource = row.resource.get();
    let from = moment_value(alloc, row.from)?;
    let to = moment_value(alloc, row.to)?;
    json!(in alloc; {"effort": row.effort, "from": from, "group": group, "leaf": row.leaf, "resource": resource, "to": to})
}

/// The id that a key has.
pub(crate) fn id_of_key<K>(number: u32) -> Result<Id<K>, BodyError>
    ensures { result ≡ from_one id_limit Field.Body number }
{
    match Id::of(number) {
        Some(id) => Ok(id),
        None => Err(BodyError::Bad(BodyRule::Range, Field::Body)),
    }
}

/// The serial that a key has.
pub(crate) fn serial_of_key<K>(number: u32) -> Result<Serial<K>, BodyError>
    ensures { result ≡ from_one serial_limit Field.Body number }
{
    match Serial::of(number) {
        Some(serial) => Ok(serial),
        None => Err(BodyError::Bad(BodyRule::Range, Field::Body)),
    }
}

#[tactic(auto, unfolding(crate::specs::Bookings::booked_for_form))]
fn read_booked_for(body: &Value) -> Result<(GroupId, u8, ResourceId), BodyError>
    ensures { result ≡ booked_for_form.read (view body.now) }
{
    let group = value_at(body, Field::Group)?;
    let leaf = value_under(body, "leaf", Field::Body)?;
    let resource = value_at(body, Field::Resource)?;
    Ok((group, leaf, resource))
}

#[tactic(auto, unfolding(crate::specs::Bookings::taken_form))]
fn read_taken(body: &Value) -> Result<(Minute, Minute, u32), BodyError>
    ensures { result ≡ taken_form.read (view body.now) }
{
    let from = value_at(body, Field::From)?;
    let to = value_at(body, Field::To)?;
    let effort = value_at(body, Field::Effort)?;
    Ok((from, to, effort))
}

/// The booking of a number, from its body.
#[tactic(auto, unfolding(crate::specs::Bookings::booking_form))]
pub(crate) fn read_booking(number: u32, body: &Value) -> Result<BookingRow, BodyError>
    ensures { result ≡ (booking_form number).read (view body.now) }
{
    let id: BookingId = serial_of_key(number)?;
    let (group, leaf, resource) = read_booked_for(body)?;
    let (from, to, effort) = read_taken(body)?;
    Ok(BookingRow {
        id,
        group,
        leaf,
        resource,
        from,
        to,
        effort,
    })
}
