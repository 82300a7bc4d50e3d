//! The JSON of what an accepted change gave.
ghost use Rattle.std.specs.Prelude.{◌≡◌, ◌+◌, IfOk};
ghost use Rattle.serde_json.specs.View.{view};
ghost use Rattle.desk_json.specs.Values.{whole_number};
ghost use Rattle.desk_json.specs.Receipts.{bookings_data, done_data, booked_data, cancelled_data, receipt_data};

use desk_base::{BookingId, Receipt};
use serde_json::{Value, json, push};
use std::alloc::{AllocError, Global};

fn booking_number(first: BookingId, place: u8) -> Value
    ensures { view result ≡ whole_number (first + place) }
{
    Value::from(u64::from(first.get()) + u64::from(place))
}

fn bookings_value(alloc: Global, first: BookingId, count: u8) -> Result<Value, AllocError>
    ensures { IfOk result (λ value. view value ≡ bookings_data first count) }
{
    let mut numbers = Vec::new(alloc);
    for place in 0..count {
        push(&mut numbers, booking_number(first, place))?;
    }
    Ok(Value::Array(numbers))
}

fn done_value(alloc: Global, repeated: bool, revision: u64, done: &str) -> Result<Value, AllocError>
    ensures { IfOk result (λ value. view value ≡ done_data repeated revision done.now) }
{
    json!(in alloc; {"done": done, "repeated": repeated, "revision": revision})
}

fn booked_value(
    alloc: Global,
    repeated: bool,
    revision: u64,
    bookings: Value,
    effort_minutes: u64,
) -> Result<Value, AllocError>
    ensures { IfOk result (λ value. view value ≡ booked_data repeated revision (view bookings) effort_minutes) }
{
    json!(in alloc; {"bookings": bookings, "done": "booked", "effort_minutes": effort_minutes, "repeated": repeated, "revision": revision})
}

fn cancelled_value(
    alloc: Global,
    repeated: bool,
    revision: u64,
    count: u8,
    effort_minutes: u64,
) -> Result<Value, AllocError>
    ensures { IfOk result (λ value. view value ≡ cancelled_data repeated revision count effort_minutes) }
{
    json!(in alloc; {"count": count, "done": "cancelled", "effort_minutes": effort_minutes, "repeated": repeated, "revision": revision})
}

/// The object of a receipt over the present revision: whether it was given before, and what was done.
pub(crate) fn receipt_value(
    alloc: Global,
    repeated: bool,
    revision: u64,
    receipt: &Receipt,
) -> Result<Value, AllocError>
    ensures { IfOk result (λ value. view value ≡ receipt_data repeated revision receipt.now) }
{
    match receipt {
        Receipt::Put => done_value(alloc, repeated, revision, "put"),
        Receipt::Removed => done_value(alloc, repeated, revision, "removed"),
        Receipt::Booked {
            first,
            count,
            effort_minutes,
        } => {
            let bookings = bookings_value(alloc, *first, *count)?;
            booked_value(alloc, repeated, revision, bookings, *effort_minutes)
        }
        Receipt::Cancelled {
            count,
            effort_minutes,
        } => cancelled_value(alloc, repeated, revision, *count, *effort_minutes),
    }
}
