//! Callers, each with the receipt of its last change: their bodies, and what these are read as.
ghost use Rattle.std.specs.Prelude.{◌≡◌, IfOk, codes};
ghost use Rattle.serde_json.specs.View.{view};
ghost use Rattle.desk_json.specs.Forms.{under, all_names};
ghost use Rattle.desk_kept.specs.Callers.{done_data, booked_data, cancelled_data, receipt_data, minutes_form, amount_form, made_form, removed_form, deed_named, receipt_form, receipt_names, receipt_in, caller_data, caller_form};

use crate::bookings::id_of_key;
use desk_base::{CallerId, CallerRow, Field, Receipt};
use desk_json::{BodyError, BodyRule, Names, Read, has_only, value_under};
use serde_json::{Value, json};
use std::alloc::{AllocError, Global};

// ---- what is written

fn done_value(alloc: Global, done: &str) -> Result<Value, AllocError>
    ensures { IfOk result (λ value. view value ≡ done_data done.now) }
{
    json!(in alloc; {"done": done})
}

fn booked_value(
    alloc: Global,
    first: u32,
    count: u8,
    effort_minutes: u64,
) -> Result<Value, AllocError>
    ensures { IfOk result (λ value. view value ≡ booked_data first count effort_minutes) }
{
    json!(in alloc; {"count": count, "done": "booked", "effort_minutes": effort_minutes, "first": first})
}

fn cancelled_value(alloc: Global, count: u8, effort_minutes: u64) -> Result<Value, AllocError>
    ensures { IfOk result (λ value. view value ≡ cancelled_data count effort_minutes) }
{
    json!(in alloc; {"count": count, "done": "cancelled", "effort_minutes": effort_minutes})
}

fn receipt_value(alloc: Global, receipt: Receipt) -> Result<Value, AllocError>
    ensures { IfOk result (λ value. view value ≡ receipt_data receipt) }
{
    match receipt {
        Receipt::Put => done_value(alloc, "put"),
        Receipt::Removed => done_value(alloc, "removed"),
        Receipt::Booked {
            first,
            count,
            effort_minutes,
        } => booked_value(alloc, first.get(), count, effort_minutes),
        Receipt::Cancelled {
            count,
            effort_minutes,
        } => cancelled_value(alloc, count, effort_minutes),
    }
}

/// The body of a caller.
pub(crate) fn caller_value(alloc: Global, row: &CallerRow) -> Result<Value, AllocError>
    ensures { IfOk result (λ value. view value ≡ caller_data row.now) }
{
    let last = row.last.get();
    let receipt = receipt_value(alloc, row.receipt)?;
    json!(in alloc; {"last": last, "receipt": receipt})
}

// ---- what is read

#[tactic(auto, unfolding(crate::specs::Callers::minutes_form))]
fn read_minutes(receipt: &Value, field: Field) -> Result<u64, BodyError>
    ensures { result ≡ (minutes_form field).read (view receipt.now) }
{
    value_under(receipt, "effort_minutes", field)
}

#[tactic(auto, unfolding(crate::specs::Callers::amount_form))]
fn read_amount(receipt: &Value, field: Field) -> Result<(u8, u64), BodyError>
    ensures { result ≡ (amount_form field).read (view receipt.now) }
{
    let count = value_under(receipt, "count", field)?;
    let effort_minutes = read_minutes(receipt, field)?;
    Ok((count, effort_minutes))
}

#[tactic(auto, unfolding(crate::specs::Callers::made_form))]
fn read_made(receipt: &Value, field: Field) -> Result<Receipt, BodyError>
    ensures { result ≡ (made_form field).read (view receipt.now) }
{
    let first = value_under(receipt, "first", field)?;
    let (count, effort_minutes) = read_amount(receipt, field)?;
    Ok(Receipt::Booked {
        first,
        count,
        effort_minutes,
    })
}

#[tactic(auto, unfolding(crate::specs::Callers::removed_form))]
fn read_removed(receipt: &Value, field: Field) -> Result<Receipt, BodyError>
    ensures { result ≡ (removed_form field).read (view receipt.now) }
{
    let (count, effort_minutes) = read_amount(receipt, field)?;
    Ok(Receipt::Cancelled {
        count,
        effort_minutes,
    })
}

/// What was done with rows or bookings.
#[derive(Clone, Copy, Debug, PartialEq, Eq)]
pub enum Deed {
    Put,
    Removed,
    Booked,
    Cancelled,
}

#[tactic(auto, unfolding(crate::specs::Callers::deed_named))]
fn deed_named(text: &str) -> Option<Deed>
    ensures { result ≡ deed_named text.now }
{
    if text == "put" {
        Some(Deed::Put)
    } else if text == "removed" {
        Some(Deed::Removed)
    } else if text == "booked" {
        Some(Deed::Booked)
    } else if text == "cancelled" {
        Some(Deed::Cancelled)
    } else {
        None
    }
}

impl Read for Deed {
    ghost use Rattle.desk_kept.specs.Callers.{deed_in};

    ghost meant = { deed_in };

    #[tactic(auto, unfolding(crate::specs::Callers::deed_in, desk_json::specs::Reading::text_in))]
    fn read(value: &Value, field: Field) -> Result<Deed, BodyError> {
        let Some(text) = value.as_str() else {
            return Err(BodyError::Bad(BodyRule::Sort, field));
        };
        match deed_named(text) {
            Some(deed) => Ok(deed),
            None => Err(BodyError::Bad(BodyRule::Range, field)),
        }
    }
}

fn read_deed(deed: Deed, receipt: &Value, field: Field) -> Result<Receipt, BodyError>
    ensures { result ≡ (receipt_form deed field).read (view receipt.now) }
{
    match deed {
        Deed::Put => Ok(Receipt::Put),
        Deed::Removed => Ok(Receipt::Removed),
        Deed::Booked => read_made(receipt, field),
        Deed::Cancelled => read_removed(receipt, field),
    }
}

#[tactic(auto, unfolding(crate::specs::Callers::made_form, crate::specs::Callers::removed_form, crate::specs::Callers::amount_form, crate::specs::Callers::minutes_form))]
fn names_of(deed: Deed, field: Field) -> Names
    ensures { all_names result ≡ receipt_names deed field }
{
    let others: &'static [&'static str] = match deed {
        Deed::Put => &[],
        Deed::Removed => &[],
        Deed::Booked => &["first", "count", "effort_minutes"],
        Deed::Cancelled => &["count", "effort_minutes"],
    };
    Names {
        head: &["done"],
        key: &[],
        others,
    }
}

#[tactic(auto, unfolding(crate::specs::Callers::receipt_in))]
fn read_receipt(receipt: &Value, field: Field) -> Result<Receipt, BodyError>
    ensures { result ≡ receipt_in field (view receipt.now) }
{
    if !receipt.is_object() {
        return Err(BodyError::Bad(BodyRule::Sort, field));
    }
    let deed = value_under(receipt, "done", field)?;
    let read = read_deed(deed, receipt, field)?;
    if has_only(receipt, &names_of(deed, field)) {
        Ok(read)
    } else {
        Err(BodyError::Bad(BodyRule::Unknown, field))
    }
}

#[tactic(auto, unfolding(desk_json::specs::Forms::under))]
fn receipt_at(body: &Value) -> Result<Receipt, BodyError>
    ensures { result ≡ under (codes "receipt") Field.Body receipt_in (view body.now) }
{
    match body.get("receipt") {
        Some(receipt) => read_receipt(receipt, Field::Body),
        None => Err(BodyError::Bad(BodyRule::Missing, Field::Body)),
    }
}

/// The caller of a number, from its body.
#[tactic(auto, unfolding(crate::specs::Callers::caller_form))]
pub(crate) fn read_caller(number: u32, body: &Value) -> Result<CallerRow, BodyError>
    ensures { result ≡ (caller_form number).read (view body.now) }
{
    let caller: CallerId = id_of_key(number)?;
    let last = value_under(body, "last", Field::Number)?;
    let receipt = receipt_at(body)?;
    Ok(CallerRow {
        caller,
        last,
        receipt,
    })
}
