//! The values of parameters, read from their texts.
ghost use Rattle.std.specs.Prelude.{◌≡◌, ℕ, MatchOption};
ghost use Rattle.desk_time.specs.Moments.{IsMomentText};
ghost use Rattle.desk_route.specs.Parameters.{IsNumber, IsRevision, IsValue};
ghost use Rattle.desk_route.specs.Queries.{bad_value, OrNoMemory, ReadsValue};
ghost use Rattle.desk_route.specs.declared.parameters.Value.{Value};

use crate::parameters::{Form, Value, parameter_of};
use crate::refusals::{Fault, WebRefusal};
use desk_base::Minute;
use desk_base::limits::REVISION_LIMIT;
use desk_json::{CursorError, read_cursor, read_number};
use desk_time::read_moment;
use std::alloc::Global;

fn small_number(text: &[u8]) -> Option<u32>
    ensures { MatchOption result ((n : ℕ) → ¬ (IsNumber text.now n)) (IsNumber text.now) }
{
    let number = read_number(text)?;
    if number <= u32::MAX as u64 {
        Some(number as u32)
    } else {
        None
    }
}

fn revision(text: &[u8]) -> Option<u64>
    ensures { MatchOption result ((n : ℕ) → ¬ (IsRevision text.now n)) (IsRevision text.now) }
{
    let number = read_number(text)?;
    if number <= REVISION_LIMIT {
        Some(number)
    } else {
        None
    }
}

fn moment(text: &[u8]) -> Option<Minute>
    ensures { MatchOption result ((m : ℕ) → ¬ (IsMomentText text.now m)) (IsMomentText text.now) }
{
    match read_moment(text) {
        Some(number) => Minute::of(number),
        None => None,
    }
}

fn limit(text: &[u8]) -> Option<Value>
    ensures { MatchOption result ((v : Value) → ¬ (IsValue Form.Limit text.now v)) (IsValue Form.Limit text.now) }
{
    match small_number(text) {
        Some(number) => Some(Value::Limit(number)),
        None => None,
    }
}

fn per(text: &[u8]) -> Option<Value>
    ensures { MatchOption result ((v : Value) → ¬ (IsValue Form.Per text.now v)) (IsValue Form.Per text.now) }
{
    match small_number(text) {
        Some(number) => Some(Value::Per(number)),
        None => None,
    }
}

fn latest(text: &[u8]) -> Option<Value>
    ensures { MatchOption result ((v : Value) → ¬ (IsValue Form.Latest text.now v)) (IsValue Form.Latest text.now) }
{
    if text == b"latest".as_slice() {
        Some(Value::Latest)
    } else {
        None
    }
}

fn from(text: &[u8]) -> Option<Value>
    ensures { MatchOption result ((v : Value) → ¬ (IsValue Form.From text.now v)) (IsValue Form.From text.now) }
{
    match moment(text) {
        Some(minute) => Some(Value::From(minute)),
        None => None,
    }
}

fn to(text: &[u8]) -> Option<Value>
    ensures { MatchOption result ((v : Value) → ¬ (IsValue Form.To text.now v)) (IsValue Form.To text.now) }
{
    match moment(text) {
        Some(minute) => Some(Value::To(minute)),
        None => None,
    }
}

fn above(text: &[u8]) -> Option<Value>
    ensures { MatchOption result ((v : Value) → ¬ (IsValue Form.Above text.now v)) (IsValue Form.Above text.now) }
{
    match revision(text) {
        Some(number) => Some(Value::Above(number)),
        None => None,
    }
}

/// The refusal of a value that is not of its form.
fn bad_value(form: Form) -> WebRefusal
    ensures { result ≡ bad_value form }
{
    match form {
        Form::After => WebRefusal::BadCursor,
        _ => WebRefusal::BadParameter(parameter_of(form)),
    }
}

fn after(alloc: Global, text: &[u8]) -> Result<Value, Fault>
    ensures { OrNoMemory (ReadsValue Form.After text.now) result }
{
    match read_cursor(alloc, text) {
        Ok(cursor) => Ok(Value::After(cursor)),
        Err(CursorError::BadCursor) => Err(Fault::Refused(WebRefusal::BadCursor)),
        Err(CursorError::NoMemory) => Err(Fault::NoMemory),
    }
}

/// A value of a form, or its refusal.
fn or_bad(form: Form, text: &[u8], value: Option<Value>) -> Result<Value, Fault>
    requires { MatchOption value ((v : Value) → ¬ (IsValue form text.now v)) (IsValue form text.now) }
    ensures { OrNoMemory (ReadsValue form text.now) result }
{
    match value {
        Some(value) => Ok(value),
        None => Err(Fault::Refused(bad_value(form))),
    }
}

/// The value that a text gives to a parameter.
pub(crate) fn read_value(alloc: Global, form: Form, text: &[u8]) -> Result<Value, Fault>
    ensures { OrNoMemory (ReadsValue form text.now) result }
{
    match form {
        Form::Limit => or_bad(form, text, limit(text)),
        Form::After => after(alloc, text),
        Form::Latest => or_bad(form, text, latest(text)),
        Form::From => or_bad(form, text, from(text)),
        Form::To => or_bad(form, text, to(text)),
        Form::Per => or_bad(form, text, per(text)),
        Form::Above => or_bad(form, text, above(text)),
    }
}
