//! The values that kept bodies are made of.
ghost use Rattle.std.specs.Prelude.{◌≡◌, IfOk, All};
ghost use Rattle.serde_json.specs.View.{view};
ghost use Rattle.desk_time.specs.Limits.{IsDay};
ghost use Rattle.desk_json.specs.Values.{number_or_null};
ghost use Rattle.desk_kept.specs.Values.{day_data, pair_data, IsShift, shift_data, shifts_data};

use desk_base::{Id, Minute};
use desk_json::{ascii_text, moment_value};
use desk_time::date_text;
use serde_json::{Value, json, push};
use std::alloc::{AllocError, Global};

/// The date of a day, as a JSON string.
pub(crate) fn day_value(alloc: Global, day: u32) -> Result<Value, AllocError>
    requires { IsDay day }
    ensures { IfOk result (λ value. view value ≡ day_data day) }
{
    let bytes = date_text(day);
    Ok(Value::String(ascii_text(alloc, &bytes)?))
}

/// An id, or null where there is none.
pub(crate) fn id_or_null<K>(id: Option<Id<K>>) -> Value
    ensures { view result ≡ number_or_null id }
{
    match id {
        Some(id) => Value::from(id.get()),
        None => Value::Null,
    }
}

/// Two values.
pub(crate) fn pair_value(alloc: Global, first: Value, second: Value) -> Result<Value, AllocError>
    ensures { IfOk result (λ value. view value ≡ pair_data (view first) (view second)) }
{
    json!(in alloc; [first, second])
}

fn shift_value(alloc: Global, from: u32, ahead: i32) -> Result<Value, AllocError>
    requires { IsShift (from, ahead) }
    ensures { IfOk result (λ value. view value ≡ shift_data (from, ahead)) }
{
    let from = moment_value(alloc, Minute::of(from).unwrap())?;
    pair_value(alloc, from, Value::from(ahead))
}

/// Shifts, in order.
pub(crate) fn shifts_value(alloc: Global, shifts: &[(u32, i32)]) -> Result<Value, AllocError>
    requires { All IsShift shifts.now }
    ensures { IfOk result (λ value. view value ≡ shifts_data shifts.now) }
{
    let mut values = Vec::new(alloc);
    for (from, ahead) in shifts {
        push(&mut values, shift_value(alloc, *from, *ahead)?)?;
    }
    Ok(Value::Array(values))
}
