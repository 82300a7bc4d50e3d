//! Moments as JSON.
ghost use Rattle.std.specs.Prelude.{◌≡◌, IfOk, OnOk, string_bytes, IsAscii};
ghost use Rattle.serde_json.specs.View.{view};
ghost use Rattle.desk_time.specs.Limits.{IsMoment};
ghost use Rattle.desk_json.specs.Values.{moment_data};

use desk_base::Minute;
use desk_time::moment_text;
use serde_json::Value;
use std::alloc::{AllocError, Global};

/// A text of ASCII bytes.
pub fn ascii_text(alloc: Global, bytes: &[u8]) -> Result<String, AllocError>
    requires { IsAscii bytes.now }
    ensures { IfOk result (λ text. string_bytes text ≡ bytes.now) }
{
    String::from_str(alloc, std::str::from_utf8(bytes).unwrap())
}

/// The text of a moment, as a JSON string.
pub fn moment_value(alloc: Global, minute: Minute) -> Result<Value, AllocError>
    ensures value { IfOk result (λ value. view value ≡ moment_data minute) }
    ensures moment { OnOk result (IsMoment minute) }
{
    let bytes = moment_text(minute.get());
    Ok(Value::String(ascii_text(alloc, &bytes)?))
}
