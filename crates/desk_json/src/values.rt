//! Values that answers are made of.
ghost use Rattle.std.specs.Prelude.{◌≡◌, IfOk};
ghost use Rattle.serde_json.specs.View.{view};
ghost use Rattle.desk_json.specs.Values.{key_data};

use desk_base::Key;
use serde_json::{Value, json};
use std::alloc::{AllocError, Global};

/// The three numbers of a key.
pub(crate) fn key_value(alloc: Global, key: &Key) -> Result<Value, AllocError>
    ensures { IfOk result (λ value. view value ≡ key_data key.now) }
{
    json!(in alloc; [key.a, key.b, key.c])
}
