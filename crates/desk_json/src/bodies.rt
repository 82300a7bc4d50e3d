//! The change that a body asks for.
ghost use Rattle.std.specs.Prelude.{◌≡◌, ◌⊎◌, Ok, Err, IfOk, IfErr};
ghost use Rattle.serde_json.specs.View.{view};
ghost use Rattle.desk_json.specs.Faults.{IsRead};
ghost use Rattle.desk_json.specs.Asked.{IsAsked};
ghost use Rattle.desk_json.specs.Bodies.{head_form, change_in, parsed, Reads};

use crate::acts::read_act;
use crate::faults::{BodyError, BodyRule};
use crate::fields::value_at;
use desk_base::{ActCode, Call, Command, Field};
use serde_json::Value;
use std::alloc::Global;

#[tactic(auto, unfolding(crate::specs::Bodies::head_form))]
fn read_head(body: &Value) -> Result<(ActCode, Call), BodyError>
    ensures { result ≡ head_form.read (view body.now) }
{
    let name = value_at(body, Field::Act)?;
    let caller = value_at(body, Field::Caller)?;
    let number = value_at(body, Field::Number)?;
    Ok((name, Call { caller, number }))
}

#[tactic(auto, unfolding(crate::specs::Bodies::change_in))]
fn read_command(alloc: Global, body: &Value) -> Result<Command, BodyError>
    ensures { IsRead (change_in (view body.now)) result }
{
    if !body.is_object() {
        return Err(BodyError::Bad(BodyRule::Object, Field::Body));
    }
    let (name, call) = read_head(body)?;
    let act = read_act(alloc, name, body)?;
    Ok(Command::Change(call, act))
}

/// The JSON of a body.
pub fn parse(alloc: Global, body: &[u8]) -> Result<Value, BodyError>
    ensures json { IfOk result (λ value. parsed body.now ≡ Ok (view value)) }
    ensures fault { IfErr result (λ why. (parsed body.now ≡ Err why) ⊎ (why ≡ BodyError.NoMemory)) }
{
    match Value::from_slice(alloc, body) {
        Ok(value) => Ok(value),
        Err(error) => {
            if error.is_memory() {
                Err(BodyError::NoMemory)
            } else {
                Err(BodyError::Bad(BodyRule::Syntax, Field::Body))
            }
        }
    }
}

/// The change that a body asks for, or the first fault of the body.
///
/// Fields are judged in the order act, caller, number, and then as they stand in the form of the act; a field that the act does
/// not have comes last. A fault inside a tree names the tree: a node's own faults come before those of its children or of its
/// leaf's fields, in preorder. A pair of another length than two is of another kind (`Sort`), and a fraction, an exponent, `-0` and
/// a whole number that 64 bits do not hold are no whole numbers. The ranges of rows are judged with the change, not here.
pub fn read_change(alloc: Global, body: &[u8]) -> Result<Command, BodyError>
    ensures change { Reads body.now result }
    ensures form { IfOk result (λ command. IsAsked command) }
{
    let value = parse(alloc, body)?;
    read_command(alloc, &value)
}
