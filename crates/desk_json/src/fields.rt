//! Fields of an object.
ghost use Rattle.std.specs.Prelude.{◌≡◌, map};
ghost use Rattle.serde_json.specs.View.{view, members_view};
ghost use Rattle.desk_json.specs.Faults.{IsRead};
ghost use Rattle.desk_json.specs.Reading.{text_in, day_in};
ghost use Rattle.desk_json.specs.Forms.{under, under_or, at, is_among, members_among, has_only, all_names};

use crate::faults::{BodyError, BodyRule};
use crate::reading::{Read, read_day, read_name};
use crate::words::field_name;
use desk_base::{Field, Name};
use serde_json::{Map, Value};
use std::alloc::Global;

/// The fault of a field that is not there.
pub(crate) fn missing(field: Field) -> BodyError
    ensures { result ≡ BodyError.Bad BodyRule.Missing field }
{
    BodyError::Bad(BodyRule::Missing, field)
}

/// What stands under a name, where a fault of it names a field.
#[tactic(auto, unfolding(crate::specs::Forms::under))]
pub fn value_under<T: Read>(object: &Value, name: &str, field: Field) -> Result<T, BodyError>
    ensures { result ≡ under name.now field T.meant (view object.now) }
{
    match object.get(name) {
        Some(value) => T::read(value, field),
        None => Err(missing(field)),
    }
}

/// The value of a field.
pub fn value_at<T: Read>(object: &Value, field: Field) -> Result<T, BodyError>
    ensures { result ≡ at field T.meant (view object.now) }
{
    value_under(object, field_name(field), field)
}

/// A whole number of 32 bits under a name, or 0 where nothing stands under it.
#[tactic(auto, unfolding(crate::specs::Forms::under_or))]
pub(crate) fn u32_or_0_under(object: &Value, name: &str, field: Field) -> Result<u32, BodyError>
    ensures { result ≡ under_or 0 name.now field ⟦<u32 as Read>⟧.meant (view object.now) }
{
    match object.get(name) {
        Some(value) => u32::read(value, field),
        None => Ok(0),
    }
}

/// A name in a field.
#[tactic(auto, unfolding(crate::specs::Forms::under))]
pub(crate) fn name_at(alloc: Global, object: &Value, field: Field) -> Result<Name, BodyError>
    ensures { IsRead (at field text_in (view object.now)) result }
{
    match object.get(field_name(field)) {
        Some(value) => read_name(alloc, value, field),
        None => Err(missing(field)),
    }
}

/// A day in a field, by its date.
#[tactic(auto, unfolding(crate::specs::Forms::under))]
pub(crate) fn day_at(object: &Value, field: Field) -> Result<u32, BodyError>
    ensures { result ≡ at field day_in (view object.now) }
{
    match object.get(field_name(field)) {
        Some(value) => read_day(value, field),
        None => Err(missing(field)),
    }
}

/// The names of a form: those that each body has, those of a key, and the others.
#[derive(Clone, Copy)]
pub struct Names {
    pub head: &'static [&'static str],
    pub key: &'static [&'static str],
    pub others: &'static [&'static str],
}

fn is_among(name: &str, names: &[&str]) -> bool
    ensures { result ≡ is_among (map (λ known. known.now) names.now) name.now }
{
    for known in names {
        if *known == name {
            return true;
        }
    }
    false
}

fn is_known(name: &str, names: &Names) -> bool
    ensures { result ≡ is_among (all_names names.now) name.now }
{
    is_among(name, names.head) || is_among(name, names.key) || is_among(name, names.others)
}

fn members_among(members: &Map<String, Value>, names: &Names) -> bool
    ensures { result ≡ members_among (all_names names.now) (members_view members.now.entries) }
{
    for (name, _) in members.iter() {
        if !is_known(name.as_str(), names) {
            return false;
        }
    }
    true
}

/// Whether an object has no other names than these.
pub fn has_only(value: &Value, names: &Names) -> bool
    ensures { result ≡ has_only (all_names names.now) (view value.now) }
{
    match value.as_object() {
        Some(members) => members_among(members, names),
        None => true,
    }
}
