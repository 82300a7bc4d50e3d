//! Values of a body, each of one kind.
ghost use Rattle.std.specs.Prelude.{◌≡◌, ◌≤◌, IfOk};
ghost use Rattle.serde_json.specs.View.{view};
ghost use Rattle.desk_json.specs.Faults.{IsRead};
ghost use Rattle.desk_json.specs.MomentReading.{moment_of, day_of};
ghost use Rattle.desk_json.specs.Reading.{whole_in, text_in, day_in, kind_named};

use crate::faults::{BodyError, BodyRule};
use desk_base::{Field, Id, Kind, Minute, Name, Serial};
use desk_time::laws::{days_have_one_text, minutes_have_one_text};
use desk_time::{read_date, read_moment};
use serde_json::Value;
use std::alloc::Global;

/// A value of a body that is read without taking memory.
pub trait Read: Sized {
    ghost use Rattle.std.specs.Prelude.{Result};
    ghost use Rattle.serde_json.specs.Data.{Data};
    ghost use Rattle.desk_base.specs.declared.asked.rules.Field.{Field};
    ghost use Rattle.desk_json.specs.declared.faults.BodyError.{BodyError};

    // what data are read as, where their faults name a field
    ghost meant: { Field → Data → Result Self BodyError };

    /// The value, or the fault of the field.
    fn read(value: &Value, field: Field) -> Result<Self, BodyError>
        ensures { result ≡ meant field (view value.now) };
}

/// A whole number up to the greatest of its type.
#[tactic(auto, unfolding(crate::specs::Reading::whole_in))]
fn read_whole(value: &Value, field: Field, greatest: u64) -> Result<u64, BodyError>
    ensures value { result ≡ whole_in greatest field (view value.now) }
    ensures bound { IfOk result (λ n. n ≤ greatest) }
{
    if let Some(number) = value.as_u64() {
        if number <= greatest {
            Ok(number)
        } else {
            Err(BodyError::Bad(BodyRule::Range, field))
        }
    } else if value.is_i64() {
        Err(BodyError::Bad(BodyRule::Range, field))
    } else {
        Err(BodyError::Bad(BodyRule::Sort, field))
    }
}

impl Read for u8 {
    ghost use Rattle.desk_json.specs.Reading.{greatest_u8, whole_in};

    ghost meant = { whole_in greatest_u8 };

    fn read(value: &Value, field: Field) -> Result<u8, BodyError> {
        let number = read_whole(value, field, u8::MAX as u64)?;
        Ok(number as u8)
    }
}

impl Read for u16 {
    ghost use Rattle.desk_json.specs.Reading.{greatest_u16, whole_in};

    ghost meant = { whole_in greatest_u16 };

    fn read(value: &Value, field: Field) -> Result<u16, BodyError> {
        let number = read_whole(value, field, u16::MAX as u64)?;
        Ok(number as u16)
    }
}

impl Read for u32 {
    ghost use Rattle.desk_json.specs.Reading.{u32_in};

    ghost meant = { u32_in };

    fn read(value: &Value, field: Field) -> Result<u32, BodyError> {
        let number = read_whole(value, field, u32::MAX as u64)?;
        Ok(number as u32)
    }
}

impl Read for u64 {
    ghost use Rattle.desk_json.specs.Reading.{greatest_u64, whole_in};

    ghost meant = { whole_in greatest_u64 };

    fn read(value: &Value, field: Field) -> Result<u64, BodyError> {
        read_whole(value, field, u64::MAX)
    }
}

impl Read for i32 {
    ghost use Rattle.desk_json.specs.Reading.{i32_in};

    ghost meant = { i32_in };

    #[tactic(auto, unfolding(crate::specs::Reading::i32_in))]
    fn read(value: &Value, field: Field) -> Result<i32, BodyError> {
        match value.as_i64() {
            Some(number) => {
                if i64::from(i32::MIN) <= number && number <= i64::from(i32::MAX) {
                    Ok(number as i32)
                } else {
                    Err(BodyError::Bad(BodyRule::Range, field))
                }
            }
            None => {
                if value.is_u64() {
                    Err(BodyError::Bad(BodyRule::Range, field))
                } else {
                    Err(BodyError::Bad(BodyRule::Sort, field))
                }
            }
        }
    }
}

impl<K> Read for Id<K> {
    ghost use Rattle.desk_json.specs.Reading.{id_in};

    ghost meant = { id_in };

    #[tactic(auto, unfolding(crate::specs::Reading::id_in))]
    fn read(value: &Value, field: Field) -> Result<Id<K>, BodyError> {
        let number = u32::read(value, field)?;
        match Id::of(number) {
            Some(id) => Ok(id),
            None => Err(BodyError::Bad(BodyRule::Range, field)),
        }
    }
}

impl<K> Read for Serial<K> {
    ghost use Rattle.desk_json.specs.Reading.{serial_in};

    ghost meant = { serial_in };

    #[tactic(auto, unfolding(crate::specs::Reading::serial_in))]
    fn read(value: &Value, field: Field) -> Result<Serial<K>, BodyError> {
        let number = u32::read(value, field)?;
        match Serial::of(number) {
            Some(serial) => Ok(serial),
            None => Err(BodyError::Bad(BodyRule::Range, field)),
        }
    }
}

impl<K> Read for Option<Id<K>> {
    ghost use Rattle.desk_json.specs.Reading.{id_or_null_in};

    ghost meant = { id_or_null_in };

    #[tactic(auto, unfolding(crate::specs::Reading::id_or_null_in))]
    fn read(value: &Value, field: Field) -> Result<Option<Id<K>>, BodyError> {
        if value.is_null() {
            return Ok(None);
        }
        let id = Id::read(value, field)?;
        Ok(Some(id))
    }
}

/// A name, which is a text as it stands.
#[tactic(auto, unfolding(crate::specs::Reading::text_in))]
pub(crate) fn read_name(alloc: Global, value: &Value, field: Field) -> Result<Name, BodyError>
    ensures { IsRead (text_in field (view value.now)) result }
{
    match value.as_str() {
        Some(text) => Ok(Name::of(alloc, text)?),
        None => Err(BodyError::Bad(BodyRule::Sort, field)),
    }
}

fn moment_named(text: &str) -> Option<Minute>
    ensures { result ≡ moment_of text.now }
{
    minutes_have_one_text();
    let minute = read_moment(text.as_bytes())?;
    Minute::of(minute)
}

impl Read for Minute {
    ghost use Rattle.desk_json.specs.Reading.{moment_in};

    ghost meant = { moment_in };

    #[tactic(auto, unfolding(crate::specs::Reading::moment_in, crate::specs::Reading::text_in))]
    fn read(value: &Value, field: Field) -> Result<Minute, BodyError> {
        let Some(text) = value.as_str() else {
            return Err(BodyError::Bad(BodyRule::Sort, field));
        };
        match moment_named(text) {
            Some(minute) => Ok(minute),
            None => Err(BodyError::Bad(BodyRule::Moment, field)),
        }
    }
}

fn day_named(text: &str) -> Option<u32>
    ensures { result ≡ day_of text.now }
{
    days_have_one_text();
    read_date(text.as_bytes())
}

/// A day, by its date.
#[tactic(auto, unfolding(crate::specs::Reading::day_in, crate::specs::Reading::text_in))]
pub(crate) fn read_day(value: &Value, field: Field) -> Result<u32, BodyError>
    ensures { result ≡ day_in field (view value.now) }
{
    let Some(text) = value.as_str() else {
        return Err(BodyError::Bad(BodyRule::Sort, field));
    };
    match day_named(text) {
        Some(day) => Ok(day),
        None => Err(BodyError::Bad(BodyRule::Moment, field)),
    }
}

#[tactic(auto, unfolding(crate::specs::Reading::kind_named))]
fn kind_named(text: &str) -> Option<Kind>
    ensures { result ≡ kind_named text.now }
{
    if text == "generic" {
        Some(Kind::Generic)
    } else if text == "contact" {
        Some(Kind::Contact)
    } else if text == "user" {
        Some(Kind::User)
    } else if text == "equipment" {
        Some(Kind::Equipment)
    } else if text == "account" {
        Some(Kind::Account)
    } else if text == "facility" {
        Some(Kind::Facility)
    } else if text == "crew" {
        Some(Kind::Crew)
    } else if text == "pool" {
        Some(Kind::Pool)
    } else {
        None
    }
}

impl Read for Kind {
    ghost use Rattle.desk_json.specs.Reading.{kind_in};

    ghost meant = { kind_in };

    #[tactic(auto, unfolding(crate::specs::Reading::kind_in, crate::specs::Reading::text_in))]
    fn read(value: &Value, field: Field) -> Result<Kind, BodyError> {
        let Some(text) = value.as_str() else {
            return Err(BodyError::Bad(BodyRule::Sort, field));
        };
        match kind_named(text) {
            Some(kind) => Ok(kind),
            None => Err(BodyError::Bad(BodyRule::Range, field)),
        }
    }
}
