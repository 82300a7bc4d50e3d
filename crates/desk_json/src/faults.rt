//! Why a body asks for no change.
use desk_base::{Field, NoMemory};
use std::alloc::AllocError;

/// The rule that a field of a body breaks.
#[derive(Clone, Copy, Debug, PartialEq, Eq)]
pub enum BodyRule {
    /// The body is no JSON (RFC 8259).
    Syntax,
    /// The body is no object.
    Object,
    /// The field is not there.
    Missing,
    /// The field has another kind of value. It is printed `type`.
    Sort,
    /// A whole number that its type does not hold, or a name that is none of the list.
    Range,
    /// A text that is no moment, or no date.
    Moment,
    /// The act has no such field.
    Unknown,
}

/// Why a body asks for no change.
#[derive(Clone, Copy, Debug, PartialEq, Eq)]
pub enum BodyError {
    /// The first field that breaks a rule, and the rule.
    Bad(BodyRule, Field),
    NoMemory,
}

impl From<AllocError> for BodyError {
    ghost use Rattle.std.specs.Prelude.{◌≡◌};
    ghost use Rattle.desk_json.specs.declared.faults.BodyError.TheVariants as error;

    ghost from_gives = { λ _ e. e ≡ error.NoMemory };

    fn from(_error: AllocError) -> BodyError {
        BodyError::NoMemory
    }
}

impl From<NoMemory> for BodyError {
    ghost use Rattle.std.specs.Prelude.{◌≡◌};
    ghost use Rattle.desk_json.specs.declared.faults.BodyError.TheVariants as error;

    ghost from_gives = { λ _ e. e ≡ error.NoMemory };

    fn from(_error: NoMemory) -> BodyError {
        BodyError::NoMemory
    }
}
