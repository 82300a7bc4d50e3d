//! The weight of a resource, as a value per minute of the horizon.
ghost use Rattle.std.specs.Prelude.{◌≡◌, ℕ, ◌≤◌, map, sum_by, pos, IfOk};
ghost use Rattle.desk_base.specs.rules.Limits.{first_minute, end_of_minutes};
ghost use Rattle.desk_spans.specs.Minutes.{EachMinute};
ghost use Rattle.desk_spans.specs.Timeline.{end_of, value_at, value_limit};
ghost use Rattle.desk_base.specs.rows.Ranges.{Rise};
ghost use Rattle.desk_load.specs.Parts.{piece_of, part_at};

use crate::parts::Part;
use desk_base::limits::{END_OF_MINUTES, FIRST_MINUTE};
use desk_base::{NoMemory, Placed, ResourceId, rows_of};
use desk_spans::{Piece, Profile};
use std::alloc::Global;

/// What the standing bookings weigh on a resource, at each minute of the horizon.
#[derive(Drop)]
pub struct Weight {
    pub resource: ResourceId,
    pub weight: Profile,
}

impl Placed for Weight {
    ghost owner = { λ x. x.resource };

    ghost rank = { λ x. 0 };

    fn owner_number(&self) -> u32 {
        self.resource.get()
    }

    fn rank_number(&self) -> u32 {
        0
    }
}

/// Parts as values over minutes.
fn pieces_of(alloc: Global, parts: &[Part]) -> Result<Vec<Piece>, NoMemory>
    ensures { IfOk result (λ v. v.items ≡ map piece_of parts.now) }
{
    let mut pieces = Vec::with_capacity(alloc, parts.len())?;
    for part in parts {
        let piece = Piece {
            from: part.from.get(),
            to: part.to.get(),
            value: i64::from(part.effort),
        };
        let Ok(()) = pieces.push(piece) else {
            return Err(NoMemory);
        };
    }
    Ok(pieces)
}

/// What the parts take of a resource, over the horizon.
pub fn weight_of(alloc: Global, parts: &[Part], resource: ResourceId) -> Result<Profile, NoMemory>
    requires rise { Rise (λ p. p.resource) (λ _. 0) parts.now }
    requires few { (m : ℕ) → sum_by (part_at resource m) parts.now ≤ value_limit }
    ensures begin { IfOk result (λ p. p.from ≡ first_minute) }
    ensures end { IfOk result (λ p. end_of p ≡ end_of_minutes) }
    ensures values { IfOk result (λ p. EachMinute first_minute end_of_minutes (λ m. value_at p m ≡ pos (sum_by (part_at resource m) parts.now))) }
{
    let pieces = pieces_of(alloc, rows_of(parts, resource.get()))?;
    match Profile::build(alloc, FIRST_MINUTE, END_OF_MINUTES, pieces.as_slice()) {
        Ok(profile) => Ok(profile),
        Err(_) => Err(NoMemory),
    }
}
