//! Builds the index of some tables.
ghost use Rattle.std.specs.Prelude.{◌≡◌, ℕ, ◌≤◌, map, sum_by, IfOk};
ghost use Rattle.desk_base.specs.meaning.Load.{weight, ask_of};
ghost use Rattle.desk_base.specs.rules.Sound.{AreWellFormed};
ghost use Rattle.desk_spans.specs.Timeline.{value_limit};
ghost use Rattle.desk_base.specs.rows.Ranges.{Rise};
ghost use Rattle.desk_load.specs.Index.{IsIndexOf, AreWeightsOf, resource_numbers, group_numbers};
ghost use Rattle.desk_load.specs.Parts.{part_at};

use crate::index::LoadIndex;
use crate::lists::{by_group, by_resource, lists_of};
use crate::parts::{Part, parts_of};
use crate::weights::{Weight, weight_of};
use desk_base::{NoMemory, Tables};
use desk_member::ByMember;
use std::alloc::Global;

fn resource_numbers(alloc: Global, tables: &Tables) -> Result<Vec<u32>, NoMemory>
    ensures { IfOk result (λ v. v.items ≡ resource_numbers tables.now) }
{
    Ok(
        tables
            .resources
            .as_slice()
            .iter()
            .map(|x| x.id.get())
            .collect(alloc)?,
    )
}

fn group_numbers(alloc: Global, tables: &Tables) -> Result<Vec<u32>, NoMemory>
    ensures { IfOk result (λ v. v.items ≡ group_numbers tables.now) }
{
    let mut numbers = Vec::with_capacity(alloc, tables.groups.len())?;
    for group in tables.groups.as_slice() {
        let Ok(()) = numbers.push(group.id.get()) else {
            return Err(NoMemory);
        };
    }
    Ok(numbers)
}

/// The weight of each resource, from what the standing bookings take.
fn weights_of(alloc: Global, tables: &Tables, parts: &[Part]) -> Result<Vec<Weight>, NoMemory>
    requires rise { Rise (λ p. p.resource) (λ _. 0) parts.now }
    requires sums { (r m : ℕ) → sum_by (part_at r m) parts.now ≡ weight tables.now (map ask_of tables.now.bookings) r m }
    requires few { (r m : ℕ) → weight tables.now (map ask_of tables.now.bookings) r m ≤ value_limit }
    ensures { IfOk result (λ v. AreWeightsOf tables.now v.items) }
{
    let mut weights = Vec::with_capacity(alloc, tables.resources.len())?;
    for row in tables.resources.as_slice() {
        let weight = Weight {
            resource: row.id,
            weight: weight_of(alloc, parts, row.id)?,
        };
        let Ok(()) = weights.push(weight) else {
            return Err(NoMemory);
        };
    }
    Ok(weights)
}

impl LoadIndex {
    /// The index of the tables. It goes over their bookings once.
    pub fn build(alloc: Global, tables: &Tables) -> Result<LoadIndex, NoMemory>
        requires { AreWellFormed tables.now }
        ensures { IfOk result (IsIndexOf tables.now) }
    {
        let members = ByMember::of(alloc, tables)?;
        let bookings = tables.bookings.as_slice();
        let parts = parts_of(alloc, tables, &members, bookings)?;
        let weights = weights_of(alloc, tables, parts.as_slice())?;
        let resources = resource_numbers(alloc, tables)?;
        let standing = lists_of(alloc, resources.as_slice(), by_resource(alloc, bookings)?)?;
        let groups = group_numbers(alloc, tables)?;
        let booked = lists_of(alloc, groups.as_slice(), by_group(alloc, bookings)?)?;
        Ok(LoadIndex {
            weights,
            standing,
            booked,
            members,
        })
    }
}
