//! Why picks cannot be booked from a start on: the first point that they break, for whoever books them.
ghost use Rattle.std.specs.Prelude.{◌≡◌, ◌++◌, ◌≤◌, nat_le, length, true, None, Contains, IfOk, MatchOption};
ghost use Rattle.std.specs.List.{list_all};
ghost use Rattle.desk_base.specs.rules.Sound.{AreWellFormed};
ghost use Rattle.desk_base.specs.rules.Limits.{end_of_minutes};
ghost use Rattle.desk_base.specs.meaning.Picks.{choices_of, first_broken_same};
ghost use Rattle.desk_base.specs.meaning.Time.{leaf_time};
ghost use Rattle.desk_base.specs.meaning.Load.{Fits};
ghost use Rattle.desk_base.specs.search.Listing.{IsFeasible, other_asks, asks_for};
ghost use Rattle.desk_base.specs.search.Verdicts.{IsServed};
ghost use Rattle.desk_base.specs.asked.Steps.{others_of, IsConflict, IsPlaceRefusal};
ghost use Rattle.desk_load.specs.Index.{IsIndexOf};

use crate::asks::new_asks;
use crate::points::first_broken;
use desk_base::{Clash, GroupRow, Minute, NoMemory, NodeNo, Refusal, ResourceId, Tables};
use desk_load::{LoadIndex, clash};
use desk_need::{crews_for, first_broken_node};
use std::alloc::Global;

/// Where the bookings of the picks clash with those of other groups.
fn clash_with_others(
    alloc: Global,
    index: &LoadIndex,
    tables: &Tables,
    group: &GroupRow,
    start: Minute,
    picks: &[Option<ResourceId>],
) -> Result<Option<Clash>, NoMemory>
    requires formed { AreWellFormed tables.now }
    requires index { IsIndexOf tables.now index.now }
    requires fits { Fits tables.now (other_asks tables.now group.now) }
    requires few { length group.now.leaves ≤ 24 }
    requires end { list_all (λ c. nat_le (leaf_time c.leaf start).to end_of_minutes) (choices_of 0 group.now.leaves picks.now) ≡ true }
    ensures { IfOk result (λ c. MatchOption c (Fits tables.now (other_asks tables.now group.now ++ asks_for group.now start picks.now)) (IsConflict tables.now (others_of tables.now group.now.id) (asks_for group.now start picks.now))) }
{
    let asked = new_asks(alloc, start, group.leaves.as_slice(), picks)?;
    clash(alloc, index, tables, asked.as_slice(), Some(group.id))
}

/// The refusal of picks that keep each point before room.
fn room_refusal(
    alloc: Global,
    index: &LoadIndex,
    tables: &Tables,
    group: &GroupRow,
    start: Minute,
    picks: &[Option<ResourceId>],
) -> Result<Option<Refusal>, NoMemory>
    requires formed { AreWellFormed tables.now }
    requires index { IsIndexOf tables.now index.now }
    requires fits { Fits tables.now (other_asks tables.now group.now) }
    requires there { Contains tables.now.groups group.now }
    requires served { IsServed tables.now group.now start picks.now }
    requires same { first_broken_same tables.now start group.now.nodes group.now.leaves picks.now ≡ None }
    ensures { IfOk result (λ r. MatchOption r (IsFeasible tables.now group.now start picks.now) (IsPlaceRefusal tables.now group.now start picks.now)) }
{
    // Read so that its range is known: no served leaf ends after it.
    let _end = group.to.get();
    match clash_with_others(alloc, index, tables, group, start, picks)? {
        Some(clash) => Ok(Some(Refusal::Conflict(clash))),
        None => Ok(None),
    }
}

/// The refusal of picks whose resources serve their leaves.
fn same_refusal(
    alloc: Global,
    index: &LoadIndex,
    tables: &Tables,
    group: &GroupRow,
    start: Minute,
    picks: &[Option<ResourceId>],
) -> Result<Option<Refusal>, NoMemory>
    requires formed { AreWellFormed tables.now }
    requires index { IsIndexOf tables.now index.now }
    requires fits { Fits tables.now (other_asks tables.now group.now) }
    requires there { Contains tables.now.groups group.now }
    requires served { IsServed tables.now group.now start picks.now }
    ensures { IfOk result (λ r. MatchOption r (IsFeasible tables.now group.now start picks.now) (IsPlaceRefusal tables.now group.now start picks.now)) }
{
    let crews = crews_for(alloc, tables, group.nodes.as_slice())?;
    match first_broken_node(tables, crews.as_slice(), start.get(), group, picks) {
        Some(node) => Ok(Some(Refusal::NotSame(node as NodeNo))),
        None => room_refusal(alloc, index, tables, group, start, picks),
    }
}

/// Why a group cannot be booked so: the first point that the start and the picks break, in the order grid, shape, eligibility,
/// part-of-same, room. `None` exactly where they are feasible.
pub fn place_refusal(
    alloc: Global,
    index: &LoadIndex,
    tables: &Tables,
    group: &GroupRow,
    start: Minute,
    picks: &[Option<ResourceId>],
) -> Result<Option<Refusal>, NoMemory>
    requires formed { AreWellFormed tables.now }
    requires index { IsIndexOf tables.now index.now }
    requires fits { Fits tables.now (other_asks tables.now group.now) }
    requires there { Contains tables.now.groups group.now }
    ensures { IfOk result (λ r. MatchOption r (IsFeasible tables.now group.now start picks.now) (λ why. IsPlaceRefusal tables.now group.now start picks.now why)) }
{
    match first_broken(tables, group, start.get(), picks) {
        Some(broken) => Ok(Some(broken.refusal(start))),
        None => same_refusal(alloc, index, tables, group, start, picks),
    }
}
