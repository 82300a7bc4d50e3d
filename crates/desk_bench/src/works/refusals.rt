//! A booking that has no room, and is judged.
ghost use Rattle.std.specs.Prelude.{map, Contains};
ghost use Rattle.desk_base.specs.meaning.Load.{Fits, ask_of};
ghost use Rattle.desk_base.specs.rules.Sound.{AreWellFormed};
ghost use Rattle.desk_load.specs.Index.{IsIndexOf};

use crate::schedule::taken_hour;
use crate::stop::Stop;
use crate::works::groups::group_of;
use desk_base::{Clash, GroupRow, Minute, NoMemory, Refusal, ResourceId, Shown, Tables};
use desk_feasible::place_refusal;
use desk_load::LoadIndex;
use std::alloc::Global;

/// Whether the group has no room from this start on with these picks.
fn has_conflict(
    alloc: Global,
    index: &LoadIndex,
    tables: &Tables,
    group: &GroupRow,
    start: Minute,
    picks: &[Option<ResourceId>],
) -> Result<bool, NoMemory>
    requires formed { AreWellFormed tables.now }
    requires index { IsIndexOf tables.now index.now }
    requires fits { Fits tables.now (map ask_of tables.now.bookings) }
    requires there { Contains tables.now.groups group.now }
{
    match &place_refusal(alloc, index, tables, group, start, picks)? {
        // The variants are named so that the checker looks for their type.
        Some(
            Refusal::Conflict(
                Clash {
                    shown: Shown::Booking(_) | Shown::Gap,
                    ..
                },
            ),
        ) => Ok(true),
        _ => Ok(false),
    }
}

/// Whether it has none with the first resource, in the first hour of the Monday.
fn is_refused(
    alloc: Global,
    index: &LoadIndex,
    tables: &Tables,
    group: &GroupRow,
) -> Result<bool, Stop>
    requires formed { AreWellFormed tables.now }
    requires index { IsIndexOf tables.now index.now }
    requires fits { Fits tables.now (map ask_of tables.now.bookings) }
    requires there { Contains tables.now.groups group.now }
{
    let start = taken_hour()?.from;
    let picks = [ResourceId::of(1)];
    let refused = has_conflict(alloc, index, tables, group, start, &picks)?;
    Ok(refused)
}

/// How often it has none.
fn conflicts(
    alloc: Global,
    index: &LoadIndex,
    tables: &Tables,
    group: &GroupRow,
    rounds: u32,
) -> Result<usize, Stop>
    requires formed { AreWellFormed tables.now }
    requires index { IsIndexOf tables.now index.now }
    requires fits { Fits tables.now (map ask_of tables.now.bookings) }
    requires there { Contains tables.now.groups group.now }
{
    let mut found = 0usize;
    for _ in 0..rounds {
        let refused = is_refused(alloc, index, tables, group)?;
        if refused {
            found = found.wrapping_add(1);
        }
    }
    Ok(found)
}

/// The same of group 1.
pub(crate) fn of_group(
    alloc: Global,
    index: &LoadIndex,
    tables: &Tables,
    rounds: u32,
) -> Result<usize, Stop>
    requires formed { AreWellFormed tables.now }
    requires index { IsIndexOf tables.now index.now }
    requires fits { Fits tables.now (map ask_of tables.now.bookings) }
{
    let group = group_of(tables, 1)?;
    conflicts(alloc, index, tables, group, rounds)
}
