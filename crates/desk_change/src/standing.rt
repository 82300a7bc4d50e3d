//! The standing bookings of a group, which the index finds by halving, and why the group is not open, or not booked.
ghost use Rattle.std.specs.Prelude.{◌≡◌, ◌≤◌, IfOk, None, Some, if◌then◌else◌, length};
ghost use Rattle.std.specs.Option.{option_or};
ghost use Rattle.desk_base.specs.asked.Groups.{booked_for, is_booked};
ghost use Rattle.desk_base.specs.asked.Refusing.{refused_booked, refused_open};
ghost use Rattle.desk_base.specs.declared.asked.refusals.Refusal.TheVariants.{NotBooked, NotOpen};
ghost use Rattle.desk_base.specs.rules.Sound.{AreWellFormed, IsSound};
ghost use Rattle.desk_load.specs.Index.{IsIndexOf};

use desk_base::{Act, BookingRow, GroupId, Refusal, Tables};
use desk_load::LoadIndex;
use std::alloc::{AllocError, Global};

/// Bookings of the group stand.
pub fn is_booked(index: &LoadIndex, group: GroupId) -> bool
    ensures { (t : Tables) → AreWellFormed t → IsIndexOf t index.now → result ≡ is_booked t group }
{
    let own = index.bookings_of(group);
    !own.is_empty()
}

/// The group's standing bookings, rising by number.
pub fn booked_for(
    alloc: Global,
    index: &LoadIndex,
    group: GroupId,
) -> Result<Vec<BookingRow>, AllocError>
    ensures { IfOk result (λ v. (t : Tables) → AreWellFormed t → IsIndexOf t index.now → v.items ≡ booked_for t group) }
{
    Vec::from_slice(alloc, index.bookings_of(group))
}

/// How many bookings of the group stand.
pub(crate) fn booked_len(tables: &Tables, index: &LoadIndex, group: GroupId) -> usize
    requires sound { IsSound tables.now }
    requires index { IsIndexOf tables.now index.now }
    ensures count { result ≡ length (booked_for tables.now group) }
    ensures within { result ≤ length tables.now.bookings }
{
    index.bookings_of(group).len()
}

/// Bookings of the group stand in these tables.
fn stands(tables: &Tables, index: &LoadIndex, group: GroupId) -> bool
    requires sound { IsSound tables.now }
    requires index { IsIndexOf tables.now index.now }
    ensures { result ≡ is_booked tables.now group }
{
    is_booked(index, group)
}

/// Why the group is not booked.
fn refused_open_group(tables: &Tables, index: &LoadIndex, group: GroupId) -> Option<Refusal>
    requires sound { IsSound tables.now }
    requires index { IsIndexOf tables.now index.now }
    ensures { result ≡ (if is_booked tables.now group then None else Some (NotBooked group)) }
{
    if stands(tables, index, group) {
        None
    } else {
        Some(Refusal::NotBooked(group))
    }
}

/// Why the group is not open.
fn refused_booked_group(tables: &Tables, index: &LoadIndex, group: GroupId) -> Option<Refusal>
    requires sound { IsSound tables.now }
    requires index { IsIndexOf tables.now index.now }
    ensures { result ≡ (if is_booked tables.now group then Some (NotOpen group) else None) }
{
    if stands(tables, index, group) {
        Some(Refusal::NotOpen(group))
    } else {
        None
    }
}

/// Why the group is not open, or not booked, as the act asks it to be.
pub(crate) fn refused_standing(tables: &Tables, index: &LoadIndex, act: &Act) -> Option<Refusal>
    requires sound { IsSound tables.now }
    requires index { IsIndexOf tables.now index.now }
    ensures { result ≡ option_or (refused_booked tables.now act.now) (refused_open tables.now act.now) }
{
    match act {
        Act::Put(_) => None,
        Act::Remove(_) => None,
        Act::PutGroup(group) => refused_booked_group(tables, index, group.id),
        Act::DropGroup(group) => refused_booked_group(tables, index, *group),
        Act::BookGroup { group, .. } => refused_booked_group(tables, index, *group),
        Act::MoveGroup { group, .. } => refused_open_group(tables, index, *group),
        Act::CancelGroup(group) => refused_open_group(tables, index, *group),
    }
}
