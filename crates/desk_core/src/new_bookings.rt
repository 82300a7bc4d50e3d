//! The bookings that picks make: one for each chosen leaf, in the order of the leaves.
ghost use Rattle.std.specs.Prelude.{◌≡◌, ◌+◌, ◌≤◌, ◌++◌, nat_le, true, length, IfOk, OnOk};
ghost use Rattle.std.specs.List.{list_all};
ghost use Rattle.desk_base.specs.asked.Acts.{bookings_from};
ghost use Rattle.desk_base.specs.rules.Limits.{end_of_minutes, serial_limit};
ghost use Rattle.desk_base.specs.meaning.Picks.{choices_of};
ghost use Rattle.desk_base.specs.meaning.Time.{leaf_time};

use desk_base::{BookingId, BookingRow, GroupId, GroupRow, Leaf, LeafNo, Minute, ResourceId};
use std::alloc::{AllocError, Global};

/// The booking of this number over the leaf's time, where its group starts at this minute.
fn booking(
    id: u32,
    group: GroupId,
    start: Minute,
    number: LeafNo,
    leaf: &Leaf,
    resource: ResourceId,
) -> BookingRow
    requires low { 1 ≤ id }
    requires high { id ≤ serial_limit }
    requires end { (leaf_time leaf.now start).to ≤ end_of_minutes }
    ensures { result ≡ record { id = id; group = group; leaf = number; resource = resource; from = (leaf_time leaf.now start).from; to = (leaf_time leaf.now start).to; effort = leaf.now.effort } }
{
    let time = leaf.time(start);
    BookingRow {
        id: BookingId::of(id).unwrap(),
        group,
        leaf: number,
        resource,
        from: time.from,
        to: time.to,
        effort: leaf.effort,
    }
}

/// Adds a booking for each chosen leaf of those that are numbered from `number` on. The bookings are numbered from `id` on.
fn push_bookings(
    id: u32,
    group: &GroupRow,
    start: Minute,
    number: LeafNo,
    leaves: &[Leaf],
    picks: &[Option<ResourceId>],
    made: &mut Vec<BookingRow>,
) -> Result<(), AllocError>
    requires low { 1 ≤ id }
    requires high { id + length (choices_of number leaves.now picks.now) ≤ serial_limit + 1 }
    requires few { number + length leaves.now ≤ 255 }
    requires end { list_all (λ c. nat_le (leaf_time c.leaf start).to end_of_minutes) (choices_of number leaves.now picks.now) ≡ true }
    ensures { OnOk result (made.new.items ≡ made.old.items ++ bookings_from id group.now start (choices_of number leaves.now picks.now)) }
{
    match leaves {
        [] => Ok(()),
        [leaf, leaves @ ..] => match picks {
            [] => Ok(()),
            [None, picks @ ..] => push_bookings(id, group, start, number + 1, leaves, picks, made),
            [Some(resource), picks @ ..] => {
                made.push(booking(id, group.id, start, number, leaf, *resource))?;
                push_bookings(id + 1, group, start, number + 1, leaves, picks, made)
            }
        },
    }
}

/// A booking for each chosen leaf of the group, numbered from `first` on.
pub(crate) fn new_bookings(
    alloc: Global,
    first: u32,
    group: &GroupRow,
    start: Minute,
    picks: &[Option<ResourceId>],
) -> Result<Vec<BookingRow>, AllocError>
    requires low { 1 ≤ first }
    requires high { first + length (choices_of 0 group.now.leaves picks.now) ≤ serial_limit + 1 }
    requires few { length group.now.leaves ≤ 255 }
    requires end { list_all (λ c. nat_le (leaf_time c.leaf start).to end_of_minutes) (choices_of 0 group.now.leaves picks.now) ≡ true }
    ensures { IfOk result (λ v. v.items ≡ bookings_from first group.now start (choices_of 0 group.now.leaves picks.now)) }
{
    let mut made = Vec::new(alloc);
    push_bookings(
        first,
        group,
        start,
        0,
        group.leaves.as_slice(),
        picks,
        &mut made,
    )?;
    Ok(made)
}
