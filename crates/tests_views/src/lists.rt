//! What an index tells of resources and of groups.
use crate::acts::Booking;
use crate::books::{EIGHT, ELEVEN, NINE, TEN, book_with};
use crate::schedules::THREE_AT_A_TIME;
use desk_base::laws::sound_tables_are_well_formed;
use desk_base::{BookingRow, GroupId, ResourceId};
use desk_core::Book;
use desk_load::LoadIndex;
use std::alloc::Global;
use std::process::Abort;
use std::test::Fail;

/// A resource, a minute, and the weight that it has there; `None` where there is no such resource.
type Heft = (u32, u32, Option<i64>);

/// The numbers of the first two of some bookings, 0 where there is none, and how many there are.
type Held = (u32, u32, usize);

fn weight_at(index: &LoadIndex, resource: u32, minute: u32) -> Option<i64> {
    let entry = index.weight_of(ResourceId::of(resource)?)?;
    let weight = &entry.weight;
    if weight.from() <= minute && minute < weight.to() {
        Some(weight.at(minute))
    } else {
        None
    }
}

fn are_hefts(rt: &impl Abort, index: &LoadIndex, rows: &[Heft]) {
    for (resource, minute, heft) in rows {
        let found = weight_at(index, *resource, *minute);
        assert!(rt; found == *heft, "of {resource} at {minute}");
    }
}

fn held_of(bookings: &[BookingRow]) -> Held {
    match bookings {
        [] => (0, 0, 0),
        [first] => (first.id.get(), 0, 1),
        [first, second, ..] => (first.id.get(), second.id.get(), bookings.len()),
    }
}

fn standing_on(index: &LoadIndex, resource: u32) -> Option<Held> {
    Some(held_of(index.standing_on(ResourceId::of(resource)?)))
}

fn bookings_of(index: &LoadIndex, group: u32) -> Option<Held> {
    Some(held_of(index.bookings_of(GroupId::of(group)?)))
}

fn are_standing(rt: &impl Abort, index: &LoadIndex, rows: &[(u32, Held)]) {
    for (resource, held) in rows {
        let found = standing_on(index, *resource);
        assert!(rt; found == Some(*held), "on {resource}");
    }
}

fn are_booked(rt: &impl Abort, index: &LoadIndex, rows: &[(u32, Held)]) {
    for (group, held) in rows {
        let found = bookings_of(index, *group);
        assert!(rt; found == Some(*held), "of {group}");
    }
}

/// Bookings 1 and 3 are on 4, and booking 2 on 1.
const BOOKINGS: [Booking; 3] = [
    (2, 4, EIGHT, 60, 2),
    (3, 1, TEN, 60, 1),
    (4, 4, NINE - 30, 60, 1),
];

/// What the resources weigh beside the bookings.
const HEFTS: [Heft; 11] = [
    (1, TEN - 1, Some(0)),
    (1, TEN, Some(1)),
    (1, ELEVEN - 1, Some(1)),
    (1, ELEVEN, Some(0)),
    (2, TEN, Some(0)),
    (4, EIGHT - 1, Some(0)),
    (4, EIGHT, Some(2)),
    (4, NINE - 30, Some(3)),
    (4, NINE, Some(1)),
    (4, NINE + 30, Some(0)),
    (9, EIGHT, None),
];

/// The bookings of each resource.
const STANDING: [(u32, Held); 4] = [
    (1, (2, 0, 1)),
    (2, (0, 0, 0)),
    (4, (1, 3, 2)),
    (9, (0, 0, 0)),
];

/// The bookings of each group.
const BOOKED: [(u32, Held); 5] = [
    (1, (0, 0, 0)),
    (2, (1, 0, 1)),
    (3, (2, 0, 1)),
    (4, (3, 0, 1)),
    (9, (0, 0, 0)),
];

fn look(rt: &impl Abort, alloc: Global, book: &Book) -> Result<(), Fail> {
    sound_tables_are_well_formed();
    let index = LoadIndex::build(alloc, book.tables())?;
    are_hefts(rt, &index, &HEFTS);
    are_standing(rt, &index, &STANDING);
    are_booked(rt, &index, &BOOKED);
    Ok(())
}

#[test]
fn an_index_knows_what_stands(rt: HostRuntime) -> Result<(), Fail> {
    let alloc = rt.alloc();
    let book = book_with(alloc, &THREE_AT_A_TIME, &BOOKINGS)?;
    look(&rt, alloc, &book)
}
