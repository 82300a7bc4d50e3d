//! What no clause says: that memory is found, and the orders at concrete values.
use desk_base::{Duplicate, Found, Items, Minute, Name, Position, ResourceId, Tables};
use std::alloc::Global;
use std::cmp::Ordering;

/// A position, with 0 for a leaf that is left out.
fn position(alloc: Global, start: u32, picks: &[u32]) -> Option<Position> {
    let mut list = Items::new(alloc);
    for pick in picks {
        list.push(ResourceId::of(*pick)).ok()?;
    }
    Some(Position {
        start: Minute::of(start)?,
        picks: list,
    })
}

#[test]
fn finds_memory(rt: HostRuntime) {
    let alloc = rt.alloc();
    let name = Name::of(alloc, "Visit").expect(&rt, "a name");
    assert_eq!(rt; name.as_str(), "Visit");
    let tables = Tables::trial(alloc).expect(&rt, "the trial tables");
    let copy = tables.copy(alloc).expect(&rt, "a copy of the tables");
    assert_eq!(rt; copy.resources.len(), 3);
    let place = position(alloc, 28_935_840, &[1, 0]).expect(&rt, "a position");
    let row = Found {
        start: place.start,
        picks: Items::from_slice(alloc, place.picks.as_slice()).expect(&rt, "picks"),
    };
    assert!(rt; place.copy(alloc).expect(&rt, "a copy of the position") == place);
    assert!(rt; row.copy(alloc).expect(&rt, "a copy of the row") == row);
}

/// Two positions, how they compare, and whether the first begins the second.
type Case<'a> = ((u32, &'a [u32]), (u32, &'a [u32]), Ordering, bool);

const ORDERS: [Case<'static>; 8] = [
    (
        (28_935_840, &[1]),
        (28_935_840, &[1]),
        Ordering::Equal,
        true,
    ),
    (
        (28_935_840, &[1]),
        (28_935_840, &[1, 0]),
        Ordering::Less,
        true,
    ),
    (
        (28_935_840, &[1, 0]),
        (28_935_840, &[1]),
        Ordering::Greater,
        false,
    ),
    (
        (28_935_840, &[9]),
        (28_935_840, &[10]),
        Ordering::Less,
        false,
    ),
    (
        (28_935_840, &[10]),
        (28_935_840, &[0]),
        Ordering::Less,
        false,
    ),
    (
        (28_935_840, &[0, 2]),
        (28_935_840, &[1, 0, 0]),
        Ordering::Greater,
        false,
    ),
    (
        (28_935_840, &[0]),
        (28_935_900, &[1]),
        Ordering::Less,
        false,
    ),
    (
        (28_935_840, &[1]),
        (28_935_900, &[1, 2]),
        Ordering::Less,
        false,
    ),
];

#[test]
fn orders_by_start_then_pick_by_pick_with_the_left_out_last(rt: HostRuntime) {
    let alloc = rt.alloc();
    for (i, (first, second, order, begins)) in ORDERS.iter().enumerate() {
        let first = position(alloc, first.0, first.1).expect(&rt, "a position");
        let second = position(alloc, second.0, second.1).expect(&rt, "a position");
        assert!(rt; first.cmp(&second) == *order, "case {i}");
        assert_eq!(rt; first.begins(&second), *begins, "case {i}");
        let first = row(first);
        let second = row(second);
        assert!(rt; first.cmp(&second) == *order, "case {i}");
    }
}

fn row(position: Position) -> Found {
    let Position { start, picks } = position;
    Found { start, picks }
}
