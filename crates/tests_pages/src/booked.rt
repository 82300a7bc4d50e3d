//! Pages beside standing bookings: those of the group itself do not count.
use crate::fixtures::{Asks, EIGHT, ELEVEN, LEAF, NINE, NOON, TEN, Visit, Wanted};
use crate::wanted::{ANY, Asked, Given, Row, pages_of};
use std::test::Fail;

/// Another group, which asks for one resource.
const OTHER: Visit = Visit {
    from: EIGHT,
    to: NOON,
    step: 60,
    nodes: &[LEAF],
    leaves: &[Asks::Nothing],
};

const LAST: Row = (ELEVEN, &[3]);

const ALL_ROWS: [Row; 10] = [
    (EIGHT, &[1]),
    (EIGHT, &[2]),
    (NINE, &[1]),
    (NINE, &[2]),
    (TEN, &[1]),
    (TEN, &[2]),
    (TEN, &[3]),
    (ELEVEN, &[1]),
    (ELEVEN, &[2]),
    LAST,
];

/// Without 08:00 on 1.
const ONE_HOUR_TAKEN: [Row; 9] = [
    (EIGHT, &[2]),
    (NINE, &[1]),
    (NINE, &[2]),
    (TEN, &[1]),
    (TEN, &[2]),
    (TEN, &[3]),
    (ELEVEN, &[1]),
    (ELEVEN, &[2]),
    LAST,
];

/// Without 09:00 on 2.
const ANOTHER_HOUR_TAKEN: [Row; 9] = [
    (EIGHT, &[1]),
    (EIGHT, &[2]),
    (NINE, &[1]),
    (TEN, &[1]),
    (TEN, &[2]),
    (TEN, &[3]),
    (ELEVEN, &[1]),
    (ELEVEN, &[2]),
    LAST,
];

#[test]
fn its_own_booking_does_not_count(rt: HostRuntime) -> Result<(), Fail> {
    let pages: [(Asked, Given); 1] = [(
        (ANY, None, None, 0, 500),
        (&ALL_ROWS, Some(LAST), None, true),
    )];
    let rows = [Wanted::Booking(1, 1, 1, EIGHT)];
    pages_of(&rt, rt.alloc(), &rows, 1, &pages)
}

#[test]
fn another_group_takes_an_hour(rt: HostRuntime) -> Result<(), Fail> {
    let pages: [(Asked, Given); 1] = [(
        (ANY, None, None, 0, 500),
        (&ONE_HOUR_TAKEN, Some(LAST), None, true),
    )];
    let rows = [Wanted::Group(OTHER), Wanted::Booking(1, 2, 1, EIGHT)];
    pages_of(&rt, rt.alloc(), &rows, 1, &pages)
}

/// The first group has 08:00 on 1, and the second 09:00 on 2.
const TWO_BOOKINGS: [Wanted; 3] = [
    Wanted::Group(OTHER),
    Wanted::Booking(1, 1, 1, EIGHT),
    Wanted::Booking(2, 2, 2, NINE),
];

#[test]
fn each_group_sees_the_bookings_of_the_other(rt: HostRuntime) -> Result<(), Fail> {
    let of_first: [(Asked, Given); 1] = [(
        (ANY, None, None, 0, 500),
        (&ANOTHER_HOUR_TAKEN, Some(LAST), None, true),
    )];
    let of_second: [(Asked, Given); 1] = [(
        (ANY, None, None, 0, 500),
        (&ONE_HOUR_TAKEN, Some(LAST), None, true),
    )];
    pages_of(&rt, rt.alloc(), &TWO_BOOKINGS, 1, &of_first)?;
    pages_of(&rt, rt.alloc(), &TWO_BOOKINGS, 2, &of_second)
}
