//! Pages of the trial tables' group: one leaf, at 08:00 and 09:00 for 1 and 2, and at 10:00 and 11:00 for 3 as well.
use crate::fixtures::{EIGHT, ELEVEN, NINE, NOON, TEN};
use crate::wanted::{ANY, Asked, Given, Row, pages_of};
use std::test::Fail;

const LISTING: [Row; 10] = [
    (EIGHT, &[1]),
    (EIGHT, &[2]),
    (NINE, &[1]),
    (NINE, &[2]),
    (TEN, &[1]),
    (TEN, &[2]),
    (TEN, &[3]),
    (ELEVEN, &[1]),
    (ELEVEN, &[2]),
    (ELEVEN, &[3]),
];

const AT_EIGHT_AND_NINE: [Row; 4] = [(EIGHT, &[1]), (EIGHT, &[2]), (NINE, &[1]), (NINE, &[2])];

const AT_NINE: [Row; 2] = [(NINE, &[1]), (NINE, &[2])];

const FROM_TEN: [Row; 4] = [(TEN, &[1]), (TEN, &[2]), (TEN, &[3]), (ELEVEN, &[1])];

const LAST_TWO: [Row; 2] = [(ELEVEN, &[2]), (ELEVEN, &[3])];

const LAST: Row = (ELEVEN, &[3]);

#[test]
fn the_whole_listing(rt: HostRuntime) -> Result<(), Fail> {
    let pages: [(Asked, Given); 1] = [(
        (ANY, None, None, 0, 500),
        (&LISTING, Some(LAST), None, true),
    )];
    pages_of(&rt, rt.alloc(), &[], 1, &pages)
}

#[test]
fn pages_of_four(rt: HostRuntime) -> Result<(), Fail> {
    let pages: [(Asked, Given); 4] = [
        (
            (ANY, None, None, 0, 4),
            (&AT_EIGHT_AND_NINE, Some((NINE, &[2])), None, false),
        ),
        (
            (ANY, None, Some((NINE, &[2])), 0, 4),
            (&FROM_TEN, Some((ELEVEN, &[1])), None, false),
        ),
        (
            (ANY, None, Some((ELEVEN, &[1])), 0, 4),
            (&LAST_TWO, Some(LAST), None, true),
        ),
        ((ANY, None, Some(LAST), 0, 4), (&[], Some(LAST), None, true)),
    ];
    pages_of(&rt, rt.alloc(), &[], 1, &pages)
}

#[test]
fn pages_of_one(rt: HostRuntime) -> Result<(), Fail> {
    let pages: [(Asked, Given); 10] = [
        (
            (ANY, None, None, 0, 1),
            (&[(EIGHT, &[1])], Some((EIGHT, &[1])), None, false),
        ),
        (
            (ANY, None, Some((EIGHT, &[1])), 0, 1),
            (&[(EIGHT, &[2])], Some((EIGHT, &[2])), None, false),
        ),
        (
            (ANY, None, Some((EIGHT, &[2])), 0, 1),
            (&[(NINE, &[1])], Some((NINE, &[1])), None, false),
        ),
        (
            (ANY, None, Some((NINE, &[1])), 0, 1),
            (&[(NINE, &[2])], Some((NINE, &[2])), None, false),
        ),
        (
            (ANY, None, Some((NINE, &[2])), 0, 1),
            (&[(TEN, &[1])], Some((TEN, &[1])), None, false),
        ),
        (
            (ANY, None, Some((TEN, &[1])), 0, 1),
            (&[(TEN, &[2])], Some((TEN, &[2])), None, false),
        ),
        (
            (ANY, None, Some((TEN, &[2])), 0, 1),
            (&[(TEN, &[3])], Some((TEN, &[3])), None, false),
        ),
        (
            (ANY, None, Some((TEN, &[3])), 0, 1),
            (&[(ELEVEN, &[1])], Some((ELEVEN, &[1])), None, false),
        ),
        (
            (ANY, None, Some((ELEVEN, &[1])), 0, 1),
            (&[(ELEVEN, &[2])], Some((ELEVEN, &[2])), None, false),
        ),
        (
            (ANY, None, Some((ELEVEN, &[2])), 0, 1),
            (&[LAST], Some(LAST), None, true),
        ),
    ];
    pages_of(&rt, rt.alloc(), &[], 1, &pages)
}

const BETWEEN_STARTS: [(Asked, Given); 6] = [
    (
        ((None, Some(TEN)), None, None, 0, 500),
        (&AT_EIGHT_AND_NINE, Some((NINE, &[2])), None, true),
    ),
    (
        ((Some(NINE), Some(TEN)), None, None, 0, 500),
        (&AT_NINE, Some((NINE, &[2])), None, true),
    ),
    (
        ((Some(EIGHT + 1), Some(NINE + 1)), None, None, 0, 500),
        (&AT_NINE, Some((NINE, &[2])), None, true),
    ),
    (
        ((None, Some(TEN)), None, Some((NINE, &[2])), 0, 500),
        (&[], Some((NINE, &[2])), None, true),
    ),
    (
        ((Some(NINE), Some(NINE)), None, None, 0, 500),
        (&[], None, None, true),
    ),
    (
        ((Some(TEN), Some(NINE)), None, None, 0, 500),
        (&[], None, None, true),
    ),
];

/// The minute that ends a search is no start of it; where a search ends before it begins, it has no row.
#[test]
fn between_starts(rt: HostRuntime) -> Result<(), Fail> {
    pages_of(&rt, rt.alloc(), &[], 1, &BETWEEN_STARTS)
}

#[test]
fn no_row_from_noon_on(rt: HostRuntime) -> Result<(), Fail> {
    let pages: [(Asked, Given); 1] = [(
        ((Some(NOON), None), None, None, 0, 500),
        (&[], None, None, true),
    )];
    pages_of(&rt, rt.alloc(), &[], 1, &pages)
}

/// Positions that are no rows: 3 does not work at 09:00; a minute off the grid and a resource that is not there; a leaf that is
/// left out though it is needed; more picks than there are leaves; no pick.
#[test]
fn after_invented_positions(rt: HostRuntime) -> Result<(), Fail> {
    let rest: Given = (&FROM_TEN, Some((ELEVEN, &[1])), None, false);
    let pages: [(Asked, Given); 6] = [
        ((ANY, None, Some((NINE, &[3])), 0, 4), rest),
        ((ANY, None, Some((NINE + 1, &[9])), 0, 4), rest),
        ((ANY, None, Some((NINE, &[0])), 0, 4), rest),
        ((ANY, None, Some((NINE, &[2, 1])), 0, 4), rest),
        ((ANY, None, Some((TEN, &[])), 0, 4), rest),
        ((ANY, None, Some((NINE + 1, &[])), 0, 4), rest),
    ];
    pages_of(&rt, rt.alloc(), &[], 1, &pages)
}

#[test]
fn the_first_row_of_each_start(rt: HostRuntime) -> Result<(), Fail> {
    let firsts: [Row; 4] = [(EIGHT, &[1]), (NINE, &[1]), (TEN, &[1]), (ELEVEN, &[1])];
    let pages: [(Asked, Given); 1] = [(
        (ANY, Some(1), None, 0, 500),
        (&firsts, Some((ELEVEN, &[1])), Some(1), true),
    )];
    pages_of(&rt, rt.alloc(), &[], 1, &pages)
}

#[test]
fn the_first_two_rows_of_each_start(rt: HostRuntime) -> Result<(), Fail> {
    let pages: [(Asked, Given); 4] = [
        (
            (ANY, Some(2), None, 0, 3),
            (
                &[(EIGHT, &[1]), (EIGHT, &[2]), (NINE, &[1])],
                Some((NINE, &[1])),
                Some(1),
                false,
            ),
        ),
        (
            (ANY, Some(2), Some((NINE, &[1])), 1, 3),
            (
                &[(NINE, &[2]), (TEN, &[1]), (TEN, &[2])],
                Some((TEN, &[2])),
                Some(2),
                false,
            ),
        ),
        (
            (ANY, Some(2), Some((TEN, &[2])), 2, 3),
            (
                &[(ELEVEN, &[1]), (ELEVEN, &[2])],
                Some((ELEVEN, &[2])),
                Some(2),
                true,
            ),
        ),
        // More rows than its start has are said to be shown.
        (
            (ANY, Some(2), Some((EIGHT, &[1])), 9, 1),
            (&[(NINE, &[1])], Some((NINE, &[1])), Some(1), false),
        ),
    ];
    pages_of(&rt, rt.alloc(), &[], 1, &pages)
}
