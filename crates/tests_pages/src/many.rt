//! Groups of four and of twelve leaves, and a hundred resources. A search that goes through all rows does not come to an end.
use crate::fixtures::{ALL, Asks, EIGHT, ELEVEN, LEAF_BELOW, NOON, Shape, Visit, Wanted};
use crate::wanted::{ANY, Asked, Given, Row, pages_of};
use std::test::Fail;

const FOUR_NODES: [Shape; 5] = [ALL, LEAF_BELOW, LEAF_BELOW, LEAF_BELOW, LEAF_BELOW];

const FOUR_LEAVES: [Asks; 4] = [Asks::Nothing; 4];

const TWELVE_NODES: [Shape; 13] = [
    ALL, LEAF_BELOW, LEAF_BELOW, LEAF_BELOW, LEAF_BELOW, LEAF_BELOW, LEAF_BELOW, LEAF_BELOW,
    LEAF_BELOW, LEAF_BELOW, LEAF_BELOW, LEAF_BELOW, LEAF_BELOW,
];

const TWELVE_LEAVES: [Asks; 12] = [Asks::Nothing; 12];

const FOUR: Visit = Visit {
    from: EIGHT,
    to: NOON,
    step: 60,
    nodes: &FOUR_NODES,
    leaves: &FOUR_LEAVES,
};

const TWELVE: Visit = Visit {
    from: EIGHT,
    to: NOON,
    step: 60,
    nodes: &TWELVE_NODES,
    leaves: &TWELVE_LEAVES,
};

const FIRST_OF_FOUR: Row = (EIGHT, &[1, 2, 4, 5]);

const FIRST_OF_TWELVE: Row = (EIGHT, &[1, 2, 4, 5, 6, 7, 8, 9, 10, 11, 12, 13]);

const LATE_OF_TWELVE: Row = (ELEVEN, &[100, 1, 2, 3, 4, 5, 6, 7, 8, 9, 10, 11]);

const A_PAGE_OF_FOUR: [(Asked, Given); 1] = [(
    (ANY, None, None, 0, 1),
    (&[FIRST_OF_FOUR], Some(FIRST_OF_FOUR), None, false),
)];

const PAGES_OF_TWELVE: [(Asked, Given); 2] = [
    (
        (ANY, None, None, 0, 1),
        (&[FIRST_OF_TWELVE], Some(FIRST_OF_TWELVE), None, false),
    ),
    (
        (ANY, None, Some((ELEVEN, &[100])), 0, 1),
        (&[LATE_OF_TWELVE], Some(LATE_OF_TWELVE), None, false),
    ),
];

/// It passes 4 positions: at most (4 + 4 + 2) * 101 steps, 1,010.
#[test]
fn four_leaves(rt: HostRuntime) -> Result<(), Fail> {
    let rows = [Wanted::Resources(4, 100), Wanted::Group(FOUR)];
    pages_of(&rt, rt.alloc(), &rows, 2, &A_PAGE_OF_FOUR)
}

/// The first page passes 12 positions: at most (12 + 12 + 2) * 101 steps, 2,626. The second passes 11: at most 2,525.
#[test]
fn twelve_leaves(rt: HostRuntime) -> Result<(), Fail> {
    let rows = [Wanted::Resources(4, 100), Wanted::Group(TWELVE)];
    pages_of(&rt, rt.alloc(), &rows, 2, &PAGES_OF_TWELVE)
}
