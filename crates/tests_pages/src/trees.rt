//! Trees of which one part is chosen, and parts whose resources are to be of one unit.
use crate::fixtures::{
    ALL, Asks, EIGHT, ELEVEN, LEAF_BELOW, LEAF_TWO_BELOW, NINE, Shape, TEN, Visit, Wanted,
};
use crate::wanted::{ANY, Asked, Given, Row, pages_of};
use desk_base::{NodeKind, Same};
use std::test::Fail;

/// Either one leaf or two.
const ONE_OR_TWO: [Shape; 5] = [
    (0, NodeKind::Any, Same::None),
    LEAF_BELOW,
    (1, NodeKind::All, Same::None),
    LEAF_TWO_BELOW,
    LEAF_TWO_BELOW,
];

const CHOICE: Visit = Visit {
    from: TEN,
    to: ELEVEN,
    step: 60,
    nodes: &ONE_OR_TWO,
    leaves: &[Asks::WithRole(1), Asks::WithRole(2), Asks::WithRole(3)],
};

/// Each of 1, 2 and 3 has the role of its number.
const ROLES: [Wanted; 7] = [
    Wanted::Role(1),
    Wanted::Role(2),
    Wanted::Role(3),
    Wanted::HasRole(1, 1),
    Wanted::HasRole(2, 2),
    Wanted::HasRole(3, 3),
    Wanted::Group(CHOICE),
];

#[test]
fn one_leaf_or_two_others(rt: HostRuntime) -> Result<(), Fail> {
    let last: Row = (TEN, &[0, 2, 3]);
    let rows: [Row; 2] = [(TEN, &[1, 0, 0]), last];
    let pages: [(Asked, Given); 1] = [((ANY, None, None, 0, 500), (&rows, Some(last), None, true))];
    pages_of(&rt, rt.alloc(), &ROLES, 2, &pages)
}

const FOUR_TO_SEVEN: [u32; 4] = [4, 5, 6, 7];

const OF_ONE_UNIT: Visit = Visit {
    from: EIGHT,
    to: NINE,
    step: 60,
    nodes: &[(0, NodeKind::All, Same::Unit), LEAF_BELOW, LEAF_BELOW],
    leaves: &[Asks::OneOf(&FOUR_TO_SEVEN), Asks::OneOf(&FOUR_TO_SEVEN)],
};

/// 4 and 5 are of one unit, and 6 and 7 of another.
const UNITS: [Wanted; 7] = [
    Wanted::Unit(2),
    Wanted::Unit(3),
    Wanted::Resource(4, 2),
    Wanted::Resource(5, 2),
    Wanted::Resource(6, 3),
    Wanted::Resource(7, 3),
    Wanted::Group(OF_ONE_UNIT),
];

#[test]
fn two_of_one_unit(rt: HostRuntime) -> Result<(), Fail> {
    let last: Row = (EIGHT, &[7, 6]);
    let rows: [Row; 4] = [(EIGHT, &[4, 5]), (EIGHT, &[5, 4]), (EIGHT, &[6, 7]), last];
    let pages: [(Asked, Given); 1] = [((ANY, None, None, 0, 500), (&rows, Some(last), None, true))];
    pages_of(&rt, rt.alloc(), &UNITS, 2, &pages)
}
