//! Crews and their members.
use crate::fixtures::{
    ALL, Asks, EIGHT, ELEVEN, HALF_PAST_EIGHT, LEAF, LEAF_BELOW, NINE, NOON, TEN, Visit, Wanted,
};
use crate::wanted::{ANY, Asked, Given, Row, pages_of};
use desk_base::{Kind, NodeKind, Same};
use std::test::Fail;

const A_CREW_AND_ONE_MORE: Visit = Visit {
    from: EIGHT,
    to: NINE,
    step: 60,
    nodes: &[ALL, LEAF_BELOW, LEAF_BELOW],
    leaves: &[Asks::OfKind(Kind::Crew), Asks::OfKind(Kind::Generic)],
};

/// The crew needs 1, its one member, so that 2 alone is left.
#[test]
fn a_crew_takes_its_member(rt: HostRuntime) -> Result<(), Fail> {
    let only: Row = (EIGHT, &[10, 2]);
    let pages: [(Asked, Given); 1] = [(
        (ANY, None, None, 0, 500),
        (&[only], Some(only), None, true),
    )];
    let rows = [
        Wanted::Crew(10),
        Wanted::Member(10, 1, EIGHT, NOON),
        Wanted::Group(A_CREW_AND_ONE_MORE),
    ];
    pages_of(&rt, rt.alloc(), &rows, 2, &pages)
}

const A_CREW: Visit = Visit {
    from: EIGHT,
    to: NOON,
    step: 30,
    nodes: &[LEAF],
    leaves: &[Asks::OfKind(Kind::Crew)],
};

#[test]
fn a_membership_that_ends(rt: HostRuntime) -> Result<(), Fail> {
    let last: Row = (NINE, &[10]);
    let rows: [Row; 3] = [(EIGHT, &[10]), (HALF_PAST_EIGHT, &[10]), last];
    let pages: [(Asked, Given); 1] = [((ANY, None, None, 0, 500), (&rows, Some(last), None, true))];
    let rows = [
        Wanted::Crew(10),
        Wanted::Member(10, 1, EIGHT, TEN),
        Wanted::Group(A_CREW),
    ];
    pages_of(&rt, rt.alloc(), &rows, 2, &pages)
}

const OF_ONE_CREW: Visit = Visit {
    from: EIGHT,
    to: NOON,
    step: 60,
    nodes: &[(0, NodeKind::All, Same::Crew), LEAF_BELOW],
    leaves: &[Asks::Nothing],
};

/// 1 alone is in a crew, from 09:00 on.
#[test]
fn a_membership_that_begins(rt: HostRuntime) -> Result<(), Fail> {
    let last: Row = (ELEVEN, &[1]);
    let rows: [Row; 3] = [(NINE, &[1]), (TEN, &[1]), last];
    let pages: [(Asked, Given); 1] = [((ANY, None, None, 0, 500), (&rows, Some(last), None, true))];
    let rows = [
        Wanted::Crew(10),
        Wanted::Member(10, 1, NINE, NOON),
        Wanted::Group(OF_ONE_CREW),
    ];
    pages_of(&rt, rt.alloc(), &rows, 2, &pages)
}
