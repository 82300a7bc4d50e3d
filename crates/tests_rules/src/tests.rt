//! What is said of tables: nothing against those that keep every rule, and of others the first rule and the least key.
use crate::faults::{More, judged, judged_empty};
use crate::rows::EIGHT;
use desk_base::{Key, Table, TableRule};
use desk_rules::BadAt;

const fn key(table: Table, a: u32, b: u32, c: u32) -> Key {
    Key { table, a, b, c }
}

#[test]
fn tables_that_keep_every_rule_are_well_formed(rt: HostRuntime) {
    assert_eq!(rt; judged_empty(rt.alloc()), Some((true, None)));
    let rows = [
        More::Nothing,
        More::Zones(2, 65),
        More::Work(720),
        More::Site(""),
        More::Crews(3),
        More::Booking(1),
    ];
    for more in rows {
        assert_eq!(rt; judged(rt.alloc(), more), Some((true, None)), "{more:?}");
    }
}

#[test]
fn the_first_rule_and_the_least_key_are_named(rt: HostRuntime) {
    let rows = [
        (
            More::Zones(1, 2),
            TableRule::Order,
            key(Table::Zone, 1, 0, 0),
        ),
        (
            More::WorkBehind,
            TableRule::Order,
            key(Table::Work, 1, 0, 750),
        ),
        (
            More::Zones(2, 66),
            TableRule::Limit,
            key(Table::Zone, 65, 0, 0),
        ),
        (
            More::Work(719),
            TableRule::Field,
            key(Table::Work, 2, 0, 600),
        ),
        (More::Site("!"), TableRule::Field, key(Table::Site, 2, 0, 0)),
        (
            More::Crews(2),
            TableRule::Field,
            key(Table::Member, 4, 3, EIGHT + 60),
        ),
        (
            More::Childless,
            TableRule::Field,
            key(Table::Group, 2, 0, 0),
        ),
        (
            More::WorkOf(3),
            TableRule::Citation,
            key(Table::Work, 3, 0, 480),
        ),
        (
            More::Booking(2),
            TableRule::Citation,
            key(Table::Booking, 1, 0, 0),
        ),
    ];
    for (more, rule, key) in rows {
        let bad = BadAt { rule, key };
        assert_eq!(rt;
            judged(rt.alloc(), more),
            Some((false, Some(bad))),
            "{more:?}"
        );
    }
}

#[test]
fn more_times_off_than_a_schedule_keeps_are_taken(rt: HostRuntime) {
    let bad = BadAt {
        rule: TableRule::Limit,
        key: key(Table::Off, 1, EIGHT + 100_000, 0),
    };
    assert_eq!(rt; judged(rt.alloc(), More::Offs(100_000)), Some((true, None)));
    assert_eq!(rt;
        judged(rt.alloc(), More::Offs(100_001)),
        Some((true, Some(bad)))
    );
}
