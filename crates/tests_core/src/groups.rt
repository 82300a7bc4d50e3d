//! Groups of one leaf and of trees, put, booked, moved, cancelled and dropped, and the journal of it. The book is over the trial tables:
//! Ann (1) and Bob (2) work on Mondays from 08:00 to 12:00, and Cyd (3) from 10:00; group 1 asks for an hour of one of them.
use crate::lines::{Asked, Line, go_through_trial};
use std::test::Fail;

#[test]
fn a_move_that_conflicts_leaves_the_old_booking(rt: HostRuntime) -> Result<(), Fail> {
    let lines: [Line; 10] = [
        (
            Asked::Change(
                1,
                "put_group",
                r#""id":2,"name":"Visit","from":"2025-01-06T08:00Z","to":"2025-01-06T12:00Z","step":60,"tree":{"leaf":{"duration":60,"effort":1}}"#,
            ),
            r#"{"done":"put","repeated":false,"revision":1}"#,
        ),
        (
            Asked::Change(
                2,
                "book_group",
                r#""group":1,"start":"2025-01-06T08:00Z","picks":[1]"#,
            ),
            r#"{"bookings":[1],"done":"booked","effort_minutes":60,"repeated":false,"revision":2}"#,
        ),
        (
            Asked::Change(
                3,
                "book_group",
                r#""group":2,"start":"2025-01-06T09:00Z","picks":[2]"#,
            ),
            r#"{"bookings":[2],"done":"booked","effort_minutes":60,"repeated":false,"revision":3}"#,
        ),
        (
            Asked::Change(
                4,
                "move_group",
                r#""group":1,"start":"2025-01-06T09:00Z","picks":[2]"#,
            ),
            r#"{"asked":1,"booking":2,"capacity":1,"minute":"2025-01-06T09:00Z","refused":"conflict","resource":2,"revision":3,"standing":1}"#,
        ),
        (
            Asked::Change(
                4,
                "move_group",
                r#""group":2,"start":"2025-01-06T08:00Z","picks":[1]"#,
            ),
            r#"{"asked":1,"booking":1,"capacity":1,"minute":"2025-01-06T08:00Z","refused":"conflict","resource":1,"revision":3,"standing":1}"#,
        ),
        (
            Asked::Change(
                4,
                "move_group",
                r#""group":1,"start":"2025-01-06T09:00Z","picks":[1]"#,
            ),
            r#"{"bookings":[3],"done":"booked","effort_minutes":60,"repeated":false,"revision":4}"#,
        ),
        (
            Asked::Change(
                4,
                "move_group",
                r#""group":1,"start":"2025-01-06T09:00Z","picks":[1]"#,
            ),
            r#"{"bookings":[3],"done":"booked","effort_minutes":60,"repeated":true,"revision":4}"#,
        ),
        (
            Asked::Change(
                5,
                "move_group",
                r#""group":1,"start":"2025-01-06T09:00Z","picks":[1]"#,
            ),
            r#"{"bookings":[4],"done":"booked","effort_minutes":60,"repeated":false,"revision":5}"#,
        ),
        (
            Asked::Change(
                6,
                "book_group",
                r#""group":2,"start":"2025-01-06T09:00Z","picks":[2]"#,
            ),
            r#"{"group":2,"refused":"not_open","revision":5}"#,
        ),
        (
            Asked::Change(
                6,
                "move_group",
                r#""group":2,"start":"2025-01-06T08:00Z","picks":[1]"#,
            ),
            r#"{"bookings":[5],"done":"booked","effort_minutes":60,"repeated":false,"revision":6}"#,
        ),
    ];
    go_through_trial(&rt, rt.alloc(), &lines)
}

#[test]
fn a_relay_is_booked_whole_or_not_at_all(rt: HostRuntime) -> Result<(), Fail> {
    let lines: [Line; 11] = [
        (
            Asked::Change(
                1,
                "put_group",
                r#""id":2,"name":"Visit","from":"2025-01-06T08:00Z","to":"2025-01-06T12:00Z","step":60,"tree":{"all":[{"leaf":{"duration":60,"effort":1,"required":[1]}},{"leaf":{"duration":60,"offset":60,"effort":1,"required":[3]}}]}"#,
            ),
            r#"{"done":"put","repeated":false,"revision":1}"#,
        ),
        (
            Asked::Rows(2, 50),
            r#"{"end":true,"next":"1.28936020.1","revision":1,"rows":[["2025-01-06T09:00Z",1,3],["2025-01-06T10:00Z",1,3]]}"#,
        ),
        (
            Asked::Change(
                2,
                "put_group",
                r#""id":3,"name":"Visit","from":"2025-01-06T08:00Z","to":"2025-01-06T12:00Z","step":60,"tree":{"all":[{"leaf":{"duration":60,"effort":1,"required":[1]}},{"leaf":{"duration":60,"offset":60,"effort":1,"required":[1]}}]}"#,
            ),
            r#"{"done":"put","repeated":false,"revision":2}"#,
        ),
        (
            Asked::Rows(3, 50),
            r#"{"end":true,"next":"2.28936020.1","revision":2,"rows":[["2025-01-06T08:00Z",1,1],["2025-01-06T09:00Z",1,1],["2025-01-06T10:00Z",1,1]]}"#,
        ),
        (
            Asked::Change(
                3,
                "book_group",
                r#""group":2,"start":"2025-01-06T09:00Z","picks":[1,3]"#,
            ),
            r#"{"bookings":[1,2],"done":"booked","effort_minutes":120,"repeated":false,"revision":3}"#,
        ),
        (
            Asked::Change(
                4,
                "book_group",
                r#""group":3,"start":"2025-01-06T08:00Z","picks":[1,1]"#,
            ),
            r#"{"asked":1,"booking":1,"capacity":1,"minute":"2025-01-06T09:00Z","refused":"conflict","resource":1,"revision":3,"standing":1}"#,
        ),
        (
            Asked::Change(
                4,
                "book_group",
                r#""group":3,"start":"2025-01-06T10:00Z","picks":[1,1]"#,
            ),
            r#"{"bookings":[3,4],"done":"booked","effort_minutes":120,"repeated":false,"revision":4}"#,
        ),
        (
            Asked::Change(5, "cancel_group", r#""group":2"#),
            r#"{"count":2,"done":"cancelled","effort_minutes":120,"repeated":false,"revision":5}"#,
        ),
        (
            Asked::Change(6, "cancel_group", r#""group":2"#),
            r#"{"group":2,"refused":"not_booked","revision":5}"#,
        ),
        (
            Asked::Change(
                6,
                "move_group",
                r#""group":2,"start":"2025-01-06T09:00Z","picks":[1,3]"#,
            ),
            r#"{"group":2,"refused":"not_booked","revision":5}"#,
        ),
        (
            Asked::Change(
                6,
                "book_group",
                r#""group":2,"start":"2025-01-06T08:00Z","picks":[1,3]"#,
            ),
            r#"{"asked":1,"booking":null,"capacity":0,"minute":"2025-01-06T09:00Z","refused":"conflict","resource":3,"revision":5,"standing":0}"#,
        ),
    ];
    go_through_trial(&rt, rt.alloc(), &lines)
}

#[test]
fn one_of_several_ways_is_booked(rt: HostRuntime) -> Result<(), Fail> {
    let lines: [Line; 12] = [
        (
            Asked::Change(
                1,
                "put_group",
                r#""id":2,"name":"Visit","from":"2025-01-06T08:00Z","to":"2025-01-06T12:00Z","step":60,"tree":{"any":[{"leaf":{"duration":60,"effort":1,"required":[1]}},{"all":[{"leaf":{"duration":60,"effort":1,"required":[2]}},{"leaf":{"duration":30,"effort":1,"required":[3]}}],"same":"unit"}]}"#,
            ),
            r#"{"done":"put","repeated":false,"revision":1}"#,
        ),
        (
            Asked::Rows(2, 3),
            r#"{"end":false,"next":"1.28935960.1.-.-","revision":1,"rows":[["2025-01-06T08:00Z",1,null,null],["2025-01-06T09:00Z",1,null,null],["2025-01-06T10:00Z",1,null,null]]}"#,
        ),
        (
            Asked::Change(
                2,
                "book_group",
                r#""group":2,"start":"2025-01-06T10:00Z","picks":[1,2,3]"#,
            ),
            r#"{"leaf":1,"refused":"bad_shape","revision":1}"#,
        ),
        (
            Asked::Change(
                2,
                "book_group",
                r#""group":2,"start":"2025-01-06T10:00Z","picks":[null,2]"#,
            ),
            r#"{"leaf":2,"refused":"bad_shape","revision":1}"#,
        ),
        (
            Asked::Change(
                2,
                "book_group",
                r#""group":2,"start":"2025-01-06T10:00Z","picks":[null,2,3]"#,
            ),
            r#"{"bookings":[1,2],"done":"booked","effort_minutes":90,"repeated":false,"revision":2}"#,
        ),
        (
            Asked::Change(
                3,
                "move_group",
                r#""group":2,"start":"2025-01-06T11:00Z","picks":[1,null,null]"#,
            ),
            r#"{"bookings":[3],"done":"booked","effort_minutes":60,"repeated":false,"revision":3}"#,
        ),
        (
            Asked::Change(
                4,
                "put_group",
                r#""id":2,"name":"Visit","from":"2025-01-06T08:00Z","to":"2025-01-06T12:00Z","step":60,"tree":{"leaf":{"duration":60,"effort":1}}"#,
            ),
            r#"{"group":2,"refused":"not_open","revision":3}"#,
        ),
        (
            Asked::Change(4, "drop_group", r#""group":2"#),
            r#"{"group":2,"refused":"not_open","revision":3}"#,
        ),
        (
            Asked::Change(4, "cancel_group", r#""group":2"#),
            r#"{"count":1,"done":"cancelled","effort_minutes":60,"repeated":false,"revision":4}"#,
        ),
        (
            Asked::Change(5, "drop_group", r#""group":2"#),
            r#"{"done":"removed","repeated":false,"revision":5}"#,
        ),
        (
            Asked::Rows(2, 3),
            r#"{"key":[2,0,0],"refused":"unknown","revision":5,"table":"group"}"#,
        ),
        (
            Asked::Change(6, "drop_group", r#""group":2"#),
            r#"{"key":[2,0,0],"refused":"unknown","revision":5,"table":"group"}"#,
        ),
    ];
    go_through_trial(&rt, rt.alloc(), &lines)
}

/// A connection has its own number, which is 3 here.
#[test]
fn the_journal_shows_what_was_accepted(rt: HostRuntime) -> Result<(), Fail> {
    let lines: [Line; 14] = [
        (Asked::Journal(0), r#"{"entries":[],"revision":0}"#),
        (
            Asked::Change(
                1,
                "book_group",
                r#""group":1,"start":"2025-01-06T08:00Z","picks":[1]"#,
            ),
            r#"{"bookings":[1],"done":"booked","effort_minutes":60,"repeated":false,"revision":1}"#,
        ),
        (
            Asked::Change(
                1,
                "book_group",
                r#""group":1,"start":"2025-01-06T08:00Z","picks":[1]"#,
            ),
            r#"{"bookings":[1],"done":"booked","effort_minutes":60,"repeated":true,"revision":1}"#,
        ),
        (
            Asked::Change(
                2,
                "book_group",
                r#""group":1,"start":"2025-01-06T08:00Z","picks":[1]"#,
            ),
            r#"{"group":1,"refused":"not_open","revision":1}"#,
        ),
        (
            Asked::Change(2, "remove_unit", r#""id":1"#),
            r#"{"by_key":[1,0,0],"by_table":"resource","key":[1,0,0],"refused":"in_use","revision":1,"table":"unit"}"#,
        ),
        (
            Asked::Change(2, "put_unit", r#""id":2,"name":"North""#),
            r#"{"done":"put","repeated":false,"revision":2}"#,
        ),
        (
            Asked::Change(3, "remove_unit", r#""id":2"#),
            r#"{"done":"removed","repeated":false,"revision":3}"#,
        ),
        (
            Asked::Change(
                4,
                "move_group",
                r#""group":1,"start":"2025-01-06T09:00Z","picks":[1]"#,
            ),
            r#"{"bookings":[2],"done":"booked","effort_minutes":60,"repeated":false,"revision":4}"#,
        ),
        (
            Asked::Change(5, "cancel_group", r#""group":1"#),
            r#"{"count":1,"done":"cancelled","effort_minutes":60,"repeated":false,"revision":5}"#,
        ),
        (
            Asked::Change(6, "drop_group", r#""group":1"#),
            r#"{"done":"removed","repeated":false,"revision":6}"#,
        ),
        (
            Asked::Journal(3),
            r#"{"entries":[{"act":"move_group","caller":7,"number":4,"pass":3,"revision":4},{"act":"cancel_group","caller":7,"number":5,"pass":3,"revision":5},{"act":"drop_group","caller":7,"number":6,"pass":3,"revision":6}],"revision":6}"#,
        ),
        (
            Asked::Journal(0),
            r#"{"entries":[{"act":"book_group","caller":7,"number":1,"pass":3,"revision":1},{"act":"put_unit","caller":7,"number":2,"pass":3,"revision":2},{"act":"remove_unit","caller":7,"number":3,"pass":3,"revision":3},{"act":"move_group","caller":7,"number":4,"pass":3,"revision":4},{"act":"cancel_group","caller":7,"number":5,"pass":3,"revision":5},{"act":"drop_group","caller":7,"number":6,"pass":3,"revision":6}],"revision":6}"#,
        ),
        (Asked::Journal(6), r#"{"entries":[],"revision":6}"#),
        (
            Asked::Journal(1000000000000000),
            r#"{"entries":[],"revision":6}"#,
        ),
    ];
    go_through_trial(&rt, rt.alloc(), &lines)
}
