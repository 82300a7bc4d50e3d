//! Worked schedules: trees with roles and units, crews, pools, a capacity of three, and the end of the horizon. The book is over the trial
//! tables: Ann (1) and Bob (2) work on Mondays from 08:00 to 12:00, and Cyd (3) from 10:00.
use crate::lines::{Asked, Line, go_through_trial};
use std::test::Fail;

#[test]
fn one_role_or_two_others(rt: HostRuntime) -> Result<(), Fail> {
    let lines: [Line; 11] = [
        (
            Asked::Change(1, "put_role", r#""id":1,"name":"Role""#),
            r#"{"done":"put","repeated":false,"revision":1}"#,
        ),
        (
            Asked::Change(2, "put_role", r#""id":2,"name":"Role""#),
            r#"{"done":"put","repeated":false,"revision":2}"#,
        ),
        (
            Asked::Change(3, "put_role", r#""id":3,"name":"Role""#),
            r#"{"done":"put","repeated":false,"revision":3}"#,
        ),
        (
            Asked::Change(4, "put_has_role", r#""resource":1,"what":1"#),
            r#"{"done":"put","repeated":false,"revision":4}"#,
        ),
        (
            Asked::Change(5, "put_has_role", r#""resource":2,"what":2"#),
            r#"{"done":"put","repeated":false,"revision":5}"#,
        ),
        (
            Asked::Change(6, "put_has_role", r#""resource":3,"what":3"#),
            r#"{"done":"put","repeated":false,"revision":6}"#,
        ),
        (
            Asked::Change(
                7,
                "put_group",
                r#""id":2,"name":"Visit","from":"2025-01-06T10:00Z","to":"2025-01-06T11:00Z","step":60,"tree":{"any":[{"leaf":{"duration":60,"effort":1,"roles":[1]}},{"all":[{"leaf":{"duration":60,"effort":1,"roles":[2]}},{"leaf":{"duration":60,"effort":1,"roles":[3]}}]}]}"#,
            ),
            r#"{"done":"put","repeated":false,"revision":7}"#,
        ),
        (
            Asked::Rows(2, 50),
            r#"{"end":true,"next":"7.28935960.-.2.3","revision":7,"rows":[["2025-01-06T10:00Z",1,null,null],["2025-01-06T10:00Z",null,2,3]]}"#,
        ),
        (
            Asked::Change(
                8,
                "book_group",
                r#""group":2,"start":"2025-01-06T10:00Z","picks":[1,2,null]"#,
            ),
            r#"{"leaf":1,"refused":"bad_shape","revision":7}"#,
        ),
        (
            Asked::Change(
                8,
                "book_group",
                r#""group":2,"start":"2025-01-06T10:00Z","picks":[2,null,null]"#,
            ),
            r#"{"leaf":0,"refused":"not_eligible","resource":2,"revision":7,"rule":"role"}"#,
        ),
        (
            Asked::Change(
                8,
                "book_group",
                r#""group":2,"start":"2025-01-06T10:00Z","picks":[null,2,3]"#,
            ),
            r#"{"bookings":[1,2],"done":"booked","effort_minutes":120,"repeated":false,"revision":8}"#,
        ),
    ];
    go_through_trial(&rt, rt.alloc(), &lines)
}

#[test]
fn two_of_one_unit(rt: HostRuntime) -> Result<(), Fail> {
    let lines: [Line; 9] = [
        (
            Asked::Change(1, "put_unit", r#""id":2,"name":"North""#),
            r#"{"done":"put","repeated":false,"revision":1}"#,
        ),
        (
            Asked::Change(2, "put_unit", r#""id":3,"name":"South""#),
            r#"{"done":"put","repeated":false,"revision":2}"#,
        ),
        (
            Asked::Change(
                3,
                "put_resource",
                r#""id":4,"name":"X","kind":"user","calendar":1,"unit":2,"site":1"#,
            ),
            r#"{"done":"put","repeated":false,"revision":3}"#,
        ),
        (
            Asked::Change(
                4,
                "put_resource",
                r#""id":5,"name":"X","kind":"user","calendar":1,"unit":2,"site":1"#,
            ),
            r#"{"done":"put","repeated":false,"revision":4}"#,
        ),
        (
            Asked::Change(
                5,
                "put_resource",
                r#""id":6,"name":"X","kind":"user","calendar":1,"unit":3,"site":1"#,
            ),
            r#"{"done":"put","repeated":false,"revision":5}"#,
        ),
        (
            Asked::Change(
                6,
                "put_resource",
                r#""id":7,"name":"X","kind":"user","calendar":1,"unit":3,"site":1"#,
            ),
            r#"{"done":"put","repeated":false,"revision":6}"#,
        ),
        (
            Asked::Change(
                7,
                "put_group",
                r#""id":2,"name":"Visit","from":"2025-01-06T08:00Z","to":"2025-01-06T09:00Z","step":60,"tree":{"all":[{"leaf":{"duration":60,"effort":1,"required":[4,5,6,7]}},{"leaf":{"duration":60,"effort":1,"required":[4,5,6,7]}}],"same":"unit"}"#,
            ),
            r#"{"done":"put","repeated":false,"revision":7}"#,
        ),
        (
            Asked::Rows(2, 50),
            r#"{"end":true,"next":"7.28935840.7.6","revision":7,"rows":[["2025-01-06T08:00Z",4,5],["2025-01-06T08:00Z",5,4],["2025-01-06T08:00Z",6,7],["2025-01-06T08:00Z",7,6]]}"#,
        ),
        (
            Asked::Change(
                8,
                "book_group",
                r#""group":2,"start":"2025-01-06T08:00Z","picks":[4,6]"#,
            ),
            r#"{"node":0,"refused":"not_same","revision":7}"#,
        ),
    ];
    go_through_trial(&rt, rt.alloc(), &lines)
}

#[test]
fn a_crew_and_its_member_are_not_both_free(rt: HostRuntime) -> Result<(), Fail> {
    let lines: [Line; 6] = [
        (
            Asked::Change(
                1,
                "put_resource",
                r#""id":10,"name":"Crew","kind":"crew","calendar":null,"unit":1,"site":1"#,
            ),
            r#"{"done":"put","repeated":false,"revision":1}"#,
        ),
        (
            Asked::Change(
                2,
                "put_member",
                r#""group":10,"member":1,"from":"2025-01-06T08:00Z","to":"2025-01-06T12:00Z""#,
            ),
            r#"{"done":"put","repeated":false,"revision":2}"#,
        ),
        (
            Asked::Change(
                3,
                "put_group",
                r#""id":2,"name":"Visit","from":"2025-01-06T08:00Z","to":"2025-01-06T09:00Z","step":60,"tree":{"all":[{"leaf":{"duration":60,"effort":1,"kinds":["crew"]}},{"leaf":{"duration":60,"effort":1,"kinds":["generic"]}}]}"#,
            ),
            r#"{"done":"put","repeated":false,"revision":3}"#,
        ),
        (
            Asked::Rows(2, 50),
            r#"{"end":true,"next":"3.28935840.10.2","revision":3,"rows":[["2025-01-06T08:00Z",10,2]]}"#,
        ),
        (
            Asked::Change(
                4,
                "book_group",
                r#""group":2,"start":"2025-01-06T08:00Z","picks":[10,1]"#,
            ),
            r#"{"asked":2,"booking":null,"capacity":1,"minute":"2025-01-06T08:00Z","refused":"conflict","resource":1,"revision":3,"standing":0}"#,
        ),
        (
            Asked::Change(
                4,
                "book_group",
                r#""group":2,"start":"2025-01-06T08:00Z","picks":[10,2]"#,
            ),
            r#"{"bookings":[1,2],"done":"booked","effort_minutes":120,"repeated":false,"revision":4}"#,
        ),
    ];
    go_through_trial(&rt, rt.alloc(), &lines)
}

#[test]
fn a_pool_is_full_where_its_members_are(rt: HostRuntime) -> Result<(), Fail> {
    let lines: [Line; 8] = [
        (
            Asked::Change(
                1,
                "put_resource",
                r#""id":20,"name":"Pool","kind":"pool","calendar":null,"unit":1,"site":1"#,
            ),
            r#"{"done":"put","repeated":false,"revision":1}"#,
        ),
        (
            Asked::Change(
                2,
                "put_member",
                r#""group":20,"member":1,"from":"2025-01-06T08:00Z","to":"2025-01-06T12:00Z""#,
            ),
            r#"{"done":"put","repeated":false,"revision":2}"#,
        ),
        (
            Asked::Change(
                3,
                "put_member",
                r#""group":20,"member":2,"from":"2025-01-06T08:00Z","to":"2025-01-06T12:00Z""#,
            ),
            r#"{"done":"put","repeated":false,"revision":3}"#,
        ),
        (
            Asked::Change(
                4,
                "put_group",
                r#""id":2,"name":"Visit","from":"2025-01-06T08:00Z","to":"2025-01-06T12:00Z","step":60,"tree":{"leaf":{"duration":60,"effort":1}}"#,
            ),
            r#"{"done":"put","repeated":false,"revision":4}"#,
        ),
        (
            Asked::Change(
                5,
                "put_group",
                r#""id":3,"name":"Visit","from":"2025-01-06T08:00Z","to":"2025-01-06T12:00Z","step":60,"tree":{"leaf":{"duration":60,"effort":1}}"#,
            ),
            r#"{"done":"put","repeated":false,"revision":5}"#,
        ),
        (
            Asked::Change(
                6,
                "book_group",
                r#""group":1,"start":"2025-01-06T08:00Z","picks":[1]"#,
            ),
            r#"{"bookings":[1],"done":"booked","effort_minutes":60,"repeated":false,"revision":6}"#,
        ),
        (
            Asked::Change(
                7,
                "book_group",
                r#""group":2,"start":"2025-01-06T08:00Z","picks":[2]"#,
            ),
            r#"{"bookings":[2],"done":"booked","effort_minutes":60,"repeated":false,"revision":7}"#,
        ),
        (
            Asked::Change(
                8,
                "book_group",
                r#""group":3,"start":"2025-01-06T08:00Z","picks":[20]"#,
            ),
            r#"{"asked":1,"booking":1,"capacity":2,"minute":"2025-01-06T08:00Z","refused":"conflict","resource":20,"revision":7,"standing":2}"#,
        ),
    ];
    go_through_trial(&rt, rt.alloc(), &lines)
}

#[test]
fn a_membership_that_ends_in_the_morning(rt: HostRuntime) -> Result<(), Fail> {
    let lines: [Line; 7] = [
        (
            Asked::Change(
                1,
                "put_resource",
                r#""id":10,"name":"Crew","kind":"crew","calendar":null,"unit":1,"site":1"#,
            ),
            r#"{"done":"put","repeated":false,"revision":1}"#,
        ),
        (
            Asked::Change(
                2,
                "put_member",
                r#""group":10,"member":1,"from":"2025-01-06T08:00Z","to":"2025-01-06T10:00Z""#,
            ),
            r#"{"done":"put","repeated":false,"revision":2}"#,
        ),
        (
            Asked::Change(
                3,
                "put_group",
                r#""id":2,"name":"Visit","from":"2025-01-06T08:00Z","to":"2025-01-06T12:00Z","step":30,"tree":{"leaf":{"duration":60,"effort":1,"kinds":["crew"]}}"#,
            ),
            r#"{"done":"put","repeated":false,"revision":3}"#,
        ),
        (
            Asked::Rows(2, 50),
            r#"{"end":true,"next":"3.28935900.10","revision":3,"rows":[["2025-01-06T08:00Z",10],["2025-01-06T08:30Z",10],["2025-01-06T09:00Z",10]]}"#,
        ),
        (
            Asked::Change(
                4,
                "book_group",
                r#""group":2,"start":"2025-01-06T09:30Z","picks":[10]"#,
            ),
            r#"{"asked":1,"booking":null,"capacity":0,"minute":"2025-01-06T10:00Z","refused":"conflict","resource":10,"revision":3,"standing":0}"#,
        ),
        (
            Asked::Change(
                4,
                "book_group",
                r#""group":2,"start":"2025-01-06T09:00Z","picks":[10]"#,
            ),
            r#"{"bookings":[1],"done":"booked","effort_minutes":60,"repeated":false,"revision":4}"#,
        ),
        (
            Asked::Change(
                5,
                "remove_member",
                r#""group":10,"member":1,"from":"2025-01-06T08:00Z""#,
            ),
            r#"{"asked":0,"booking":1,"capacity":0,"minute":"2025-01-06T09:00Z","refused":"conflict","resource":10,"revision":4,"standing":1}"#,
        ),
    ];
    go_through_trial(&rt, rt.alloc(), &lines)
}

#[test]
fn a_capacity_of_three(rt: HostRuntime) -> Result<(), Fail> {
    let lines: [Line; 8] = [
        (
            Asked::Change(1, "put_calendar", r#""id":3,"name":"Hall","zone":1"#),
            r#"{"done":"put","repeated":false,"revision":1}"#,
        ),
        (
            Asked::Change(
                2,
                "put_work",
                r#""calendar":3,"weekday":0,"from":480,"to":720,"capacity":3"#,
            ),
            r#"{"done":"put","repeated":false,"revision":2}"#,
        ),
        (
            Asked::Change(
                3,
                "put_resource",
                r#""id":4,"name":"Hall","kind":"facility","calendar":3,"unit":1,"site":1"#,
            ),
            r#"{"done":"put","repeated":false,"revision":3}"#,
        ),
        (
            Asked::Change(
                4,
                "put_group",
                r#""id":2,"name":"Visit","from":"2025-01-06T08:00Z","to":"2025-01-06T12:00Z","step":60,"tree":{"all":[{"leaf":{"duration":60,"effort":2,"required":[4]}},{"leaf":{"duration":60,"effort":1,"required":[4]}}]}"#,
            ),
            r#"{"done":"put","repeated":false,"revision":4}"#,
        ),
        (
            Asked::Change(
                5,
                "put_group",
                r#""id":3,"name":"Visit","from":"2025-01-06T08:00Z","to":"2025-01-06T12:00Z","step":60,"tree":{"leaf":{"duration":60,"effort":1,"required":[4]}}"#,
            ),
            r#"{"done":"put","repeated":false,"revision":5}"#,
        ),
        (
            Asked::Change(
                6,
                "book_group",
                r#""group":2,"start":"2025-01-06T08:00Z","picks":[4,4]"#,
            ),
            r#"{"bookings":[1,2],"done":"booked","effort_minutes":180,"repeated":false,"revision":6}"#,
        ),
        (
            Asked::Change(
                7,
                "book_group",
                r#""group":3,"start":"2025-01-06T08:00Z","picks":[4]"#,
            ),
            r#"{"asked":1,"booking":1,"capacity":3,"minute":"2025-01-06T08:00Z","refused":"conflict","resource":4,"revision":6,"standing":3}"#,
        ),
        (
            Asked::Change(
                7,
                "book_group",
                r#""group":3,"start":"2025-01-06T09:00Z","picks":[4]"#,
            ),
            r#"{"bookings":[3],"done":"booked","effort_minutes":60,"repeated":false,"revision":7}"#,
        ),
    ];
    go_through_trial(&rt, rt.alloc(), &lines)
}

#[test]
fn a_time_off_over_a_booking_waits_for_its_cancelling(rt: HostRuntime) -> Result<(), Fail> {
    let lines: [Line; 5] = [
        (
            Asked::Change(
                1,
                "book_group",
                r#""group":1,"start":"2025-01-06T08:00Z","picks":[1]"#,
            ),
            r#"{"bookings":[1],"done":"booked","effort_minutes":60,"repeated":false,"revision":1}"#,
        ),
        (
            Asked::Change(
                2,
                "put_off",
                r#""resource":1,"from":"2025-01-06T08:30Z","to":"2025-01-06T09:00Z""#,
            ),
            r#"{"asked":0,"booking":1,"capacity":0,"minute":"2025-01-06T08:30Z","refused":"conflict","resource":1,"revision":1,"standing":1}"#,
        ),
        (
            Asked::Change(2, "cancel_group", r#""group":1"#),
            r#"{"count":1,"done":"cancelled","effort_minutes":60,"repeated":false,"revision":2}"#,
        ),
        (
            Asked::Change(
                3,
                "put_off",
                r#""resource":1,"from":"2025-01-06T08:30Z","to":"2025-01-06T09:00Z""#,
            ),
            r#"{"done":"put","repeated":false,"revision":3}"#,
        ),
        (
            Asked::Change(4, "cancel_group", r#""group":1"#),
            r#"{"group":1,"refused":"not_booked","revision":3}"#,
        ),
    ];
    go_through_trial(&rt, rt.alloc(), &lines)
}

#[test]
fn the_last_hour_of_the_horizon(rt: HostRuntime) -> Result<(), Fail> {
    let lines: [Line; 6] = [
        (
            Asked::Change(1, "put_calendar", r#""id":3,"name":"Late","zone":1"#),
            r#"{"done":"put","repeated":false,"revision":1}"#,
        ),
        (
            Asked::Change(
                2,
                "put_work",
                r#""calendar":3,"weekday":3,"from":1380,"to":1440,"capacity":1"#,
            ),
            r#"{"done":"put","repeated":false,"revision":2}"#,
        ),
        (
            Asked::Change(
                3,
                "put_resource",
                r#""id":4,"name":"Dan","kind":"user","calendar":3,"unit":1,"site":1"#,
            ),
            r#"{"done":"put","repeated":false,"revision":3}"#,
        ),
        (
            Asked::Change(
                4,
                "put_group",
                r#""id":2,"name":"Visit","from":"2099-12-31T23:00Z","to":"2099-12-31T23:00Z","step":60,"tree":{"leaf":{"duration":60,"effort":1,"required":[4]}}"#,
            ),
            r#"{"field":"to","refused":"bad_field","revision":3}"#,
        ),
        (
            Asked::Change(
                4,
                "put_group",
                r#""id":2,"name":"Visit","from":"2099-12-31T23:00Z","to":"2100-01-01T00:00Z","step":60,"tree":{"leaf":{"duration":60,"effort":1,"required":[4]}}"#,
            ),
            r#"{"done":"put","repeated":false,"revision":4}"#,
        ),
        (
            Asked::Change(
                5,
                "book_group",
                r#""group":2,"start":"2099-12-31T23:00Z","picks":[4]"#,
            ),
            r#"{"bookings":[1],"done":"booked","effort_minutes":60,"repeated":false,"revision":5}"#,
        ),
    ];
    go_through_trial(&rt, rt.alloc(), &lines)
}
