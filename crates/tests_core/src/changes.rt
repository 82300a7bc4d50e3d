//! Rows of every table, put and taken out, and changes that say when resources have room. The book is over the trial tables: Ann (1)
//! and Bob (2) work on Mondays from 08:00 to 12:00, and Cyd (3) from 10:00.
use crate::lines::{Asked, Line, go_through_trial};
use std::test::Fail;

/// A row that another names stays; the row of the least key that names it is shown.
#[test]
fn rows_of_each_table_are_put_and_taken_out_again(rt: HostRuntime) -> Result<(), Fail> {
    let lines: [Line; 40] = [
        (
            Asked::Change(
                1,
                "put_zone",
                r#""id":2,"name":"CET","shifts":[["2000-01-01T00:00Z",60]]"#,
            ),
            r#"{"done":"put","repeated":false,"revision":1}"#,
        ),
        (
            Asked::Change(2, "put_calendar", r#""id":3,"name":"Nights","zone":2"#),
            r#"{"done":"put","repeated":false,"revision":2}"#,
        ),
        (
            Asked::Change(
                3,
                "put_work",
                r#""calendar":3,"weekday":0,"from":480,"to":720,"capacity":1"#,
            ),
            r#"{"done":"put","repeated":false,"revision":3}"#,
        ),
        (
            Asked::Change(
                4,
                "put_break",
                r#""calendar":3,"weekday":0,"from":540,"to":550"#,
            ),
            r#"{"done":"put","repeated":false,"revision":4}"#,
        ),
        (
            Asked::Change(
                5,
                "put_day",
                r#""calendar":3,"day":"2025-01-06","from":480,"to":540,"capacity":2"#,
            ),
            r#"{"done":"put","repeated":false,"revision":5}"#,
        ),
        (
            Asked::Change(
                6,
                "put_off",
                r#""resource":3,"from":"2025-02-01T00:00Z","to":"2025-02-02T00:00Z""#,
            ),
            r#"{"done":"put","repeated":false,"revision":6}"#,
        ),
        (
            Asked::Change(7, "put_unit", r#""id":2,"name":"North""#),
            r#"{"done":"put","repeated":false,"revision":7}"#,
        ),
        (
            Asked::Change(8, "put_site", r#""id":2,"name":"Depot""#),
            r#"{"done":"put","repeated":false,"revision":8}"#,
        ),
        (
            Asked::Change(9, "put_role", r#""id":5,"name":"Fitter""#),
            r#"{"done":"put","repeated":false,"revision":9}"#,
        ),
        (
            Asked::Change(10, "put_characteristic", r#""id":6,"name":"Welding""#),
            r#"{"done":"put","repeated":false,"revision":10}"#,
        ),
        (
            Asked::Change(11, "put_territory", r#""id":7,"name":"Coast""#),
            r#"{"done":"put","repeated":false,"revision":11}"#,
        ),
        (
            Asked::Change(
                12,
                "put_resource",
                r#""id":10,"name":"Team","kind":"crew","calendar":null,"unit":2,"site":2"#,
            ),
            r#"{"done":"put","repeated":false,"revision":12}"#,
        ),
        (
            Asked::Change(13, "put_has_role", r#""resource":1,"what":5"#),
            r#"{"done":"put","repeated":false,"revision":13}"#,
        ),
        (
            Asked::Change(
                14,
                "put_has_characteristic",
                r#""resource":1,"what":6,"rating":3"#,
            ),
            r#"{"done":"put","repeated":false,"revision":14}"#,
        ),
        (
            Asked::Change(15, "put_has_territory", r#""resource":1,"what":7"#),
            r#"{"done":"put","repeated":false,"revision":15}"#,
        ),
        (
            Asked::Change(
                16,
                "put_member",
                r#""group":10,"member":2,"from":"2025-01-06T08:00Z","to":"2025-01-06T10:00Z""#,
            ),
            r#"{"done":"put","repeated":false,"revision":16}"#,
        ),
        (
            Asked::Change(17, "remove_zone", r#""id":2"#),
            r#"{"by_key":[3,0,0],"by_table":"calendar","key":[2,0,0],"refused":"in_use","revision":16,"table":"zone"}"#,
        ),
        (
            Asked::Change(17, "remove_calendar", r#""id":3"#),
            r#"{"by_key":[3,0,480],"by_table":"work","key":[3,0,0],"refused":"in_use","revision":16,"table":"calendar"}"#,
        ),
        (
            Asked::Change(17, "remove_unit", r#""id":2"#),
            r#"{"by_key":[10,0,0],"by_table":"resource","key":[2,0,0],"refused":"in_use","revision":16,"table":"unit"}"#,
        ),
        (
            Asked::Change(17, "remove_site", r#""id":2"#),
            r#"{"by_key":[10,0,0],"by_table":"resource","key":[2,0,0],"refused":"in_use","revision":16,"table":"site"}"#,
        ),
        (
            Asked::Change(17, "remove_role", r#""id":5"#),
            r#"{"by_key":[1,5,0],"by_table":"has_role","key":[5,0,0],"refused":"in_use","revision":16,"table":"role"}"#,
        ),
        (
            Asked::Change(17, "remove_characteristic", r#""id":6"#),
            r#"{"by_key":[1,6,0],"by_table":"has_characteristic","key":[6,0,0],"refused":"in_use","revision":16,"table":"characteristic"}"#,
        ),
        (
            Asked::Change(17, "remove_territory", r#""id":7"#),
            r#"{"by_key":[1,7,0],"by_table":"has_territory","key":[7,0,0],"refused":"in_use","revision":16,"table":"territory"}"#,
        ),
        (
            Asked::Change(17, "remove_resource", r#""id":10"#),
            r#"{"by_key":[10,2,28935840],"by_table":"member","key":[10,0,0],"refused":"in_use","revision":16,"table":"resource"}"#,
        ),
        (
            Asked::Change(
                17,
                "remove_member",
                r#""group":10,"member":2,"from":"2025-01-06T08:00Z""#,
            ),
            r#"{"done":"removed","repeated":false,"revision":17}"#,
        ),
        (
            Asked::Change(18, "remove_has_territory", r#""resource":1,"what":7"#),
            r#"{"done":"removed","repeated":false,"revision":18}"#,
        ),
        (
            Asked::Change(19, "remove_has_characteristic", r#""resource":1,"what":6"#),
            r#"{"done":"removed","repeated":false,"revision":19}"#,
        ),
        (
            Asked::Change(20, "remove_has_role", r#""resource":1,"what":5"#),
            r#"{"done":"removed","repeated":false,"revision":20}"#,
        ),
        (
            Asked::Change(21, "remove_resource", r#""id":10"#),
            r#"{"done":"removed","repeated":false,"revision":21}"#,
        ),
        (
            Asked::Change(22, "remove_territory", r#""id":7"#),
            r#"{"done":"removed","repeated":false,"revision":22}"#,
        ),
        (
            Asked::Change(23, "remove_characteristic", r#""id":6"#),
            r#"{"done":"removed","repeated":false,"revision":23}"#,
        ),
        (
            Asked::Change(24, "remove_role", r#""id":5"#),
            r#"{"done":"removed","repeated":false,"revision":24}"#,
        ),
        (
            Asked::Change(25, "remove_site", r#""id":2"#),
            r#"{"done":"removed","repeated":false,"revision":25}"#,
        ),
        (
            Asked::Change(26, "remove_unit", r#""id":2"#),
            r#"{"done":"removed","repeated":false,"revision":26}"#,
        ),
        (
            Asked::Change(
                27,
                "remove_off",
                r#""resource":3,"from":"2025-02-01T00:00Z""#,
            ),
            r#"{"done":"removed","repeated":false,"revision":27}"#,
        ),
        (
            Asked::Change(
                28,
                "remove_day",
                r#""calendar":3,"day":"2025-01-06","from":480"#,
            ),
            r#"{"done":"removed","repeated":false,"revision":28}"#,
        ),
        (
            Asked::Change(29, "remove_break", r#""calendar":3,"weekday":0,"from":540"#),
            r#"{"done":"removed","repeated":false,"revision":29}"#,
        ),
        (
            Asked::Change(30, "remove_work", r#""calendar":3,"weekday":0,"from":480"#),
            r#"{"done":"removed","repeated":false,"revision":30}"#,
        ),
        (
            Asked::Change(31, "remove_calendar", r#""id":3"#),
            r#"{"done":"removed","repeated":false,"revision":31}"#,
        ),
        (
            Asked::Change(32, "remove_zone", r#""id":2"#),
            r#"{"done":"removed","repeated":false,"revision":32}"#,
        ),
    ];
    go_through_trial(&rt, rt.alloc(), &lines)
}

#[test]
fn a_put_replaces_the_row_of_its_key(rt: HostRuntime) -> Result<(), Fail> {
    let lines: [Line; 6] = [
        (
            Asked::Change(
                1,
                "put_off",
                r#""resource":1,"from":"2025-01-06T08:00Z","to":"2025-01-06T12:00Z""#,
            ),
            r#"{"done":"put","repeated":false,"revision":1}"#,
        ),
        (
            Asked::Rows(1, 2),
            r#"{"end":false,"next":"1.28935900.2","revision":1,"rows":[["2025-01-06T08:00Z",2],["2025-01-06T09:00Z",2]]}"#,
        ),
        (
            Asked::Change(
                2,
                "put_off",
                r#""resource":1,"from":"2025-01-06T08:00Z","to":"2025-01-06T09:00Z""#,
            ),
            r#"{"done":"put","repeated":false,"revision":2}"#,
        ),
        (
            Asked::Rows(1, 2),
            r#"{"end":false,"next":"2.28935900.1","revision":2,"rows":[["2025-01-06T08:00Z",2],["2025-01-06T09:00Z",1]]}"#,
        ),
        (
            Asked::Change(
                3,
                "remove_off",
                r#""resource":1,"from":"2025-01-06T08:00Z""#,
            ),
            r#"{"done":"removed","repeated":false,"revision":3}"#,
        ),
        (
            Asked::Rows(1, 2),
            r#"{"end":false,"next":"3.28935840.2","revision":3,"rows":[["2025-01-06T08:00Z",1],["2025-01-06T08:00Z",2]]}"#,
        ),
    ];
    go_through_trial(&rt, rt.alloc(), &lines)
}

#[test]
fn work_that_a_booking_needs_stays(rt: HostRuntime) -> Result<(), Fail> {
    let lines: [Line; 13] = [
        (
            Asked::Change(
                1,
                "book_group",
                r#""group":1,"start":"2025-01-06T08:00Z","picks":[1]"#,
            ),
            r#"{"bookings":[1],"done":"booked","effort_minutes":60,"repeated":false,"revision":1}"#,
        ),
        (
            Asked::Change(2, "remove_work", r#""calendar":1,"weekday":0,"from":480"#),
            r#"{"asked":0,"booking":1,"capacity":0,"minute":"2025-01-06T08:00Z","refused":"conflict","resource":1,"revision":1,"standing":1}"#,
        ),
        (
            Asked::Change(
                2,
                "put_break",
                r#""calendar":1,"weekday":0,"from":480,"to":510"#,
            ),
            r#"{"asked":0,"booking":1,"capacity":0,"minute":"2025-01-06T08:00Z","refused":"conflict","resource":1,"revision":1,"standing":1}"#,
        ),
        (
            Asked::Change(
                2,
                "put_off",
                r#""resource":1,"from":"2025-01-06T08:30Z","to":"2025-01-06T09:00Z""#,
            ),
            r#"{"asked":0,"booking":1,"capacity":0,"minute":"2025-01-06T08:30Z","refused":"conflict","resource":1,"revision":1,"standing":1}"#,
        ),
        (
            Asked::Change(
                2,
                "put_zone",
                r#""id":1,"name":"CET","shifts":[["2000-01-01T00:00Z",-60]]"#,
            ),
            r#"{"asked":0,"booking":1,"capacity":0,"minute":"2025-01-06T08:00Z","refused":"conflict","resource":1,"revision":1,"standing":1}"#,
        ),
        (
            Asked::Change(
                2,
                "put_resource",
                r#""id":1,"name":"Ann","kind":"generic","calendar":2,"unit":1,"site":1"#,
            ),
            r#"{"asked":0,"booking":1,"capacity":0,"minute":"2025-01-06T08:00Z","refused":"conflict","resource":1,"revision":1,"standing":1}"#,
        ),
        (
            Asked::Change(
                2,
                "put_off",
                r#""resource":1,"from":"2025-01-06T09:00Z","to":"2025-01-06T12:00Z""#,
            ),
            r#"{"done":"put","repeated":false,"revision":2}"#,
        ),
        (
            Asked::Change(
                3,
                "put_off",
                r#""resource":2,"from":"2025-01-06T08:00Z","to":"2025-01-06T12:00Z""#,
            ),
            r#"{"done":"put","repeated":false,"revision":3}"#,
        ),
        (
            Asked::Change(
                4,
                "put_day",
                r#""calendar":1,"day":"2025-01-06","from":480,"to":540,"capacity":1"#,
            ),
            r#"{"done":"put","repeated":false,"revision":4}"#,
        ),
        (
            Asked::Change(5, "remove_work", r#""calendar":1,"weekday":0,"from":480"#),
            r#"{"done":"removed","repeated":false,"revision":5}"#,
        ),
        (
            Asked::Change(
                6,
                "remove_day",
                r#""calendar":1,"day":"2025-01-06","from":480"#,
            ),
            r#"{"asked":0,"booking":1,"capacity":0,"minute":"2025-01-06T08:00Z","refused":"conflict","resource":1,"revision":5,"standing":1}"#,
        ),
        (
            Asked::Change(6, "cancel_group", r#""group":1"#),
            r#"{"count":1,"done":"cancelled","effort_minutes":60,"repeated":false,"revision":6}"#,
        ),
        (
            Asked::Change(
                7,
                "remove_day",
                r#""calendar":1,"day":"2025-01-06","from":480"#,
            ),
            r#"{"done":"removed","repeated":false,"revision":7}"#,
        ),
    ];
    go_through_trial(&rt, rt.alloc(), &lines)
}

#[test]
fn a_day_of_its_own_takes_the_place_of_the_work(rt: HostRuntime) -> Result<(), Fail> {
    let lines: [Line; 4] = [
        (
            Asked::Change(
                1,
                "book_group",
                r#""group":1,"start":"2025-01-06T08:00Z","picks":[1]"#,
            ),
            r#"{"bookings":[1],"done":"booked","effort_minutes":60,"repeated":false,"revision":1}"#,
        ),
        (
            Asked::Change(
                2,
                "put_day",
                r#""calendar":1,"day":"2025-01-06","from":480,"to":540,"capacity":1"#,
            ),
            r#"{"done":"put","repeated":false,"revision":2}"#,
        ),
        (
            Asked::Change(
                3,
                "put_group",
                r#""id":2,"name":"Visit","from":"2025-01-06T08:00Z","to":"2025-01-06T12:00Z","step":60,"tree":{"leaf":{"duration":60,"effort":1}}"#,
            ),
            r#"{"done":"put","repeated":false,"revision":3}"#,
        ),
        (
            Asked::Rows(2, 50),
            r#"{"end":true,"next":"3.28936020.3","revision":3,"rows":[["2025-01-06T08:00Z",2],["2025-01-06T10:00Z",3],["2025-01-06T11:00Z",3]]}"#,
        ),
    ];
    go_through_trial(&rt, rt.alloc(), &lines)
}

#[test]
fn a_pool_has_the_room_of_its_members(rt: HostRuntime) -> Result<(), Fail> {
    let lines: [Line; 9] = [
        (
            Asked::Change(
                1,
                "put_resource",
                r#""id":20,"name":"Pool","kind":"pool","calendar":null,"unit":1,"site":1"#,
            ),
            r#"{"done":"put","repeated":false,"revision":1}"#,
        ),
        (
            Asked::Change(
                2,
                "put_member",
                r#""group":20,"member":1,"from":"2025-01-06T08:00Z","to":"2025-01-06T12:00Z""#,
            ),
            r#"{"done":"put","repeated":false,"revision":2}"#,
        ),
        (
            Asked::Change(
                3,
                "put_member",
                r#""group":20,"member":2,"from":"2025-01-06T08:00Z","to":"2025-01-06T12:00Z""#,
            ),
            r#"{"done":"put","repeated":false,"revision":3}"#,
        ),
        (
            Asked::Change(
                4,
                "book_group",
                r#""group":1,"start":"2025-01-06T08:00Z","picks":[20]"#,
            ),
            r#"{"bookings":[1],"done":"booked","effort_minutes":60,"repeated":false,"revision":4}"#,
        ),
        (
            Asked::Change(
                5,
                "remove_member",
                r#""group":20,"member":1,"from":"2025-01-06T08:00Z""#,
            ),
            r#"{"done":"removed","repeated":false,"revision":5}"#,
        ),
        (
            Asked::Change(
                6,
                "remove_member",
                r#""group":20,"member":2,"from":"2025-01-06T08:00Z""#,
            ),
            r#"{"asked":0,"booking":1,"capacity":0,"minute":"2025-01-06T08:00Z","refused":"conflict","resource":20,"revision":5,"standing":1}"#,
        ),
        (
            Asked::Change(
                6,
                "put_off",
                r#""resource":2,"from":"2025-01-06T08:45Z","to":"2025-01-06T08:50Z""#,
            ),
            r#"{"asked":0,"booking":1,"capacity":0,"minute":"2025-01-06T08:45Z","refused":"conflict","resource":20,"revision":5,"standing":1}"#,
        ),
        (
            Asked::Change(
                6,
                "put_off",
                r#""resource":1,"from":"2025-01-06T08:45Z","to":"2025-01-06T08:50Z""#,
            ),
            r#"{"done":"put","repeated":false,"revision":6}"#,
        ),
        (
            Asked::Change(7, "remove_resource", r#""id":20"#),
            r#"{"by_key":[20,2,28935840],"by_table":"member","key":[20,0,0],"refused":"in_use","revision":6,"table":"resource"}"#,
        ),
    ];
    go_through_trial(&rt, rt.alloc(), &lines)
}

#[test]
fn a_crew_loads_its_members(rt: HostRuntime) -> Result<(), Fail> {
    let lines: [Line; 11] = [
        (
            Asked::Change(
                1,
                "put_resource",
                r#""id":10,"name":"Crew","kind":"crew","calendar":null,"unit":1,"site":1"#,
            ),
            r#"{"done":"put","repeated":false,"revision":1}"#,
        ),
        (
            Asked::Change(
                2,
                "put_member",
                r#""group":10,"member":1,"from":"2025-01-06T08:00Z","to":"2025-01-06T10:00Z""#,
            ),
            r#"{"done":"put","repeated":false,"revision":2}"#,
        ),
        (
            Asked::Change(
                3,
                "put_member",
                r#""group":10,"member":2,"from":"2025-01-06T10:00Z","to":"2025-01-06T12:00Z""#,
            ),
            r#"{"done":"put","repeated":false,"revision":3}"#,
        ),
        (
            Asked::Change(
                4,
                "put_group",
                r#""id":2,"name":"Visit","from":"2025-01-06T08:00Z","to":"2025-01-06T12:00Z","step":30,"tree":{"leaf":{"duration":60,"effort":1,"kinds":["crew"]}}"#,
            ),
            r#"{"done":"put","repeated":false,"revision":4}"#,
        ),
        (
            Asked::Change(
                5,
                "book_group",
                r#""group":2,"start":"2025-01-06T09:30Z","picks":[10]"#,
            ),
            r#"{"bookings":[1],"done":"booked","effort_minutes":60,"repeated":false,"revision":5}"#,
        ),
        (
            Asked::Change(
                6,
                "book_group",
                r#""group":1,"start":"2025-01-06T10:00Z","picks":[2]"#,
            ),
            r#"{"asked":1,"booking":1,"capacity":1,"minute":"2025-01-06T10:00Z","refused":"conflict","resource":2,"revision":5,"standing":1}"#,
        ),
        (
            Asked::Change(
                6,
                "put_off",
                r#""resource":1,"from":"2025-01-06T09:45Z","to":"2025-01-06T11:00Z""#,
            ),
            r#"{"asked":0,"booking":1,"capacity":0,"minute":"2025-01-06T09:45Z","refused":"conflict","resource":1,"revision":5,"standing":1}"#,
        ),
        (
            Asked::Change(
                6,
                "remove_member",
                r#""group":10,"member":2,"from":"2025-01-06T10:00Z""#,
            ),
            r#"{"asked":0,"booking":1,"capacity":0,"minute":"2025-01-06T10:00Z","refused":"conflict","resource":10,"revision":5,"standing":1}"#,
        ),
        (
            Asked::Change(
                6,
                "book_group",
                r#""group":1,"start":"2025-01-06T10:00Z","picks":[1]"#,
            ),
            r#"{"bookings":[2],"done":"booked","effort_minutes":60,"repeated":false,"revision":6}"#,
        ),
        (
            Asked::Change(
                7,
                "put_member",
                r#""group":10,"member":1,"from":"2025-01-06T08:00Z","to":"2025-01-06T11:00Z""#,
            ),
            r#"{"asked":0,"booking":1,"capacity":1,"minute":"2025-01-06T10:00Z","refused":"conflict","resource":1,"revision":6,"standing":2}"#,
        ),
        (
            Asked::Change(
                7,
                "put_member",
                r#""group":10,"member":3,"from":"2025-01-06T11:00Z","to":"2025-01-06T12:00Z""#,
            ),
            r#"{"done":"put","repeated":false,"revision":7}"#,
        ),
    ];
    go_through_trial(&rt, rt.alloc(), &lines)
}
