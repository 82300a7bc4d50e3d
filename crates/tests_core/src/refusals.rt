//! Each refusal by itself, and beside the next one that applies: the earlier is answered. The book is over the trial tables: Ann (1) and
//! Bob (2) work on Mondays from 08:00 to 12:00, and Cyd (3) from 10:00; all stand in unit 1.
use crate::lines::{Asked, Line, go_through_trial};
use std::test::Fail;

#[test]
fn numbers_come_first(rt: HostRuntime) -> Result<(), Fail> {
    let lines: [Line; 7] = [
        (
            Asked::Change(2, "put_unit", r#""id":0,"name":"X""#),
            r#"{"last":0,"refused":"skipped_number","revision":0}"#,
        ),
        (
            Asked::Change(1, "put_unit", r#""id":0,"name":"X""#),
            r#"{"field":"id","refused":"bad_field","revision":0}"#,
        ),
        (
            Asked::Change(1, "put_unit", r#""id":2,"name":"X""#),
            r#"{"done":"put","repeated":false,"revision":1}"#,
        ),
        (
            Asked::Change(1, "remove_unit", r#""id":9"#),
            r#"{"done":"put","repeated":true,"revision":1}"#,
        ),
        (
            Asked::Change(3, "remove_unit", r#""id":9"#),
            r#"{"last":1,"refused":"skipped_number","revision":1}"#,
        ),
        (
            Asked::Change(2, "put_unit", r#""id":2,"name":"Y""#),
            r#"{"done":"put","repeated":false,"revision":2}"#,
        ),
        (
            Asked::Change(1, "put_unit", r#""id":0,"name":"X""#),
            r#"{"last":2,"refused":"old_number","revision":2}"#,
        ),
    ];
    go_through_trial(&rt, rt.alloc(), &lines)
}

#[test]
fn what_is_not_there_comes_before_what_is_out_of_range(rt: HostRuntime) -> Result<(), Fail> {
    let lines: [Line; 19] = [
        (
            Asked::Change(1, "put_calendar", r#""id":3,"name":"","zone":9"#),
            r#"{"key":[9,0,0],"refused":"unknown","revision":0,"table":"zone"}"#,
        ),
        (
            Asked::Change(1, "put_calendar", r#""id":3,"name":"","zone":1"#),
            r#"{"field":"name","refused":"bad_field","revision":0}"#,
        ),
        (
            Asked::Change(
                1,
                "put_resource",
                r#""id":4,"name":"X","kind":"generic","calendar":9,"unit":8,"site":7"#,
            ),
            r#"{"key":[9,0,0],"refused":"unknown","revision":0,"table":"calendar"}"#,
        ),
        (
            Asked::Change(
                1,
                "put_resource",
                r#""id":4,"name":"X","kind":"generic","calendar":1,"unit":8,"site":7"#,
            ),
            r#"{"key":[8,0,0],"refused":"unknown","revision":0,"table":"unit"}"#,
        ),
        (
            Asked::Change(1, "put_has_role", r#""resource":9,"what":9"#),
            r#"{"key":[9,0,0],"refused":"unknown","revision":0,"table":"resource"}"#,
        ),
        (
            Asked::Change(1, "put_has_role", r#""resource":1,"what":9"#),
            r#"{"key":[9,0,0],"refused":"unknown","revision":0,"table":"role"}"#,
        ),
        (
            Asked::Change(
                1,
                "put_member",
                r#""group":1,"member":9,"from":"2025-01-06T08:00Z","to":"2025-01-06T08:00Z""#,
            ),
            r#"{"key":[9,0,0],"refused":"unknown","revision":0,"table":"resource"}"#,
        ),
        (
            Asked::Change(
                1,
                "put_member",
                r#""group":1,"member":2,"from":"2025-01-06T08:00Z","to":"2025-01-06T08:00Z""#,
            ),
            r#"{"field":"group","refused":"bad_field","revision":0}"#,
        ),
        (
            Asked::Change(
                1,
                "put_off",
                r#""resource":1,"from":"2025-01-06T08:00Z","to":"2025-01-06T08:00Z""#,
            ),
            r#"{"field":"to","refused":"bad_field","revision":0}"#,
        ),
        (
            Asked::Change(
                1,
                "put_work",
                r#""calendar":1,"weekday":0,"from":700,"to":800,"capacity":1"#,
            ),
            r#"{"field":"overlap","refused":"bad_field","revision":0}"#,
        ),
        (
            Asked::Change(
                1,
                "put_work",
                r#""calendar":1,"weekday":7,"from":700,"to":700,"capacity":0"#,
            ),
            r#"{"field":"weekday","refused":"bad_field","revision":0}"#,
        ),
        (
            Asked::Change(
                1,
                "put_resource",
                r#""id":1,"name":"Ann","kind":"crew","calendar":null,"unit":1,"site":1"#,
            ),
            r#"{"field":"kind","refused":"bad_field","revision":0}"#,
        ),
        (
            Asked::Change(
                1,
                "put_group",
                r#""id":2,"name":"Visit","from":"2025-01-06T08:00Z","to":"2025-01-06T12:00Z","step":60,"tree":{"leaf":{"duration":60,"effort":1,"roles":[9]}}"#,
            ),
            r#"{"key":[9,0,0],"refused":"unknown","revision":0,"table":"role"}"#,
        ),
        (
            Asked::Change(
                1,
                "put_group",
                r#""id":2,"name":"Visit","from":"2025-01-06T08:00Z","to":"2025-01-06T12:00Z","step":4,"tree":{"all":[]}"#,
            ),
            r#"{"field":"step","refused":"bad_field","revision":0}"#,
        ),
        (
            Asked::Change(
                1,
                "put_group",
                r#""id":2,"name":"Visit","from":"2025-01-06T08:00Z","to":"2025-01-06T12:00Z","step":60,"tree":{"all":[]}"#,
            ),
            r#"{"node":0,"refused":"bad_tree","revision":0,"rule":"childless"}"#,
        ),
        (
            Asked::Change(
                1,
                "book_group",
                r#""group":9,"start":"2025-01-06T08:00Z","picks":[9]"#,
            ),
            r#"{"key":[9,0,0],"refused":"unknown","revision":0,"table":"group"}"#,
        ),
        (
            Asked::Change(
                1,
                "book_group",
                r#""group":1,"start":"2025-01-06T08:00Z","picks":[9]"#,
            ),
            r#"{"key":[9,0,0],"refused":"unknown","revision":0,"table":"resource"}"#,
        ),
        (
            Asked::Change(1, "remove_work", r#""calendar":1,"weekday":0,"from":481"#),
            r#"{"key":[1,0,481],"refused":"unknown","revision":0,"table":"work"}"#,
        ),
        (
            Asked::Change(1, "remove_unit", r#""id":1"#),
            r#"{"by_key":[1,0,0],"by_table":"resource","key":[1,0,0],"refused":"in_use","revision":0,"table":"unit"}"#,
        ),
    ];
    go_through_trial(&rt, rt.alloc(), &lines)
}

#[test]
fn a_bad_tree_comes_before_a_booked_group(rt: HostRuntime) -> Result<(), Fail> {
    let lines: [Line; 7] = [
        (
            Asked::Change(
                1,
                "book_group",
                r#""group":1,"start":"2025-01-06T08:00Z","picks":[1]"#,
            ),
            r#"{"bookings":[1],"done":"booked","effort_minutes":60,"repeated":false,"revision":1}"#,
        ),
        (
            Asked::Change(
                2,
                "put_group",
                r#""id":1,"name":"Visit","from":"2025-01-06T08:00Z","to":"2025-01-06T12:00Z","step":60,"tree":{"all":[{"any":[]}]}"#,
            ),
            r#"{"node":1,"refused":"bad_tree","revision":1,"rule":"childless"}"#,
        ),
        (
            Asked::Change(
                2,
                "put_group",
                r#""id":1,"name":"Visit","from":"2025-01-06T08:00Z","to":"2025-01-06T12:00Z","step":60,"tree":{"leaf":{"duration":60,"effort":1}}"#,
            ),
            r#"{"group":1,"refused":"not_open","revision":1}"#,
        ),
        (
            Asked::Change(
                2,
                "book_group",
                r#""group":1,"start":"2025-01-06T08:30Z","picks":[1]"#,
            ),
            r#"{"group":1,"refused":"not_open","revision":1}"#,
        ),
        (
            Asked::Change(2, "remove_resource", r#""id":1"#),
            r#"{"by_key":[1,0,0],"by_table":"booking","key":[1,0,0],"refused":"in_use","revision":1,"table":"resource"}"#,
        ),
        (
            Asked::Change(2, "remove_resource", r#""id":2"#),
            r#"{"done":"removed","repeated":false,"revision":2}"#,
        ),
        (
            Asked::Change(
                3,
                "move_group",
                r#""group":1,"start":"2025-01-06T08:30Z","picks":[1]"#,
            ),
            r#"{"refused":"off_grid","revision":2,"start":"2025-01-06T08:30Z"}"#,
        ),
    ];
    go_through_trial(&rt, rt.alloc(), &lines)
}

/// Dan (4) is alone in unit 2, and works as Ann does.
#[test]
fn a_place_is_judged_point_by_point(rt: HostRuntime) -> Result<(), Fail> {
    let lines: [Line; 15] = [
        (
            Asked::Change(1, "put_unit", r#""id":2,"name":"North""#),
            r#"{"done":"put","repeated":false,"revision":1}"#,
        ),
        (
            Asked::Change(
                2,
                "put_resource",
                r#""id":4,"name":"Dan","kind":"generic","calendar":1,"unit":2,"site":1"#,
            ),
            r#"{"done":"put","repeated":false,"revision":2}"#,
        ),
        (
            Asked::Change(
                3,
                "put_group",
                r#""id":2,"name":"Visit","from":"2025-01-06T08:00Z","to":"2025-01-06T12:00Z","step":60,"tree":{"all":[{"leaf":{"duration":60,"effort":1}},{"leaf":{"duration":60,"effort":1}}],"same":"unit"}"#,
            ),
            r#"{"done":"put","repeated":false,"revision":3}"#,
        ),
        (
            Asked::Change(
                4,
                "move_group",
                r#""group":2,"start":"2025-01-06T08:30Z","picks":[1]"#,
            ),
            r#"{"group":2,"refused":"not_booked","revision":3}"#,
        ),
        (
            Asked::Change(
                4,
                "book_group",
                r#""group":2,"start":"2025-01-06T08:30Z","picks":[1]"#,
            ),
            r#"{"refused":"off_grid","revision":3,"start":"2025-01-06T08:30Z"}"#,
        ),
        (
            Asked::Change(
                4,
                "book_group",
                r#""group":2,"start":"2025-01-06T08:00Z","picks":[1]"#,
            ),
            r#"{"leaf":1,"refused":"bad_shape","revision":3}"#,
        ),
        (
            Asked::Change(
                4,
                "put_group",
                r#""id":3,"name":"Visit","from":"2025-01-06T08:00Z","to":"2025-01-06T12:00Z","step":60,"tree":{"all":[{"leaf":{"duration":60,"effort":1,"restricted":[1]}},{"leaf":{"duration":60,"effort":1,"required":[4]}}],"same":"unit"}"#,
            ),
            r#"{"done":"put","repeated":false,"revision":4}"#,
        ),
        (
            Asked::Change(
                5,
                "book_group",
                r#""group":3,"start":"2025-01-06T08:00Z","picks":[1]"#,
            ),
            r#"{"leaf":1,"refused":"bad_shape","revision":4}"#,
        ),
        (
            Asked::Change(
                5,
                "book_group",
                r#""group":3,"start":"2025-01-06T08:00Z","picks":[1,4]"#,
            ),
            r#"{"leaf":0,"refused":"not_eligible","resource":1,"revision":4,"rule":"restricted"}"#,
        ),
        (
            Asked::Change(
                5,
                "book_group",
                r#""group":3,"start":"2025-01-06T08:00Z","picks":[1,2]"#,
            ),
            r#"{"leaf":0,"refused":"not_eligible","resource":1,"revision":4,"rule":"restricted"}"#,
        ),
        (
            Asked::Change(
                5,
                "book_group",
                r#""group":3,"start":"2025-01-06T08:00Z","picks":[2,2]"#,
            ),
            r#"{"leaf":1,"refused":"not_eligible","resource":2,"revision":4,"rule":"required"}"#,
        ),
        (
            Asked::Change(
                5,
                "book_group",
                r#""group":3,"start":"2025-01-06T08:00Z","picks":[2,4]"#,
            ),
            r#"{"node":0,"refused":"not_same","revision":4}"#,
        ),
        (
            Asked::Change(
                5,
                "book_group",
                r#""group":2,"start":"2025-01-06T08:00Z","picks":[3,4]"#,
            ),
            r#"{"node":0,"refused":"not_same","revision":4}"#,
        ),
        (
            Asked::Change(
                5,
                "book_group",
                r#""group":2,"start":"2025-01-06T08:00Z","picks":[3,3]"#,
            ),
            r#"{"asked":2,"booking":null,"capacity":0,"minute":"2025-01-06T08:00Z","refused":"conflict","resource":3,"revision":4,"standing":0}"#,
        ),
        (
            Asked::Change(
                5,
                "book_group",
                r#""group":2,"start":"2025-01-06T08:00Z","picks":[1,2]"#,
            ),
            r#"{"bookings":[1,2],"done":"booked","effort_minutes":120,"repeated":false,"revision":5}"#,
        ),
    ];
    go_through_trial(&rt, rt.alloc(), &lines)
}
