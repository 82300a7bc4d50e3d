//! A body of each act that puts or removes a row, and the faults of its fields in their order.
use crate::shown::is_shown;
use std::test::Fail;

#[test]
fn puts_are_read(rt: HostRuntime) -> Result<(), Fail> {
    let cases = [
        (
            "put_zone",
            r#","id":1,"name":"CET","shifts":[["2000-01-01T00:00Z",60],["2025-03-30T01:00Z",120],["2100-01-01T00:00Z",-60]]"#,
            "7 1 put zone 1 CET 15778080:60 29054940:120 68374080:-60 ",
        ),
        (
            "put_zone",
            r#","id":64,"name":"none","shifts":[]"#,
            "7 1 put zone 64 none ",
        ),
        (
            "put_calendar",
            r#","id":2,"name":"Late","zone":1"#,
            "7 1 put calendar 2 Late 1",
        ),
        (
            "put_work",
            r#","calendar":2,"weekday":255,"from":600,"to":65535,"capacity":3"#,
            "7 1 put work 2 255 600 65535 3",
        ),
        (
            "put_break",
            r#","calendar":2,"weekday":0,"from":630,"to":640"#,
            "7 1 put break 2 0 630 640",
        ),
        (
            "put_day",
            r#","calendar":2,"day":"2025-01-06","from":0,"to":1440,"capacity":0"#,
            "7 1 put day 2 20094 0 1440 0",
        ),
        (
            "put_off",
            r#","resource":3,"from":"2025-01-06T08:00Z","to":"2025-01-06T12:00Z""#,
            "7 1 put off 3 28935840 28936080",
        ),
        (
            "put_unit",
            r#","id":4294967295,"name":"Main""#,
            "7 1 put unit 4294967295 Main",
        ),
        ("put_site", r#","id":0,"name":"""#, "7 1 put site 0 "),
        (
            "put_role",
            r#","id":5,"name":"Pilot""#,
            "7 1 put role 5 Pilot",
        ),
        (
            "put_characteristic",
            r#","id":6,"name":"Skill""#,
            "7 1 put characteristic 6 Skill",
        ),
        (
            "put_territory",
            r#","id":7,"name":"North""#,
            "7 1 put territory 7 North",
        ),
        (
            "put_resource",
            r#","id":3,"name":"Cyd","kind":"facility","calendar":2,"unit":4,"site":5"#,
            "7 1 put resource 3 Cyd Facility 2 4 5",
        ),
        (
            "put_resource",
            r#","id":8,"name":"Red","kind":"crew","calendar":null,"unit":1,"site":1"#,
            "7 1 put resource 8 Red Crew - 1 1",
        ),
        (
            "put_has_role",
            r#","resource":3,"what":5"#,
            "7 1 put has_role 3 5 0",
        ),
        (
            "put_has_characteristic",
            r#","resource":3,"what":6,"rating":11"#,
            "7 1 put has_characteristic 3 6 11",
        ),
        (
            "put_has_territory",
            r#","resource":3,"what":0"#,
            "7 1 put has_territory 3 0 0",
        ),
        (
            "put_member",
            r#","group":8,"member":3,"from":"2025-01-06T08:00Z","to":"2025-01-06T08:00Z""#,
            "7 1 put member 8 3 28935840 28935840",
        ),
    ];
    for (act, fields, text) in cases {
        assert!(rt;
            is_shown(rt.alloc(), act, fields, text)?,
            "at {act} {fields}"
        );
    }
    Ok(())
}

#[test]
fn removes_are_read(rt: HostRuntime) -> Result<(), Fail> {
    let cases = [
        ("remove_zone", r#","id":1"#, "7 1 remove Zone 1 0 0"),
        ("remove_calendar", r#","id":2"#, "7 1 remove Calendar 2 0 0"),
        (
            "remove_work",
            r#","calendar":2,"weekday":6,"from":600"#,
            "7 1 remove Work 2 6 600",
        ),
        (
            "remove_break",
            r#","calendar":2,"weekday":0,"from":630"#,
            "7 1 remove Break 2 0 630",
        ),
        (
            "remove_day",
            r#","calendar":2,"day":"2025-12-25","from":0"#,
            "7 1 remove Day 2 20447 0",
        ),
        (
            "remove_off",
            r#","resource":3,"from":"2025-01-06T08:00Z""#,
            "7 1 remove Off 3 28935840 0",
        ),
        ("remove_unit", r#","id":0"#, "7 1 remove Unit 0 0 0"),
        ("remove_site", r#","id":1"#, "7 1 remove Site 1 0 0"),
        ("remove_role", r#","id":5"#, "7 1 remove Role 5 0 0"),
        (
            "remove_characteristic",
            r#","id":6"#,
            "7 1 remove Characteristic 6 0 0",
        ),
        (
            "remove_territory",
            r#","id":7"#,
            "7 1 remove Territory 7 0 0",
        ),
        ("remove_resource", r#","id":3"#, "7 1 remove Resource 3 0 0"),
        (
            "remove_has_role",
            r#","resource":3,"what":5"#,
            "7 1 remove HasRole 3 5 0",
        ),
        (
            "remove_has_characteristic",
            r#","resource":3,"what":6"#,
            "7 1 remove HasCharacteristic 3 6 0",
        ),
        (
            "remove_has_territory",
            r#","resource":3,"what":7"#,
            "7 1 remove HasTerritory 3 7 0",
        ),
        (
            "remove_member",
            r#","group":8,"member":3,"from":"2025-01-06T08:00Z""#,
            "7 1 remove Member 8 3 28935840",
        ),
    ];
    for (act, fields, text) in cases {
        assert!(rt;
            is_shown(rt.alloc(), act, fields, text)?,
            "at {act} {fields}"
        );
    }
    Ok(())
}

#[test]
fn acts_of_groups_are_read(rt: HostRuntime) -> Result<(), Fail> {
    let cases = [
        ("drop_group", r#","group":2"#, "7 1 drop group 2"),
        ("cancel_group", r#","group":2"#, "7 1 cancel group 2"),
        // of a name that comes twice, the last value counts
        ("drop_group", r#","group":0,"group":3"#, "7 1 drop group 3"),
        (
            "book_group",
            r#","group":2,"start":"2025-01-06T08:00Z","picks":[1,null,2]"#,
            "7 1 book group 2 28935840 1 - 2 ",
        ),
        (
            "move_group",
            r#","group":2,"start":"2025-01-06T09:30Z","picks":[]"#,
            "7 1 move group 2 28935930 ",
        ),
    ];
    for (act, fields, text) in cases {
        assert!(rt;
            is_shown(rt.alloc(), act, fields, text)?,
            "at {act} {fields}"
        );
    }
    Ok(())
}

#[test]
fn faults_of_rows_are_in_order(rt: HostRuntime) -> Result<(), Fail> {
    let cases = [
        // the fields in their order
        ("put_day", r#","day":0"#, "Missing Calendar"),
        ("put_day", r#","calendar":0,"day":0"#, "Range Calendar"),
        (
            "put_day",
            r#","calendar":1,"day":20094,"from":-1"#,
            "Sort Day",
        ),
        (
            "put_day",
            r#","calendar":1,"day":"2025-02-29","from":-1"#,
            "Moment Day",
        ),
        (
            "put_day",
            r#","calendar":1,"day":"2100-01-02","from":-1"#,
            "Moment Day",
        ),
        (
            "put_day",
            r#","calendar":1,"day":"2025-01-06","from":65536"#,
            "Range From",
        ),
        (
            "put_day",
            r#","calendar":1,"day":"2025-01-06","from":0,"to":1.0"#,
            "Sort To",
        ),
        (
            "put_day",
            r#","calendar":1,"day":"2025-01-06","from":0,"to":1,"capacity":"1","x":0"#,
            "Sort Capacity",
        ),
        (
            "put_day",
            r#","calendar":1,"day":"2025-01-06","from":0,"to":1,"capacity":1,"x":0"#,
            "Unknown Other",
        ),
        // numbers that are none, or that 64 bits do not hold
        ("put_unit", r#","id":-0,"name":"U""#, "Sort Id"),
        ("put_unit", r#","id":1e2,"name":"U""#, "Sort Id"),
        (
            "put_unit",
            r#","id":18446744073709551616,"name":"U""#,
            "Sort Id",
        ),
        (
            "put_unit",
            r#","id":18446744073709551615,"name":"U""#,
            "Range Id",
        ),
        ("put_unit", r#","id":-1,"name":"U""#, "Range Id"),
        ("put_unit", r#","id":null,"name":"U""#, "Sort Id"),
        // null stands for no calendar, and is nothing else
        (
            "put_resource",
            r#","id":3,"name":null,"kind":"user","calendar":null,"unit":1,"site":1"#,
            "Sort Name",
        ),
        (
            "put_resource",
            r#","id":3,"name":"C","kind":"User","calendar":null,"unit":1,"site":1"#,
            "Range Kind",
        ),
        (
            "put_resource",
            r#","id":3,"name":"C","kind":"user","calendar":0,"unit":1,"site":1"#,
            "Range Calendar",
        ),
        (
            "put_resource",
            r#","id":3,"name":"C","kind":"user","unit":1,"site":1"#,
            "Missing Calendar",
        ),
        // what is no field of the act
        (
            "put_break",
            r#","calendar":1,"weekday":0,"from":0,"to":1,"capacity":1"#,
            "Unknown Other",
        ),
        (
            "put_has_role",
            r#","resource":1,"what":1,"rating":0"#,
            "Unknown Other",
        ),
        ("remove_unit", r#","id":1,"name":"U""#, "Unknown Other"),
        // keys are read as rows have them
        ("remove_zone", r#","id":0"#, "Range Id"),
        (
            "remove_work",
            r#","calendar":1,"weekday":256"#,
            "Range Weekday",
        ),
        ("remove_member", r#","group":1,"member":0"#, "Range Member"),
        ("remove_off", r#","resource":1,"from":0"#, "Sort From"),
        // acts that there are not
        ("put_booking", "", "Range Act"),
        ("remove_group", r#","group":1"#, "Range Act"),
        ("put_", "", "Range Act"),
        ("zone", "", "Range Act"),
    ];
    for (act, fields, text) in cases {
        assert!(rt;
            is_shown(rt.alloc(), act, fields, text)?,
            "at {act} {fields}"
        );
    }
    Ok(())
}

#[test]
fn faults_of_lists_are_left_to_right(rt: HostRuntime) -> Result<(), Fail> {
    let cases = [
        (r#"{}"#, "Sort Shifts"),
        (r#"[["2000-01-01T00:00Z",0],0]"#, "Sort Shifts"),
        (r#"[["2000-01-01T00:00Z"],["x",0]]"#, "Sort Shifts"),
        (r#"[["2000-01-01T00:00Z",0,0]]"#, "Sort Shifts"),
        (r#"[["x",0],["2000-01-01T00:00Z"]]"#, "Moment Shifts"),
        (r#"[[0,2147483648]]"#, "Sort Shifts"),
        (r#"[["2000-01-01T00:00Z",2147483648],0]"#, "Range Shifts"),
        (r#"[["2000-01-01T00:00Z",-2147483649],0]"#, "Range Shifts"),
        (
            r#"[["2000-01-01T00:00Z",18446744073709551615],0]"#,
            "Range Shifts",
        ),
        (r#"[["2000-01-01T00:00Z",0.5]]"#, "Sort Shifts"),
        (
            r#"[["2000-01-01T00:00Z",-2147483648],["2000-01-01T00:00Z",2147483647]]"#,
            "7 1 put zone 1 Z 15778080:-2147483648 15778080:2147483647 ",
        ),
    ];
    for (shifts, text) in cases {
        let fields = format!(in rt.alloc(); ",\"id\":1,\"name\":\"Z\",\"shifts\":{shifts}")?;
        assert!(rt;
            is_shown(rt.alloc(), "put_zone", fields.as_str(), text)?,
            "at {shifts}"
        );
    }
    Ok(())
}
