//! The leaf of a group, as a body gives it: its duration, its offset and its effort.
use desk_base::{Act, Command, Field, GroupRow};
use desk_json::{BodyError, BodyRule, read_change};
use std::alloc::Global;
use std::test::Fail;

// A body that puts a group of one leaf with these fields.
fn group_body(alloc: Global, fields: &str) -> Result<String, Fail> {
    let mut body = String::new(alloc);
    body.push_str("{\"act\":\"put_group\",\"caller\":7,\"number\":1,\"id\":1,\"name\":\"Visit\",")?;
    body.push_str("\"from\":\"2025-01-06T08:00Z\",\"to\":\"2025-01-06T12:00Z\",\"step\":60,")?;
    body.push_str("\"tree\":{\"leaf\":{")?;
    body.push_str(fields)?;
    body.push_str("}}}")?;
    Ok(body)
}

fn has_leaf(group: &GroupRow, numbers: (u32, u32, u32)) -> bool {
    match group.leaves.as_slice() {
        [leaf] => (leaf.duration, leaf.offset, leaf.effort) == numbers,
        _ => false,
    }
}

#[test]
fn leaves_are_read(rt: HostRuntime) -> Result<(), Fail> {
    let cases = [
        ("\"duration\":60,\"effort\":1", (60, 0, 1)),
        ("\"duration\":60,\"offset\":0,\"effort\":1", (60, 0, 1)),
        ("\"effort\":3,\"offset\":90,\"duration\":60", (60, 90, 3)),
        (
            "\"duration\":60,\"offset\":20160,\"effort\":1",
            (60, 20_160, 1),
        ),
        (
            "\"duration\":60,\"offset\":20161,\"effort\":1",
            (60, 20_161, 1),
        ),
    ];
    for (fields, numbers) in cases {
        let body = group_body(rt.alloc(), fields)?;
        assert!(rt;
            matches!(
                &read_change(rt.alloc(), body.as_bytes()),
                Ok(Command::Change(_, Act::PutGroup(group))) if has_leaf(group, numbers)
            ),
            "at {fields}"
        );
    }
    Ok(())
}

#[test]
fn faults_of_leaves_are_in_order(rt: HostRuntime) -> Result<(), Fail> {
    let cases = [
        (
            "\"duration\":60,\"offset\":null,\"effort\":1",
            BodyRule::Sort,
        ),
        (
            "\"duration\":60,\"offset\":\"60\",\"effort\":1",
            BodyRule::Sort,
        ),
        (
            "\"duration\":60,\"offset\":-1,\"effort\":1",
            BodyRule::Range,
        ),
        (
            "\"duration\":60,\"offset\":4294967296,\"effort\":1",
            BodyRule::Range,
        ),
        ("\"offset\":null,\"effort\":-1", BodyRule::Missing),
        ("\"duration\":60,\"offset\":null", BodyRule::Sort),
        (
            "\"duration\":60,\"offset\":-1,\"effort\":null",
            BodyRule::Range,
        ),
        (
            "\"duration\":60,\"offset\":60,\"kinds\":[]",
            BodyRule::Missing,
        ),
        (
            "\"duration\":60,\"effort\":1,\"offsets\":60",
            BodyRule::Unknown,
        ),
    ];
    for (fields, rule) in cases {
        let body = group_body(rt.alloc(), fields)?;
        let fault = BodyError::Bad(rule, Field::Tree);
        assert!(rt;
            matches!(&read_change(rt.alloc(), body.as_bytes()), Err(error) if *error == fault),
            "at {fields}"
        );
    }
    Ok(())
}
