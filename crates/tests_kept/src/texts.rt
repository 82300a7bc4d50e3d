//! Bodies of each kind of table: those that are read under a key, and the first fault of those that are not.
use desk_base::{AnyRow, Field, Key, NodeKind, Same, Table};
use desk_json::{BodyError, BodyRule};
use desk_kept::read_row;
use std::test::Fail;

fn key(table: Table, a: u32, b: u32, c: u32) -> Key {
    Key { table, a, b, c }
}

#[test]
fn rows_are_read(rt: HostRuntime) -> Result<(), Fail> {
    let cases = [
        (
            key(Table::Zone, 1, 0, 0),
            "{\"id\":1,\"name\":\"Berlin\",\"shifts\":[[\"2000-01-01T00:00Z\",60],[\"2025-03-30T01:00Z\",-120]]}",
        ),
        (
            key(Table::Work, 2, 0, 480),
            "{\"calendar\":2,\"capacity\":1,\"from\":480,\"to\":1020,\"weekday\":0}",
        ),
        (
            key(Table::Day, 2, 20_089, 0),
            "{\"calendar\":2,\"capacity\":0,\"day\":\"2025-01-01\",\"from\":0,\"to\":1440}",
        ),
        (key(Table::Site, 4, 0, 0), "{\"id\":4,\"name\":\"North\"}"),
        (
            key(Table::Resource, 9, 0, 0),
            "{\"calendar\":null,\"id\":9,\"kind\":\"crew\",\"name\":\"Night\",\"site\":4,\"unit\":3}",
        ),
        (key(Table::HasRole, 9, 5, 0), "{\"resource\":9,\"what\":5}"),
        (
            key(Table::HasCharacteristic, 9, 6, 0),
            "{\"rating\":10,\"resource\":9,\"what\":6}",
        ),
        (
            key(Table::Booking, 41, 0, 0),
            "{\"effort\":1,\"from\":\"2025-01-06T08:00Z\",\"group\":1,\"leaf\":0,\"resource\":9,\"to\":\"2025-01-06T09:00Z\"}",
        ),
        (
            key(Table::Caller, 3, 0, 0),
            "{\"last\":1,\"receipt\":{\"done\":\"put\"}}",
        ),
        (
            key(Table::Caller, 3, 0, 0),
            "{\"last\":2,\"receipt\":{\"count\":2,\"done\":\"cancelled\",\"effort_minutes\":120}}",
        ),
    ];
    for (key, text) in cases {
        match read_row(rt.alloc(), &key, text.as_bytes()) {
            Ok(row) => assert!(rt; row.key() == key, "at {text}"),
            Err(_) => assert!(rt; false, "at {text}"),
        }
    }
    Ok(())
}

fn has_tree(row: &AnyRow) -> bool {
    match row {
        AnyRow::Group(group) => {
            let nodes = matches!(
                group.nodes.as_slice(),
                [root, any, first, second]
                    if root.same == Same::Site && any.kind == NodeKind::Any && first.depth == 2 && second.depth == 1
            );
            let leaves = matches!(
                group.leaves.as_slice(),
                [first, second] if first.duration == 60 && second.offset == 15
            );
            nodes && leaves
        }
        _ => false,
    }
}

#[test]
fn a_tree_is_read_in_preorder(rt: HostRuntime) -> Result<(), Fail> {
    let text =
        "{\"from\":\"2025-01-06T08:00Z\",\"id\":1,\"name\":\"Visit\",\"step\":60,\"to\":\"2025-01-06T12:00Z\",\"tree\":{\"all\":[{\"any\":[{\"leaf\":{\"duration\":60,\"effort\":1,\"offset\":0}}]},{\"leaf\":{\"characteristics\":[[6,3]],\"duration\":30,\"effort\":2,\"offset\":15}}],\"same\":\"site\"}}";
    let key = key(Table::Group, 1, 0, 0);
    assert!(rt; matches!(&read_row(rt.alloc(), &key, text.as_bytes()), Ok(row) if has_tree(row)));
    Ok(())
}

#[test]
fn first_faults(rt: HostRuntime) -> Result<(), Fail> {
    let cases = [
        (
            key(Table::Site, 4, 0, 0),
            "{\"id\":4",
            BodyRule::Syntax,
            Field::Body,
        ),
        (
            key(Table::Site, 4, 0, 0),
            "[4]",
            BodyRule::Object,
            Field::Body,
        ),
        (
            key(Table::Site, 4, 0, 0),
            "{\"name\":\"North\"}",
            BodyRule::Missing,
            Field::Id,
        ),
        (
            key(Table::Site, 4, 0, 0),
            "{\"id\":4,\"name\":\"North\",\"size\":1}",
            BodyRule::Unknown,
            Field::Other,
        ),
        (
            key(Table::Site, 5, 0, 0),
            "{\"id\":4,\"name\":\"North\"}",
            BodyRule::Range,
            Field::Body,
        ),
        (
            key(Table::Site, 4, 1, 0),
            "{\"id\":4,\"name\":\"North\"}",
            BodyRule::Range,
            Field::Body,
        ),
        (
            key(Table::Caller, 0, 0, 0),
            "{\"last\":1,\"receipt\":{\"done\":\"put\"}}",
            BodyRule::Range,
            Field::Body,
        ),
        (
            key(Table::Caller, 3, 0, 0),
            "{\"last\":1,\"receipt\":{\"count\":1,\"done\":\"put\"}}",
            BodyRule::Unknown,
            Field::Body,
        ),
        (
            key(Table::BookingNumbers, 0, 0, 0),
            "{}",
            BodyRule::Range,
            Field::Body,
        ),
    ];
    for (key, text, rule, field) in cases {
        match read_row(rt.alloc(), &key, text.as_bytes()) {
            Err(BodyError::Bad(broken, named)) => assert!(rt;
                broken == rule && named == field,
                "at {text}"
            ),
            _ => assert!(rt; false, "at {text}"),
        }
    }
    Ok(())
}
