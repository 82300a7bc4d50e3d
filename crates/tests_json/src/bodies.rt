//! Bodies as a whole: their heads, and faults of each rule.
use desk_base::{Act, AnyRow, Command, Field};
use desk_json::{BodyError, BodyRule, read_change};
use std::alloc::Global;

// Whether a body asks for a change, by caller 7.
fn is_read(alloc: Global, body: &str) -> bool {
    match &read_change(alloc, body.as_bytes()) {
        Ok(Command::Change(call, _)) => call.caller.get() == 7,
        _ => false,
    }
}

#[test]
fn each_act_is_read(rt: HostRuntime) {
    let cases = [
        "{\"act\":\"put_zone\",\"caller\":7,\"id\":1,\"name\":\"UTC\",\"number\":1,\"shifts\":[[\"2000-01-01T00:00Z\",0]]}",
        "{\"act\":\"put_calendar\",\"caller\":7,\"id\":2,\"name\":\"Late\",\"number\":2,\"zone\":1}",
        "{\"act\":\"put_work\",\"calendar\":2,\"capacity\":1,\"caller\":7,\"from\":600,\"number\":3,\"to\":720,\"weekday\":0}",
        "{\"act\":\"put_unit\",\"caller\":7,\"id\":1,\"name\":\"Main\",\"number\":4}",
        "{\"act\":\"put_site\",\"caller\":7,\"id\":0,\"name\":\"\",\"number\":5}",
        "{\"act\":\"put_resource\",\"calendar\":null,\"caller\":7,\"id\":3,\"kind\":\"user\",\"name\":\"Cyd\",\"number\":6,\"site\":1,\"unit\":1}",
        " { \"tree\" : {\"leaf\":{\"effort\":1,\"duration\":60}}, \"act\":\"put_group\",\"caller\":7,\"number\":7,\"id\":1,\"name\":\"Visit\",\"from\":\"2025-01-06T08:00Z\",\"to\":\"2025-01-06T12:00Z\",\"step\":60}",
        "{\"act\":\"book_group\",\"caller\":7,\"group\":2,\"number\":3,\"picks\":[1],\"start\":\"2025-01-06T08:30Z\"}",
        "{\"act\":\"cancel_group\",\"caller\":7,\"group\":1,\"number\":4000000000}",
    ];
    for body in cases {
        assert!(rt; is_read(rt.alloc(), body), "at {body}");
    }
}

fn is_the_work(act: &Act) -> bool {
    match act {
        Act::Put(AnyRow::Work(row)) => {
            row.calendar.get() == 2
                && (row.weekday, row.from, row.to, row.capacity) == (1, 600, 720, 3)
        }
        _ => false,
    }
}

fn is_the_resource(act: &Act) -> bool {
    match act {
        Act::Put(AnyRow::Resource(row)) => {
            (row.id.get(), row.unit.get(), row.site.get()) == (3, 4, 5)
        }
        _ => false,
    }
}

fn is_the_booking(act: &Act) -> bool {
    match act {
        Act::BookGroup {
            group,
            start,
            picks,
        } => (group.get(), start.get(), picks.len()) == (2, 28_935_870, 2),
        _ => false,
    }
}

#[test]
fn fields_go_to_their_places(rt: HostRuntime) {
    let alloc = rt.alloc();
    let work =
        "{\"act\":\"put_work\",\"calendar\":2,\"capacity\":3,\"caller\":7,\"from\":600,\"number\":3,\"to\":720,\"weekday\":1}";
    let resource =
        "{\"act\":\"put_resource\",\"calendar\":2,\"caller\":7,\"id\":3,\"kind\":\"user\",\"name\":\"Cyd\",\"number\":6,\"site\":5,\"unit\":4}";
    let booking =
        "{\"act\":\"book_group\",\"caller\":7,\"group\":2,\"number\":8,\"picks\":[1,null],\"start\":\"2025-01-06T08:30Z\"}";
    assert!(rt;
        matches!(&read_change(alloc, work.as_bytes()), Ok(Command::Change(_, act)) if is_the_work(act))
    );
    assert!(rt;
        matches!(&read_change(alloc, resource.as_bytes()), Ok(Command::Change(_, act)) if is_the_resource(act))
    );
    assert!(rt;
        matches!(&read_change(alloc, booking.as_bytes()), Ok(Command::Change(_, act)) if is_the_booking(act))
    );
}

fn is_fault(alloc: Global, body: &[u8], rule: BodyRule, field: Field) -> bool {
    match &read_change(alloc, body) {
        Ok(_) => false,
        Err(error) => *error == BodyError::Bad(rule, field),
    }
}

#[test]
fn faults_of_heads_are_named(rt: HostRuntime) {
    let cases: [(&[u8], BodyRule, Field); 9] = [
        (b"{\"act\":", BodyRule::Syntax, Field::Body),
        (b"\"\xff\"", BodyRule::Syntax, Field::Body),
        (b"[]", BodyRule::Object, Field::Body),
        (b"{\"caller\":0}", BodyRule::Missing, Field::Act),
        (b"{\"act\":7,\"caller\":0}", BodyRule::Sort, Field::Act),
        (b"{\"act\":\"put_booking\"}", BodyRule::Range, Field::Act),
        (
            b"{\"act\":\"cancel_group\",\"caller\":0,\"number\":0}",
            BodyRule::Range,
            Field::Caller,
        ),
        (
            b"{\"act\":\"cancel_group\",\"caller\":1.0,\"number\":0}",
            BodyRule::Sort,
            Field::Caller,
        ),
        (
            b"{\"act\":\"cancel_group\",\"caller\":7,\"number\":4000000001}",
            BodyRule::Range,
            Field::Number,
        ),
    ];
    for (body, rule, field) in cases {
        assert!(rt;
            is_fault(rt.alloc(), body, rule, field),
            "{rule:?} {field:?}"
        );
    }
}

#[test]
fn faults_of_acts_are_named(rt: HostRuntime) {
    let cases: [(&[u8], BodyRule, Field); 6] = [
        (
            b"{\"act\":\"cancel_group\",\"caller\":7,\"number\":1,\"pass\":0}",
            BodyRule::Missing,
            Field::Group,
        ),
        (
            b"{\"act\":\"cancel_group\",\"caller\":7,\"number\":1,\"group\":1,\"pass\":0}",
            BodyRule::Unknown,
            Field::Other,
        ),
        (
            b"{\"act\":\"put_work\",\"caller\":7,\"number\":1,\"calendar\":1,\"weekday\":-1}",
            BodyRule::Range,
            Field::Weekday,
        ),
        (
            b"{\"act\":\"put_zone\",\"caller\":7,\"number\":1,\"id\":1,\"name\":\"Z\",\"shifts\":[[\"2000-01-01\",0]]}",
            BodyRule::Moment,
            Field::Shifts,
        ),
        (
            b"{\"act\":\"book_group\",\"caller\":7,\"number\":1,\"group\":1,\"start\":28935840}",
            BodyRule::Sort,
            Field::Start,
        ),
        (
            b"{\"act\":\"book_group\",\"caller\":7,\"number\":1,\"group\":1,\"start\":\"2025-01-06T08:00Z\",\"picks\":[1,\"-\"]}",
            BodyRule::Sort,
            Field::Picks,
        ),
    ];
    for (body, rule, field) in cases {
        assert!(rt;
            is_fault(rt.alloc(), body, rule, field),
            "{rule:?} {field:?}"
        );
    }
}
