//! `desk_member`: who is a member when, and the pieces of a booking.
ghost use Rattle.desk_base.specs.rows.Lookups.{KeysRise};

use crate::schedules::{
    EIGHT, HALF_PAST_EIGHT, NINE, NOON, TEN, add_member, add_resource, trial, window, with_rows,
};
use desk_base::{AnyRows, Items, Kind, ResourceId, Tables};
use desk_member::{ByMember, member_spans};
use std::alloc::Global;

// Crew 10 has 1 from 08:00 to 10:00 and 2 from 10:00 to 12:00; pool 20 has 1 from 08:00 to 12:00.
fn teams(alloc: Global) -> Option<AnyRows> {
    let mut rows = Items::new(alloc);
    add_resource(alloc, &mut rows, 10, Kind::Crew, 0)?;
    add_resource(alloc, &mut rows, 20, Kind::Pool, 0)?;
    add_member(&mut rows, 20, 1, EIGHT, NOON)?;
    add_member(&mut rows, 10, 2, TEN, NOON)?;
    add_member(&mut rows, 10, 1, EIGHT, TEN)?;
    Some(rows)
}

/// A member, from when on and until when.
type Span = (u32, u32, u32);

fn spans_are(
    alloc: Global,
    tables: &Tables,
    group: u32,
    from: u32,
    to: u32,
    want: &[Span],
) -> Option<bool>
    requires { KeysRise tables.now }
{
    let spans = member_spans(alloc, tables, ResourceId::of(group)?, window(from, to)?).ok()?;
    let mut found = Vec::new(alloc);
    for span in spans.as_slice() {
        found
            .push((span.member.get(), span.from.get(), span.to.get()))
            .ok()?;
    }
    Some(found.as_slice() == want)
}

#[test]
fn spans_lie_in_the_window(rt: HostRuntime) {
    let alloc = rt.alloc();
    let tables = trial(alloc).expect(&rt, "the trial tables");
    let rows = teams(alloc).expect(&rt, "memory");
    let tables = with_rows(alloc, tables, rows).expect(&rt, "memory");
    let whole = [(1, EIGHT, TEN), (2, TEN, NOON)];
    assert!(rt; spans_are(alloc, &tables, 10, EIGHT, NOON, &whole) == Some(true));
    let part = [(1, HALF_PAST_EIGHT, NINE)];
    assert!(rt; spans_are(alloc, &tables, 10, HALF_PAST_EIGHT, NINE, &part) == Some(true));
    let pool = [(1, NINE, TEN)];
    assert!(rt; spans_are(alloc, &tables, 20, NINE, TEN, &pool) == Some(true));
    assert!(rt; spans_are(alloc, &tables, 10, NOON, NOON + 60, &[]) == Some(true));
}

fn groups_of(alloc: Global, by_member: &ByMember, member: u32) -> Option<Vec<u32>> {
    let mut groups = Vec::new(alloc);
    for row in by_member.of_member(ResourceId::of(member)?) {
        groups.push(row.group.get()).ok()?;
    }
    Some(groups)
}

#[test]
fn memberships_of_a_member(rt: HostRuntime) {
    let alloc = rt.alloc();
    let tables = trial(alloc).expect(&rt, "the trial tables");
    let rows = teams(alloc).expect(&rt, "memory");
    let tables = with_rows(alloc, tables, rows).expect(&rt, "memory");
    let by_member = ByMember::of(alloc, &tables).expect(&rt, "memory");
    let first = groups_of(alloc, &by_member, 1).expect(&rt, "memory");
    assert!(rt; first.as_slice() == [10, 20].as_slice());
    let second = groups_of(alloc, &by_member, 2).expect(&rt, "memory");
    assert!(rt; second.as_slice() == [10].as_slice());
    let third = groups_of(alloc, &by_member, 3).expect(&rt, "memory");
    assert!(rt; third.is_empty());
}
