//! What is full: a journal of 100,000 entries, a table that has as many rows as it may, and 10,000 callers.
use crate::books::{discard, opened};
use crate::lines::{Asked, Line, go_through_line};
use desk_core::Book;
use std::alloc::Global;
use std::process::Abort;
use std::test::Fail;

/// The entries that a journal has at most.
const ENTRIES: u32 = 100_000;

/// The zones that a schedule has at most; the trial tables have one.
const ZONES: u32 = 64;

/// The callers that a schedule keeps at most.
const CALLERS: u32 = 10_000;

/// Caller 7 is the first of them, and has booked.
const BOOKED: Line = (
    Asked::Change(
        1,
        "book_group",
        r#""group":1,"start":"2025-01-06T08:00Z","picks":[1]"#,
    ),
    r#"{"bookings":[1],"done":"booked","effort_minutes":60,"repeated":false,"revision":1}"#,
);

/// What comes before and after that there is no place for a caller, of one who has none.
const WHERE_CALLERS_ARE_FULL: [Line; 6] = [
    (
        Asked::First(20_000, "put_unit", r#""id":0,"name":"X""#),
        r#"{"field":"id","refused":"bad_field","revision":10000}"#,
    ),
    (
        Asked::First(20_000, "remove_resource", r#""id":1"#),
        r#"{"by_key":[1,0,0],"by_table":"booking","key":[1,0,0],"refused":"in_use","revision":10000,"table":"resource"}"#,
    ),
    (
        Asked::First(20_000, "drop_group", r#""group":1"#),
        r#"{"refused":"full","revision":10000,"table":"caller"}"#,
    ),
    (
        Asked::Change(2, "drop_group", r#""group":1"#),
        r#"{"group":1,"refused":"not_open","revision":10000}"#,
    ),
    (
        Asked::First(20_000, "put_unit", r#""id":2,"name":"X""#),
        r#"{"refused":"full","revision":10000,"table":"caller"}"#,
    ),
    (
        Asked::Change(2, "cancel_group", r#""group":1"#),
        r#"{"count":1,"done":"cancelled","effort_minutes":60,"repeated":false,"revision":10001}"#,
    ),
];

/// Puts unit 2, which is accepted.
fn put_unit(rt: &impl Abort, alloc: Global, book: &mut Book, number: u32) -> Result<(), Fail> {
    let text = format!(in alloc; "{{\"done\":\"put\",\"repeated\":false,\"revision\":{number}}}")?;
    let asked = Asked::Change(number, "put_unit", r#""id":2,"name":"X""#);
    go_through_line(rt, alloc, book, (asked, text.as_str()))
}

fn fill_journal(rt: &impl Abort, alloc: Global, book: &mut Book) -> Result<(), Fail> {
    for number in 1..ENTRIES + 1 {
        put_unit(rt, alloc, book, number)?;
    }
    let full = r#"{"entries":100000,"refused":"journal_full","revision":100000}"#;
    let next = Asked::Change(ENTRIES + 1, "put_unit", r#""id":2,"name":"X""#);
    go_through_line(rt, alloc, book, (next, full))?;
    let old = Asked::Change(1, "remove_unit", r#""id":9"#);
    go_through_line(rt, alloc, book, (old, full))?;
    let again = Asked::Change(ENTRIES, "remove_unit", r#""id":9"#);
    let repeated = r#"{"done":"put","repeated":true,"revision":100000}"#;
    go_through_line(rt, alloc, book, (again, repeated))?;
    go_through_line(
        rt,
        alloc,
        book,
        (
            Asked::Journal(99_999),
            r#"{"entries":[{"act":"put_unit","caller":7,"number":100000,"pass":3,"revision":100000}],"revision":100000}"#,
        ),
    )
}

/// It comes before every other refusal, and after what was answered before.
#[test]
fn a_journal_has_100_000_entries(rt: HostRuntime) -> Result<(), Fail> {
    let alloc = rt.alloc();
    let mut book = opened(alloc)?;
    let done = fill_journal(&rt, alloc, &mut book);
    discard(book);
    done
}

/// Puts a zone of this number.
fn put_zone(
    rt: &impl Abort,
    alloc: Global,
    book: &mut Book,
    number: u32,
    zone: u32,
    text: &str,
) -> Result<(), Fail> {
    let fields = format!(in alloc;
        "\"id\":{zone},\"name\":\"X\",\"shifts\":[[\"2000-01-01T00:00Z\",0]]"
    )?;
    let asked = Asked::Change(number, "put_zone", fields.as_str());
    go_through_line(rt, alloc, book, (asked, text))
}

fn fill_zones(rt: &impl Abort, alloc: Global, book: &mut Book) -> Result<(), Fail> {
    for number in 1..ZONES {
        let text = format!(in alloc;
            "{{\"done\":\"put\",\"repeated\":false,\"revision\":{number}}}"
        )?;
        put_zone(rt, alloc, book, number, number + 1, text.as_str())?;
    }
    let full = r#"{"refused":"full","revision":63,"table":"zone"}"#;
    put_zone(rt, alloc, book, ZONES, ZONES + 1, full)?;
    let put = r#"{"done":"put","repeated":false,"revision":64}"#;
    put_zone(rt, alloc, book, ZONES, ZONES, put)
}

/// A row of a key that stands has the place of the row that it replaces.
#[test]
fn a_schedule_has_64_zones(rt: HostRuntime) -> Result<(), Fail> {
    let alloc = rt.alloc();
    let mut book = opened(alloc)?;
    let done = fill_zones(&rt, alloc, &mut book);
    discard(book);
    done
}

fn fill_callers(rt: &impl Abort, alloc: Global, book: &mut Book) -> Result<(), Fail> {
    go_through_line(rt, alloc, book, BOOKED)?;
    for others in 1..CALLERS {
        let revision = others + 1;
        let text = format!(in alloc;
            "{{\"done\":\"put\",\"repeated\":false,\"revision\":{revision}}}"
        )?;
        let asked = Asked::First(7 + others, "put_unit", r#""id":2,"name":"X""#);
        go_through_line(rt, alloc, book, (asked, text.as_str()))?;
    }
    for line in WHERE_CALLERS_ARE_FULL {
        go_through_line(rt, alloc, book, line)?;
    }
    Ok(())
}

/// A caller who has no place is told so after the rows of its change and before what they are to a group; the others go on.
#[test]
fn a_schedule_keeps_10_000_callers(rt: HostRuntime) -> Result<(), Fail> {
    let alloc = rt.alloc();
    let mut book = opened(alloc)?;
    let done = fill_callers(&rt, alloc, &mut book);
    discard(book);
    done
}
