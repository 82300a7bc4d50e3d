//! The text of each answer.
use desk_base::{
    ActCode, Answer, BookingId, CallNumber, CallerId, Clash, Field, Found, GroupId, Items, Key,
    LeafRule, Minute, Outcome, Page, Picks, Position, Receipt, Refusal, Reply, ResourceId, Shown,
    Summary, Table, TreeRule,
};
use desk_json::answer_text;
use std::alloc::Global;
use std::test::Fail;

fn minute(number: u32) -> Result<Minute, Fail> {
    Ok(Minute::of(number).ok_or("no minute of the horizon")?)
}

fn resource(number: u32) -> Result<ResourceId, Fail> {
    Ok(ResourceId::of(number).ok_or("no id")?)
}

fn group(number: u32) -> Result<GroupId, Fail> {
    Ok(GroupId::of(number).ok_or("no id")?)
}

fn booking(number: u32) -> Result<BookingId, Fail> {
    Ok(BookingId::of(number).ok_or("no number of a booking")?)
}

fn key(table: Table, a: u32, b: u32, c: u32) -> Key {
    Key { table, a, b, c }
}

fn is_text_of(alloc: Global, answer: &Answer, text: &str) -> bool {
    match answer_text(alloc, answer) {
        Ok(written) => written.as_slice() == text.as_bytes(),
        Err(_) => false,
    }
}

fn is_refusal(alloc: Global, revision: u64, refusal: Refusal, text: &str) -> bool {
    let answer = Answer {
        revision,
        outcome: Outcome::Refused(refusal),
    };
    is_text_of(alloc, &answer, text)
}

fn is_done(alloc: Global, revision: u64, receipt: Receipt, text: &str) -> bool {
    let answer = Answer {
        revision,
        outcome: Outcome::Done(Reply::Change(receipt)),
    };
    is_text_of(alloc, &answer, text)
}

fn is_repeated(alloc: Global, revision: u64, receipt: Receipt, text: &str) -> bool {
    let answer = Answer {
        revision,
        outcome: Outcome::Repeated(receipt),
    };
    is_text_of(alloc, &answer, text)
}

fn is_page(alloc: Global, revision: u64, page: Page, text: &str) -> bool {
    let answer = Answer {
        revision,
        outcome: Outcome::Done(Reply::Rows(page)),
    };
    is_text_of(alloc, &answer, text)
}

fn gap_clash() -> Result<Clash, Fail> {
    Ok(Clash {
        resource: resource(3)?,
        minute: minute(28_935_900)?,
        capacity: 0,
        standing: 0,
        asked: 1,
        shown: Shown::Gap,
    })
}

fn booking_clash() -> Result<Clash, Fail> {
    Ok(Clash {
        resource: resource(1)?,
        minute: minute(28_935_870)?,
        capacity: 1,
        standing: 1,
        asked: 1,
        shown: Shown::Booking(booking(1)?),
    })
}

// 0 is a leaf that is left out.
fn picks(alloc: Global, numbers: &[u32]) -> Result<Picks, Fail> {
    let mut picks = Items::new(alloc);
    for number in numbers {
        picks.push(ResourceId::of(*number))?;
    }
    Ok(picks)
}

fn page(alloc: Global, start: u32, shown: Option<u16>, numbers: &[u32]) -> Result<Page, Fail> {
    let mut rows = Items::new(alloc);
    rows.push(Found {
        start: minute(start)?,
        picks: picks(alloc, numbers)?,
    })?;
    let next = Position {
        start: minute(start)?,
        picks: picks(alloc, numbers)?,
    };
    Ok(Page {
        rows,
        next: Some(next),
        shown,
        end: false,
    })
}

fn last_page(alloc: Global) -> Page {
    Page {
        rows: Items::new(alloc),
        next: None,
        shown: None,
        end: true,
    }
}

fn summary(revision: u64, number: u32, act: ActCode) -> Result<Summary, Fail> {
    Ok(Summary {
        revision,
        caller: CallerId::of(7).ok_or("no id")?,
        number: CallNumber::of(number).ok_or("no number of a call")?,
        pass: 18_446_744_073_709_551_615,
        act,
    })
}

fn journal(alloc: Global, entries: &[(u64, u32, ActCode)]) -> Result<Answer, Fail> {
    let mut summaries = Items::new(alloc);
    for (revision, number, act) in entries {
        summaries.push(summary(*revision, *number, *act)?)?;
    }
    Ok(Answer {
        revision: 9,
        outcome: Outcome::Done(Reply::Journal(summaries)),
    })
}

#[test]
fn entries_of_the_journal_have_their_texts(rt: HostRuntime) -> Result<(), Fail> {
    let alloc = rt.alloc();
    let none = journal(alloc, &[])?;
    assert!(rt; is_text_of(alloc, &none, "{\"entries\":[],\"revision\":9}"));
    let two = journal(
        alloc,
        &[
            (8, 1, ActCode::Put(Table::HasCharacteristic)),
            (9, 4_000_000_000, ActCode::Remove(Table::Off)),
        ],
    )?;
    assert!(rt;
        is_text_of(
            alloc,
            &two,
            "{\"entries\":[{\"act\":\"put_has_characteristic\",\"caller\":7,\"number\":1,\"pass\":18446744073709551615,\"revision\":8},{\"act\":\"remove_off\",\"caller\":7,\"number\":4000000000,\"pass\":18446744073709551615,\"revision\":9}],\"revision\":9}"
        )
    );
    let acts = [
        (ActCode::PutGroup, "put_group"),
        (ActCode::DropGroup, "drop_group"),
        (ActCode::BookGroup, "book_group"),
        (ActCode::MoveGroup, "move_group"),
        (ActCode::CancelGroup, "cancel_group"),
    ];
    for (act, name) in acts {
        let one = journal(alloc, &[(1, 2, act)])?;
        let text = format!(in alloc;
            "{{\"entries\":[{{\"act\":\"{name}\",\"caller\":7,\"number\":2,\"pass\":18446744073709551615,\"revision\":1}}],\"revision\":9}}"
        )?;
        assert!(rt; is_text_of(alloc, &one, text.as_str()), "at {name}");
    }
    Ok(())
}

#[test]
fn receipts_have_their_texts(rt: HostRuntime) -> Result<(), Fail> {
    let alloc = rt.alloc();
    let booked = Receipt::Booked {
        first: booking(1)?,
        count: 2,
        effort_minutes: 120,
    };
    let cancelled = Receipt::Cancelled {
        count: 1,
        effort_minutes: 60,
    };
    let done = [
        (
            Receipt::Put,
            "{\"done\":\"put\",\"repeated\":false,\"revision\":2}",
        ),
        (
            booked,
            "{\"bookings\":[1,2],\"done\":\"booked\",\"effort_minutes\":120,\"repeated\":false,\"revision\":2}",
        ),
        (
            cancelled,
            "{\"count\":1,\"done\":\"cancelled\",\"effort_minutes\":60,\"repeated\":false,\"revision\":2}",
        ),
    ];
    for (receipt, text) in done {
        assert!(rt; is_done(alloc, 2, receipt, text), "at {text}");
    }
    let removed = "{\"done\":\"removed\",\"repeated\":true,\"revision\":3}";
    assert!(rt; is_repeated(alloc, 3, Receipt::Removed, removed));
    Ok(())
}

#[test]
fn other_answers_have_their_texts(rt: HostRuntime) -> Result<(), Fail> {
    let alloc = rt.alloc();
    let revision = Answer {
        revision: 0,
        outcome: Outcome::Done(Reply::Revision),
    };
    let no_memory = Answer {
        revision: 7,
        outcome: Outcome::NoMemory,
    };
    assert!(rt; is_text_of(alloc, &revision, "{\"revision\":0}"));
    assert!(rt; is_text_of(alloc, &no_memory, "{\"error\":\"no_memory\"}"));
    Ok(())
}

#[test]
fn pages_have_their_texts(rt: HostRuntime) -> Result<(), Fail> {
    let alloc = rt.alloc();
    let cases = [
        (
            1,
            last_page(alloc),
            "{\"end\":true,\"next\":null,\"revision\":1,\"rows\":[]}",
        ),
        (
            2,
            page(alloc, 28_935_960, None, &[0, 2, 3])?,
            "{\"end\":false,\"next\":\"2.28935960.-.2.3\",\"revision\":2,\"rows\":[[\"2025-01-06T10:00Z\",null,2,3]]}",
        ),
        (
            0,
            page(alloc, 28_936_020, Some(1), &[1])?,
            "{\"end\":false,\"next\":\"0_1.28936020.1\",\"revision\":0,\"rows\":[[\"2025-01-06T11:00Z\",1]]}",
        ),
        (
            3,
            page(alloc, 28_935_840, Some(0), &[1])?,
            "{\"end\":false,\"next\":\"3_0.28935840.1\",\"revision\":3,\"rows\":[[\"2025-01-06T08:00Z\",1]]}",
        ),
    ];
    for (revision, page, text) in cases {
        assert!(rt; is_page(alloc, revision, page, text), "at {text}");
    }
    Ok(())
}

#[test]
fn refusals_of_numbers_have_their_texts(rt: HostRuntime) {
    let alloc = rt.alloc();
    let cases = [
        (
            5,
            Refusal::JournalFull(100_000),
            "{\"entries\":100000,\"refused\":\"journal_full\",\"revision\":5}",
        ),
        (
            4,
            Refusal::OldNumber(4),
            "{\"last\":4,\"refused\":\"old_number\",\"revision\":4}",
        ),
        (
            4,
            Refusal::SkippedNumber(4),
            "{\"last\":4,\"refused\":\"skipped_number\",\"revision\":4}",
        ),
        (
            0,
            Refusal::UnknownId(key(Table::Work, 2, 6, 480)),
            "{\"key\":[2,6,480],\"refused\":\"unknown\",\"revision\":0,\"table\":\"work\"}",
        ),
    ];
    for (revision, refusal, text) in cases {
        assert!(rt; is_refusal(alloc, revision, refusal, text), "at {text}");
    }
}

#[test]
fn refusals_of_rows_have_their_texts(rt: HostRuntime) {
    let alloc = rt.alloc();
    let unit = key(Table::Unit, 1, 0, 0);
    let resource = key(Table::Resource, 1, 0, 0);
    let cases = [
        (
            0,
            Refusal::BadField(Field::Limit),
            "{\"field\":\"limit\",\"refused\":\"bad_field\",\"revision\":0}",
        ),
        (
            0,
            Refusal::BadField(Field::Offset),
            "{\"field\":\"offset\",\"refused\":\"bad_field\",\"revision\":0}",
        ),
        (
            0,
            Refusal::BadField(Field::Per),
            "{\"field\":\"per\",\"refused\":\"bad_field\",\"revision\":0}",
        ),
        (
            0,
            Refusal::BadTree(TreeRule::Childless, 3),
            "{\"node\":3,\"refused\":\"bad_tree\",\"revision\":0,\"rule\":\"childless\"}",
        ),
        (
            0,
            Refusal::InUse(unit, resource),
            "{\"by_key\":[1,0,0],\"by_table\":\"resource\",\"key\":[1,0,0],\"refused\":\"in_use\",\"revision\":0,\"table\":\"unit\"}",
        ),
        (
            0,
            Refusal::Full(Table::BookingNumbers),
            "{\"refused\":\"full\",\"revision\":0,\"table\":\"booking_numbers\"}",
        ),
    ];
    for (revision, refusal, text) in cases {
        assert!(rt; is_refusal(alloc, revision, refusal, text), "at {text}");
    }
}

#[test]
fn refusals_of_groups_have_their_texts(rt: HostRuntime) -> Result<(), Fail> {
    let alloc = rt.alloc();
    let two = group(2)?;
    let half_past = minute(28_935_870)?;
    let cases = [
        (
            1,
            Refusal::NotOpen(two),
            "{\"group\":2,\"refused\":\"not_open\",\"revision\":1}",
        ),
        (
            1,
            Refusal::NotBooked(two),
            "{\"group\":2,\"refused\":\"not_booked\",\"revision\":1}",
        ),
        (
            2,
            Refusal::Moved(0, 2),
            "{\"now\":2,\"refused\":\"moved\",\"revision\":2,\"shown\":0}",
        ),
        (
            0,
            Refusal::OffGrid(half_past),
            "{\"refused\":\"off_grid\",\"revision\":0,\"start\":\"2025-01-06T08:30Z\"}",
        ),
        (
            0,
            Refusal::BadShape(1),
            "{\"leaf\":1,\"refused\":\"bad_shape\",\"revision\":0}",
        ),
    ];
    for (revision, refusal, text) in cases {
        assert!(rt; is_refusal(alloc, revision, refusal, text), "at {text}");
    }
    Ok(())
}

#[test]
fn refusals_of_picks_have_their_texts(rt: HostRuntime) -> Result<(), Fail> {
    let alloc = rt.alloc();
    let cyd = resource(3)?;
    let with_a_booking = booking_clash()?;
    let with_a_gap = gap_clash()?;
    let cases = [
        (
            0,
            Refusal::NotEligible(1, cyd, LeafRule::Characteristic),
            "{\"leaf\":1,\"refused\":\"not_eligible\",\"resource\":3,\"revision\":0,\"rule\":\"characteristic\"}",
        ),
        (
            0,
            Refusal::NotSame(4),
            "{\"node\":4,\"refused\":\"not_same\",\"revision\":0}",
        ),
        (
            2,
            Refusal::Conflict(with_a_booking),
            "{\"asked\":1,\"booking\":1,\"capacity\":1,\"minute\":\"2025-01-06T08:30Z\",\"refused\":\"conflict\",\"resource\":1,\"revision\":2,\"standing\":1}",
        ),
        (
            0,
            Refusal::Conflict(with_a_gap),
            "{\"asked\":1,\"booking\":null,\"capacity\":0,\"minute\":\"2025-01-06T09:00Z\",\"refused\":\"conflict\",\"resource\":3,\"revision\":0,\"standing\":0}",
        ),
    ];
    for (revision, refusal, text) in cases {
        assert!(rt; is_refusal(alloc, revision, refusal, text), "at {text}");
    }
    Ok(())
}
