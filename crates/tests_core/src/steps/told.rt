//! What commands came to, as plain values that can be compared.
use desk_base::{
    Answer, Clash, Field, LeafRule, Outcome, Page, Position, Receipt, Refusal, Reply, ResourceId,
    Shown, Table,
};

/// What a change gave.
#[derive(Clone, Copy, Debug, PartialEq, Eq)]
pub enum Given {
    Put,
    Removed,
    /// The first booking, how many there are, and effort minutes.
    Booked(u32, u8, u64),
    Cancelled(u8, u64),
}

/// A start and its first pick, each 0 where it is none.
pub type Place = (u32, u32);

/// What a command came to.
#[derive(Clone, Copy, Debug, PartialEq, Eq)]
pub enum Told {
    Done(Given),
    Repeated(Given),
    Old(u32),
    Skipped(u32),
    Unknown(Table, u32),
    Bad(Field),
    Full(Table),
    NotOpen(u32),
    NotBooked(u32),
    Moved(u64, u64),
    OffGrid(u32),
    BadShape(u8),
    NotEligible(u8, u32, LeafRule),
    /// The booking that is shown is 0 for a gap.
    Conflict {
        resource: u32,
        minute: u32,
        capacity: u64,
        standing: u64,
        asked: u64,
        booking: u32,
    },
    /// The first four rows of a page, how many it has, from where to go on, and whether that is the end.
    Page([Place; 4], usize, Place, bool),
    Revision,
    Other,
}

fn what_was_given(receipt: &Receipt) -> Given {
    match receipt {
        Receipt::Put => Given::Put,
        Receipt::Removed => Given::Removed,
        Receipt::Booked {
            first,
            count,
            effort_minutes,
        } => Given::Booked(first.get(), *count, *effort_minutes),
        Receipt::Cancelled {
            count,
            effort_minutes,
        } => Given::Cancelled(*count, *effort_minutes),
    }
}

fn told_of_clash(clash: &Clash) -> Told {
    let booking = match &clash.shown {
        Shown::Booking(id) => id.get(),
        Shown::Gap => 0,
    };
    Told::Conflict {
        resource: clash.resource.get(),
        minute: clash.minute.get(),
        capacity: clash.capacity,
        standing: clash.standing,
        asked: clash.asked,
        booking,
    }
}

fn told_of_refusal(refusal: &Refusal) -> Told {
    match refusal {
        Refusal::OldNumber(last) => Told::Old(*last),
        Refusal::SkippedNumber(last) => Told::Skipped(*last),
        Refusal::UnknownId(key) => Told::Unknown(key.table, key.a),
        Refusal::BadField(field) => Told::Bad(*field),
        Refusal::Full(table) => Told::Full(*table),
        Refusal::NotOpen(group) => Told::NotOpen(group.get()),
        Refusal::NotBooked(group) => Told::NotBooked(group.get()),
        Refusal::Moved(shown, now) => Told::Moved(*shown, *now),
        Refusal::OffGrid(start) => Told::OffGrid(start.get()),
        Refusal::BadShape(leaf) => Told::BadShape(*leaf),
        Refusal::NotEligible(leaf, resource, rule) => {
            Told::NotEligible(*leaf, resource.get(), *rule)
        }
        Refusal::Conflict(clash) => told_of_clash(clash),
        _ => Told::Other,
    }
}

fn first_pick(picks: &[Option<ResourceId>]) -> u32 {
    match picks {
        [Some(id), ..] => id.get(),
        _ => 0,
    }
}

fn row_at(page: &Page, at: usize) -> Place {
    match page.rows.as_slice().get(at) {
        Some(row) => (row.start.get(), first_pick(row.picks.as_slice())),
        None => (0, 0),
    }
}

fn place_of(position: &Option<Position>) -> Place {
    match position {
        Some(position) => (position.start.get(), first_pick(position.picks.as_slice())),
        None => (0, 0),
    }
}

fn told_of_page(page: &Page) -> Told {
    let rows = [
        row_at(page, 0),
        row_at(page, 1),
        row_at(page, 2),
        row_at(page, 3),
    ];
    Told::Page(rows, page.rows.len(), place_of(&page.next), page.end)
}

/// What an answer tells, and its revision.
pub fn what_was_told(answer: &Answer) -> (Told, u64) {
    let told = match &answer.outcome {
        Outcome::Done(Reply::Change(receipt)) => Told::Done(what_was_given(receipt)),
        Outcome::Done(Reply::Rows(page)) => told_of_page(page),
        Outcome::Done(Reply::Journal(_)) => Told::Other,
        Outcome::Done(Reply::Revision) => Told::Revision,
        Outcome::Repeated(receipt) => Told::Repeated(what_was_given(receipt)),
        Outcome::Refused(refusal) => told_of_refusal(refusal),
        Outcome::NoMemory => Told::Other,
    };
    (told, answer.revision)
}
