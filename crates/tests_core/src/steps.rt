//! Commands through `step`, one after another, and what they come to. The book is over the trial tables, and minute
//! 28,935,840 is Monday 2025-01-06T08:00Z.
ghost use Rattle.std.specs.Prelude.{IfOk};
ghost use Rattle.desk_change.specs.Served.{IsServed};

mod asked;
mod told;

use crate::books::{discard, opened};
use asked::{Asked, Pages, Picked, Wanted, change, command_of, late_leaf, unit, zone};
use desk_base::{Act, CallNumber, Field, LeafRule, Table};
use desk_core::Book;
use std::alloc::Global;
use std::process::Abort;
use std::test::Fail;
use told::{Given, Told, what_was_told};

const EIGHT: u32 = 28_935_840;

const HALF_PAST_EIGHT: u32 = 28_935_870;

const NINE: u32 = 28_935_900;

const TEN: u32 = 28_935_960;

const ELEVEN: u32 = 28_936_020;

const NOON: u32 = 28_936_080;

const PUT: Told = Told::Done(Given::Put);

/// A command, what it comes to, and the revision after it.
type Line = (Asked, Told, u64);

fn answer_to(alloc: Global, book: &mut Book, asked: Asked) -> Result<(Told, u64), Fail> {
    let command = command_of(alloc, asked)?;
    let answer = book.step(alloc, 3, &command);
    Ok(what_was_told(&answer))
}

fn go_through(rt: &impl Abort, alloc: Global, book: &mut Book, lines: &[Line]) -> Result<(), Fail> {
    for line in lines {
        let (came, revision) = answer_to(alloc, book, line.0)?;
        assert_eq!(rt; came, line.1);
        assert_eq!(rt; revision, line.2);
    }
    Ok(())
}

/// Goes through the lines over a book of the trial tables.
fn go_through_trial(rt: &impl Abort, alloc: Global, lines: &[Line]) -> Result<(), Fail> {
    let mut book = opened(alloc)?;
    let done = go_through(rt, alloc, &mut book, lines);
    discard(book);
    done
}

fn by(number: u32, wanted: Wanted) -> Asked {
    Asked::Change(number, wanted)
}

/// Group 1 is booked at the start on a resource.
fn book_visit(number: u32, start: u32, resource: u32) -> Asked {
    by(number, Wanted::Book(1, start, Picked::One(resource)))
}

/// A work row of calendar 1 on Mondays.
fn work(from: u16, to: u16, capacity: u16) -> Asked {
    by(1, Wanted::Work(1, 0, from, to, capacity))
}

#[test]
fn touching_bookings_fit(rt: HostRuntime) -> Result<(), Fail> {
    let lines = [
        (by(1, Wanted::Group(2, EIGHT, NOON, 60)), PUT, 1),
        (
            book_visit(2, EIGHT, 1),
            Told::Done(Given::Booked(1, 1, 60)),
            2,
        ),
        (
            by(3, Wanted::Book(2, NINE, Picked::One(1))),
            Told::Done(Given::Booked(2, 1, 60)),
            3,
        ),
    ];
    go_through_trial(&rt, rt.alloc(), &lines)
}

#[test]
fn bookings_that_meet_conflict(rt: HostRuntime) -> Result<(), Fail> {
    let lines = [
        (
            book_visit(1, EIGHT, 1),
            Told::Done(Given::Booked(1, 1, 60)),
            1,
        ),
        (by(2, Wanted::Group(2, EIGHT, NOON, 30)), PUT, 2),
        (
            by(3, Wanted::Book(2, HALF_PAST_EIGHT, Picked::One(1))),
            Told::Conflict {
                resource: 1,
                minute: HALF_PAST_EIGHT,
                capacity: 1,
                standing: 1,
                asked: 1,
                booking: 1,
            },
            2,
        ),
        (
            by(3, Wanted::Book(2, NINE, Picked::One(1))),
            Told::Done(Given::Booked(2, 1, 60)),
            3,
        ),
        (book_visit(4, TEN, 2), Told::NotOpen(1), 3),
        (
            by(4, Wanted::Group(1, EIGHT, NOON, 60)),
            Told::NotOpen(1),
            3,
        ),
    ];
    go_through_trial(&rt, rt.alloc(), &lines)
}

#[test]
fn what_cannot_be_booked_changes_nothing(rt: HostRuntime) -> Result<(), Fail> {
    let gap = Told::Conflict {
        resource: 3,
        minute: NINE,
        capacity: 0,
        standing: 0,
        asked: 1,
        booking: 0,
    };
    let two = by(1, Wanted::Book(1, NINE, Picked::Two(1, 2)));
    let none = by(1, Wanted::Book(1, NINE, Picked::LeftOut));
    let unknown = by(1, Wanted::Book(9, NINE, Picked::One(1)));
    let lines = [
        (book_visit(1, NINE, 3), gap, 0),
        (
            book_visit(1, HALF_PAST_EIGHT, 1),
            Told::OffGrid(HALF_PAST_EIGHT),
            0,
        ),
        (two, Told::BadShape(1), 0),
        (none, Told::BadShape(0), 0),
        (
            book_visit(1, NINE, 99),
            Told::Unknown(Table::Resource, 99),
            0,
        ),
        (unknown, Told::Unknown(Table::Group, 9), 0),
    ];
    go_through_trial(&rt, rt.alloc(), &lines)
}

#[test]
fn booking_numbers_go_on_after_a_cancelling(rt: HostRuntime) -> Result<(), Fail> {
    let lines = [
        (by(1, Wanted::Cancel(1)), Told::NotBooked(1), 0),
        (
            book_visit(1, EIGHT, 1),
            Told::Done(Given::Booked(1, 1, 60)),
            1,
        ),
        (
            by(2, Wanted::Cancel(1)),
            Told::Done(Given::Cancelled(1, 60)),
            2,
        ),
        (by(3, Wanted::Cancel(1)), Told::NotBooked(1), 2),
        (
            by(2, Wanted::Cancel(1)),
            Told::Repeated(Given::Cancelled(1, 60)),
            2,
        ),
        (
            book_visit(3, EIGHT, 1),
            Told::Done(Given::Booked(2, 1, 60)),
            3,
        ),
    ];
    go_through_trial(&rt, rt.alloc(), &lines)
}

#[test]
fn work_is_not_shortened_under_a_booking(rt: HostRuntime) -> Result<(), Fail> {
    let shortened = Told::Conflict {
        resource: 1,
        minute: HALF_PAST_EIGHT,
        capacity: 0,
        standing: 1,
        asked: 0,
        booking: 1,
    };
    let lines = [
        (
            book_visit(1, EIGHT, 1),
            Told::Done(Given::Booked(1, 1, 60)),
            1,
        ),
        (by(2, Wanted::Work(1, 0, 480, 510, 1)), shortened, 1),
        (by(2, Wanted::Work(1, 0, 480, 540, 1)), PUT, 2),
        (
            by(3, Wanted::Resource(1, 2, 1)),
            Told::Conflict {
                resource: 1,
                minute: EIGHT,
                capacity: 0,
                standing: 1,
                asked: 0,
                booking: 1,
            },
            2,
        ),
    ];
    go_through_trial(&rt, rt.alloc(), &lines)
}

/// Where the last booking ends.
fn last_end(book: &Book) -> u32 {
    match book.tables().bookings.as_slice() {
        [.., last] => last.to.get(),
        [] => 0,
    }
}

#[test]
fn a_booking_may_end_with_the_horizon(rt: HostRuntime) -> Result<(), Fail> {
    let start = 68_374_020;
    let end = 68_374_080;
    let lines = [
        (by(1, Wanted::Calendar(3)), PUT, 1),
        (by(2, Wanted::Work(3, 3, 1380, 1440, 1)), PUT, 2),
        (by(3, Wanted::Resource(4, 3, 1)), PUT, 3),
        (
            by(4, Wanted::Group(2, start, start, 60)),
            Told::Bad(Field::To),
            3,
        ),
        (by(4, Wanted::Group(2, start, end, 60)), PUT, 4),
        (
            by(5, Wanted::Book(2, start, Picked::One(4))),
            Told::Done(Given::Booked(1, 1, 60)),
            5,
        ),
    ];
    let alloc = rt.alloc();
    let mut book = opened(alloc)?;
    let done = go_through(&rt, alloc, &mut book, &lines);
    let last = last_end(&book);
    discard(book);
    assert_eq!(&rt; last, end);
    done
}

#[test]
fn a_number_acts_once(rt: HostRuntime) -> Result<(), Fail> {
    assert!(&rt; CallNumber::of(0).is_none());
    let lines = [
        (by(1, Wanted::Unit(2)), PUT, 1),
        (by(2, Wanted::Unit(3)), PUT, 2),
        (by(3, Wanted::Unit(4)), PUT, 3),
        (by(3, Wanted::Unit(0)), Told::Repeated(Given::Put), 3),
        (
            book_visit(4, EIGHT, 1),
            Told::Done(Given::Booked(1, 1, 60)),
            4,
        ),
        (
            book_visit(4, EIGHT, 1),
            Told::Repeated(Given::Booked(1, 1, 60)),
            4,
        ),
        (by(3, Wanted::Unit(5)), Told::Old(4), 4),
        (by(6, Wanted::Unit(5)), Told::Skipped(4), 4),
    ];
    let alloc = rt.alloc();
    let mut book = opened(alloc)?;
    let done = go_through(&rt, alloc, &mut book, &lines);
    let bookings = book.tables().bookings.len();
    let units = book.tables().units.len();
    let entries = book.journal().len();
    discard(book);
    assert_eq!(&rt; bookings, 1);
    assert_eq!(&rt; units, 4);
    assert_eq!(&rt; entries, 4);
    done
}

/// Rows of group 1 after a cursor.
fn after(revision: u64, start: u32, pick: u32, latest: bool) -> Asked {
    Asked::Rows(Pages {
        group: 1,
        from: None,
        after: Some((revision, start, pick)),
        latest,
        limit: 4,
        per: None,
    })
}

#[test]
fn cursors_show_their_revision(rt: HostRuntime) -> Result<(), Fail> {
    let rows = [(TEN, 1), (TEN, 2), (TEN, 3), (ELEVEN, 1)];
    let page = Told::Page(rows, 4, (ELEVEN, 1), false);
    let lines = [
        (by(1, Wanted::Unit(2)), PUT, 1),
        (by(2, Wanted::Unit(3)), PUT, 2),
        (after(0, NINE, 2, false), Told::Moved(0, 2), 2),
        (after(0, NINE, 2, true), page, 2),
        (after(2, NINE, 3, false), page, 2),
        (after(2, NINE + 1, 9, false), page, 2),
    ];
    go_through_trial(&rt, rt.alloc(), &lines)
}

/// The first fifty rows of a group.
fn fifty(group: u32, from: Option<u32>) -> Asked {
    Asked::Rows(Pages {
        group,
        from,
        after: None,
        latest: false,
        limit: 50,
        per: None,
    })
}

/// The first rows of group 1, so many of each start.
fn of_each_start(per: u32, limit: u32) -> Asked {
    Asked::Rows(Pages {
        group: 1,
        from: None,
        after: None,
        latest: false,
        limit,
        per: Some(per),
    })
}

#[test]
fn pages_show_1_to_500_rows_and_as_many_of_a_start(rt: HostRuntime) -> Result<(), Fail> {
    let rows = [(EIGHT, 1), (NINE, 1), (TEN, 1), (ELEVEN, 1)];
    let lines = [
        (
            of_each_start(1, 50),
            Told::Page(rows, 4, (ELEVEN, 1), true),
            0,
        ),
        (of_each_start(0, 50), Told::Bad(Field::Per), 0),
        (of_each_start(501, 50), Told::Bad(Field::Per), 0),
        (of_each_start(0, 0), Told::Bad(Field::Limit), 0),
        (of_each_start(1, 501), Told::Bad(Field::Limit), 0),
    ];
    go_through_trial(&rt, rt.alloc(), &lines)
}

#[test]
fn where_nothing_fits_the_page_is_empty(rt: HostRuntime) -> Result<(), Fail> {
    let empty = Told::Page([(0, 0), (0, 0), (0, 0), (0, 0)], 0, (0, 0), true);
    let lines = [
        (by(1, Wanted::Group(2, EIGHT, 28_935_885, 60)), PUT, 1),
        (fifty(2, None), empty, 1),
        (fifty(1, Some(NOON)), empty, 1),
        (fifty(9, None), Told::Unknown(Table::Group, 9), 1),
        (Asked::Revision, Told::Revision, 1),
    ];
    go_through_trial(&rt, rt.alloc(), &lines)
}

#[test]
fn bad_fields_are_named_after_what_is_not_there(rt: HostRuntime) -> Result<(), Fail> {
    let lines = [
        (work(720, 720, 1), Told::Bad(Field::To), 0),
        (work(800, 720, 1), Told::Bad(Field::To), 0),
        (work(720, 800, 0), Told::Bad(Field::Capacity), 0),
        (work(720, 800, 1001), Told::Bad(Field::Capacity), 0),
        (work(700, 800, 1), Told::Bad(Field::Overlap), 0),
        (
            by(1, Wanted::Resource(4, 1, 9)),
            Told::Unknown(Table::Unit, 9),
            0,
        ),
        (work(480, 700, 2), PUT, 1),
    ];
    go_through_trial(&rt, rt.alloc(), &lines)
}

fn tell(alloc: Global, book: &mut Book, number: u32, act: Act) -> Result<Told, Fail>
    requires { IsServed act }
{
    let command = change(7, number, act)?;
    let answer = book.step(alloc, 3, &command);
    Ok(what_was_told(&answer).0)
}

fn zones(rt: &impl Abort, alloc: Global, book: &mut Book) -> Result<(), Fail> {
    let bare = tell(alloc, book, 1, zone(alloc, 2, &[])?)?;
    assert_eq!(rt; bare, Told::Bad(Field::Shifts));
    let late = tell(alloc, book, 1, zone(alloc, 2, &[(15_778_081, 0)])?)?;
    assert_eq!(rt; late, Told::Bad(Field::Shifts));
    for number in 1..64 {
        let act = zone(alloc, number + 1, &[(15_778_080, 0)])?;
        let told = tell(alloc, book, number, act)?;
        assert_eq!(rt; told, PUT);
    }
    let more = tell(alloc, book, 64, zone(alloc, 65, &[(15_778_080, 0)])?)?;
    assert_eq!(rt; more, Told::Full(Table::Zone));
    let own = tell(alloc, book, 64, zone(alloc, 64, &[(15_778_080, 60)])?)?;
    assert_eq!(rt; own, PUT);
    Ok(())
}

#[test]
fn zones_begin_with_the_horizon(rt: HostRuntime) -> Result<(), Fail> {
    let alloc = rt.alloc();
    let mut book = opened(alloc)?;
    let done = zones(&rt, alloc, &mut book);
    discard(book);
    done
}

fn offsets(rt: &impl Abort, alloc: Global, book: &mut Book) -> Result<(), Fail> {
    let late = tell(alloc, book, 1, late_leaf(alloc, 2, 20_161)?)?;
    assert_eq!(rt; late, Told::Bad(Field::Offset));
    let group = tell(alloc, book, 1, late_leaf(alloc, 2, 60)?)?;
    assert_eq!(rt; group, PUT);
    let book_at = |start| by(2, Wanted::Book(2, start, Picked::One(1)));
    let lines = [
        (
            book_at(ELEVEN),
            Told::NotEligible(0, 1, LeafRule::Window),
            1,
        ),
        (book_at(TEN), Told::Done(Given::Booked(1, 1, 60)), 2),
    ];
    go_through(rt, alloc, book, &lines)
}

#[test]
fn a_leaf_with_an_offset_is_booked_later(rt: HostRuntime) -> Result<(), Fail> {
    let alloc = rt.alloc();
    let mut book = opened(alloc)?;
    let done = offsets(&rt, alloc, &mut book);
    let last = last_end(&book);
    discard(book);
    assert_eq!(&rt; last, NOON);
    done
}

fn names(rt: &impl Abort, alloc: Global, book: &mut Book) -> Result<(), Fail> {
    let sixty = "012345678901234567890123456789012345678901234567890123456789";
    let more = "0123456789012345678901234567890123456789012345678901234567890";
    for text in ["", more, "a\tb"] {
        let told = tell(alloc, book, 1, unit(alloc, 2, text)?)?;
        assert_eq!(rt; told, Told::Bad(Field::Name));
    }
    let told = tell(alloc, book, 1, unit(alloc, 2, sixty)?)?;
    assert_eq!(rt; told, PUT);
    Ok(())
}

#[test]
fn names_have_1_to_60_bytes(rt: HostRuntime) -> Result<(), Fail> {
    let alloc = rt.alloc();
    let mut book = opened(alloc)?;
    let done = names(&rt, alloc, &mut book);
    discard(book);
    done
}
