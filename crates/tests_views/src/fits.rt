//! The first start at which a booking has room.
use crate::acts::{Booking, Wanted};
use crate::books::{EIGHT, ELEVEN, HALF_PAST_TEN, NINE, NOON, TEN, book_with};
use crate::questions::{Among, Sought, are_first};
use crate::schedules::{THREE_AT_A_TIME, TWO_EFFORTS, TWO_HOURS};
use desk_base::laws::sound_tables_are_well_formed;
use desk_core::Book;
use desk_load::{FreeView, LoadIndex};
use std::alloc::Global;
use std::process::Abort;
use std::test::Fail;

/// Each full and each half hour from 08:00 to 11:00.
const HALF_HOURS: Among = (EIGHT, ELEVEN, 30);

/// Each minute from 08:00 to 11:00.
const MINUTES: Among = (EIGHT, ELEVEN, 1);

/// Seeks the rows in a view of the book.
fn seek_all(
    rt: &impl Abort,
    alloc: Global,
    book: &Book,
    rows: &[(Sought, Among, Option<u32>)],
) -> Result<(), Fail> {
    sound_tables_are_well_formed();
    let tables = book.tables();
    let index = LoadIndex::build(alloc, tables)?;
    let view = FreeView::build(alloc, &index, tables, None)?;
    are_first(rt, &view, rows);
    Ok(())
}

/// Seeks the rows in a book with these rows and bookings.
fn seek_over(
    rt: &impl Abort,
    alloc: Global,
    rows: &[Wanted],
    bookings: &[Booking],
    sought: &[(Sought, Among, Option<u32>)],
) -> Result<(), Fail> {
    let book = book_with(alloc, rows, bookings)?;
    seek_all(rt, alloc, &book, sought)
}

/// Where a booking first has room beside the two hours.
const BESIDE_TWO_HOURS: [(Sought, Among, Option<u32>); 13] = [
    ((1, 1, 60), HALF_HOURS, Some(NINE)),
    ((1, 1, 60), MINUTES, Some(NINE)),
    ((1, 1, 61), MINUTES, None),
    ((1, 1, 60), (NINE + 1, ELEVEN, 1), Some(ELEVEN)),
    ((1, 1, 60), (NINE + 1, ELEVEN - 1, 1), None),
    ((1, 1, 60), (EIGHT + 10, NOON, 30), None),
    ((1, 1, 50), (EIGHT + 10, NOON, 30), Some(NINE + 10)),
    ((1, 1, 60), (EIGHT, NINE - 1, 30), None),
    ((1, 1, 60), (NINE, EIGHT, 30), None),
    ((2, 1, 240), HALF_HOURS, Some(EIGHT)),
    ((2, 1, 241), HALF_HOURS, None),
    ((2, 1, 60), (EIGHT - 240, NOON, 30), Some(EIGHT)),
    ((3, 1, 60), MINUTES, Some(TEN)),
];

#[test]
fn the_first_gap_that_is_long_enough(rt: HostRuntime) -> Result<(), Fail> {
    seek_over(&rt, rt.alloc(), &[], &TWO_HOURS, &BESIDE_TWO_HOURS)
}

/// On 1 from 08:00 to 09:00 and from 09:59 to 10:30.
const A_SHORT_GAP: [Booking; 2] = [(2, 1, EIGHT, 60, 1), (3, 1, TEN - 1, 31, 1)];

/// Where a booking first has room, with gaps from 09:00 to 09:59 and from 10:30 to 12:00.
const BESIDE_A_SHORT_GAP: [(Sought, Among, Option<u32>); 6] = [
    ((1, 1, 59), MINUTES, Some(NINE)),
    ((1, 1, 60), MINUTES, Some(HALF_PAST_TEN)),
    ((1, 1, 60), HALF_HOURS, Some(HALF_PAST_TEN)),
    ((1, 1, 60), (EIGHT, ELEVEN, 60), Some(ELEVEN)),
    ((1, 1, 90), MINUTES, Some(HALF_PAST_TEN)),
    ((1, 1, 91), MINUTES, None),
];

#[test]
fn a_gap_that_is_one_minute_too_short(rt: HostRuntime) -> Result<(), Fail> {
    seek_over(&rt, rt.alloc(), &[], &A_SHORT_GAP, &BESIDE_A_SHORT_GAP)
}

/// Where an effort first has room beside one of 2 from 08:00 and one of 1 from 09:00.
const BESIDE_EFFORTS: [(Sought, Among, Option<u32>); 6] = [
    ((4, 1, 60), HALF_HOURS, Some(EIGHT)),
    ((4, 2, 60), HALF_HOURS, Some(NINE)),
    ((4, 3, 60), HALF_HOURS, Some(TEN)),
    ((4, 3, 120), HALF_HOURS, Some(TEN)),
    ((4, 3, 121), HALF_HOURS, None),
    ((4, 4, 60), HALF_HOURS, None),
];

#[test]
fn more_effort_fits_later(rt: HostRuntime) -> Result<(), Fail> {
    seek_over(
        &rt,
        rt.alloc(),
        &THREE_AT_A_TIME,
        &TWO_EFFORTS,
        &BESIDE_EFFORTS,
    )
}

/// The clocks of 4 go from one hour ahead to two at 09:00 UTC, and those of 5 from two to one. Both work from 08:00 to 12:00 by
/// their clocks: 4 from 07:00 to 10:00 UTC, and 5 from 06:00 to 11:00.
const TWO_ZONES: [Wanted; 8] = [
    Wanted::Zone(2, 60, NINE, 120),
    Wanted::Calendar(3, 2),
    Wanted::Work(3, 480, 720, 1),
    Wanted::Resource(4, 3),
    Wanted::Zone(3, 120, NINE, 60),
    Wanted::Calendar(4, 3),
    Wanted::Work(4, 480, 720, 1),
    Wanted::Resource(5, 4),
];

/// From 04:00 to 12:00 UTC.
const LONG: Among = (EIGHT - 240, NOON, 30);

/// Three hours of 4 and five hours of 5 have room, and not one minute more.
const IN_TWO_ZONES: [(Sought, Among, Option<u32>); 4] = [
    ((4, 1, 180), LONG, Some(EIGHT - 60)),
    ((4, 1, 181), LONG, None),
    ((5, 1, 300), LONG, Some(EIGHT - 120)),
    ((5, 1, 301), LONG, None),
];

#[test]
fn clocks_that_are_set_while_they_work(rt: HostRuntime) -> Result<(), Fail> {
    seek_over(&rt, rt.alloc(), &TWO_ZONES, &[], &IN_TWO_ZONES)
}
