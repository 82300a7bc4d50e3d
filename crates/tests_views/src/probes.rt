//! What a probe tells: that a booking has room, or the first minute at which it has none.
use crate::acts::{Booking, Wanted};
use crate::books::{EIGHT, ELEVEN, HALF_PAST_EIGHT, HALF_PAST_TEN, NINE, NOON, TEN, book_with};
use crate::questions::{Asked, Told, are_told};
use crate::schedules::{THREE_AT_A_TIME, TWO_EFFORTS, TWO_HOURS};
use desk_base::laws::sound_tables_are_well_formed;
use desk_core::Book;
use desk_load::{FreeView, LoadIndex};
use std::alloc::Global;
use std::process::Abort;
use std::test::Fail;

/// Asks the questions of a view of a book.
fn ask_all(
    rt: &impl Abort,
    alloc: Global,
    book: &Book,
    rows: &[(Asked, Told)],
) -> Result<(), Fail> {
    sound_tables_are_well_formed();
    let tables = book.tables();
    let index = LoadIndex::build(alloc, tables)?;
    let view = FreeView::build(alloc, &index, tables, None)?;
    are_told(rt, &view, rows);
    Ok(())
}

/// Asks the questions of a book with these rows and bookings.
fn ask_over(
    rt: &impl Abort,
    alloc: Global,
    rows: &[Wanted],
    bookings: &[Booking],
    asked: &[(Asked, Told)],
) -> Result<(), Fail> {
    let book = book_with(alloc, rows, bookings)?;
    ask_all(rt, alloc, &book, asked)
}

/// What is told of 1 and of 3, which work from 08:00 and from 10:00.
const IN_AND_OUT_OF_WORK: [(Asked, Told); 9] = [
    ((1, EIGHT, NINE, 1), Told::Free),
    ((1, EIGHT, NOON, 1), Told::Free),
    ((1, NINE, NINE, 1), Told::Free),
    ((1, EIGHT, NINE, 0), Told::Free),
    ((1, EIGHT, NINE, 2), Told::Short(1, EIGHT)),
    (
        (1, EIGHT - 30, HALF_PAST_EIGHT, 1),
        Told::Short(1, EIGHT - 30),
    ),
    ((1, ELEVEN, NOON + 1, 1), Told::Short(1, NOON)),
    ((3, NINE, TEN, 1), Told::Short(3, NINE)),
    ((3, TEN, ELEVEN, 1), Told::Free),
];

#[test]
fn without_bookings_only_the_work_counts(rt: HostRuntime) -> Result<(), Fail> {
    ask_over(&rt, rt.alloc(), &[], &[], &IN_AND_OUT_OF_WORK)
}

/// What is told beside the two hours.
const BESIDE_TWO_HOURS: [(Asked, Told); 8] = [
    ((1, EIGHT, NINE, 1), Told::Short(1, EIGHT)),
    (
        (1, HALF_PAST_EIGHT, NINE + 30, 1),
        Told::Short(1, HALF_PAST_EIGHT),
    ),
    ((1, NINE - 1, TEN, 1), Told::Short(1, NINE - 1)),
    ((1, NINE, TEN, 1), Told::Free),
    ((1, NINE, TEN + 1, 1), Told::Short(1, TEN)),
    ((1, HALF_PAST_TEN, NOON, 1), Told::Short(1, HALF_PAST_TEN)),
    ((1, ELEVEN, NOON, 1), Told::Free),
    ((2, EIGHT, NOON, 1), Told::Free),
];

#[test]
fn bookings_may_touch_and_not_meet(rt: HostRuntime) -> Result<(), Fail> {
    ask_over(&rt, rt.alloc(), &[], &TWO_HOURS, &BESIDE_TWO_HOURS)
}

/// What is told beside an effort of 2 from 08:00 and one of 1 from 09:00.
const BESIDE_EFFORTS: [(Asked, Told); 6] = [
    ((4, EIGHT, NOON, 1), Told::Free),
    ((4, EIGHT, NINE, 2), Told::Short(4, EIGHT)),
    ((4, NINE, NOON, 2), Told::Free),
    ((4, NINE + 30, NOON, 3), Told::Short(4, NINE + 30)),
    ((4, TEN, NOON, 3), Told::Free),
    ((4, TEN, NOON, 4), Told::Short(4, TEN)),
];

#[test]
fn efforts_are_added(rt: HostRuntime) -> Result<(), Fail> {
    ask_over(
        &rt,
        rt.alloc(),
        &THREE_AT_A_TIME,
        &TWO_EFFORTS,
        &BESIDE_EFFORTS,
    )
}
