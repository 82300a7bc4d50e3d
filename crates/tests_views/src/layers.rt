//! A view without a group's bookings, and with others laid on top.
use crate::acts::Booking;
use crate::books::{EIGHT, ELEVEN, NINE, TEN, book_with};
use crate::questions::{Among, Asked, Sought, Told, are_first, are_told, ask_of};
use desk_base::GroupId;
use desk_base::laws::sound_tables_are_well_formed;
use desk_core::Book;
use desk_load::{FreeView, LoadIndex};
use std::alloc::Global;
use std::process::Abort;
use std::test::Fail;

/// Of groups 2 and 3 on 1, from 08:00 to 09:00 and from 10:00 to 11:00, and of group 4 on 2 from 08:00 to 09:00.
const THREE_HOURS: [Booking; 3] = [
    (2, 1, EIGHT, 60, 1),
    (3, 1, TEN, 60, 1),
    (4, 2, EIGHT, 60, 1),
];

/// Asks the rows of a view without a group.
fn ask_without(
    rt: &impl Abort,
    alloc: Global,
    book: &Book,
    group: u32,
    rows: &[(Asked, Told)],
) -> Result<(), Fail> {
    sound_tables_are_well_formed();
    let tables = book.tables();
    let index = LoadIndex::build(alloc, tables)?;
    let view = FreeView::build(alloc, &index, tables, GroupId::of(group))?;
    are_told(rt, &view, rows);
    Ok(())
}

/// What is told without group 2.
const WITHOUT_2: [(Asked, Told); 3] = [
    ((1, EIGHT, TEN, 1), Told::Free),
    ((1, NINE, ELEVEN, 1), Told::Short(1, TEN)),
    ((2, EIGHT, NINE, 1), Told::Short(2, EIGHT)),
];

/// What is told without group 3.
const WITHOUT_3: [(Asked, Told); 3] = [
    ((1, EIGHT, TEN, 1), Told::Short(1, EIGHT)),
    ((1, NINE, ELEVEN, 1), Told::Free),
    ((2, EIGHT, NINE, 1), Told::Short(2, EIGHT)),
];

/// What is told without group 1, which has no booking.
const WITHOUT_1: [(Asked, Told); 2] = [
    ((1, EIGHT, TEN, 1), Told::Short(1, EIGHT)),
    ((2, EIGHT, NINE, 1), Told::Short(2, EIGHT)),
];

/// Asks without each of the groups 1, 2 and 3 in turn.
fn ask_without_each(rt: &impl Abort, alloc: Global) -> Result<(), Fail> {
    let book = book_with(alloc, &[], &THREE_HOURS)?;
    ask_without(rt, alloc, &book, 1, &WITHOUT_1)?;
    ask_without(rt, alloc, &book, 2, &WITHOUT_2)?;
    ask_without(rt, alloc, &book, 3, &WITHOUT_3)
}

#[test]
fn a_group_does_not_meet_itself(rt: HostRuntime) -> Result<(), Fail> {
    ask_without_each(&rt, rt.alloc())
}

/// An hour of 1 from 09:00.
const HOUR: Asked = (1, NINE, TEN, 1);

/// What is told while nothing is laid on top.
const BARE: [(Asked, Told); 1] = [(HOUR, Told::Free)];

/// What is told with the hour laid on top.
const LAID: [(Asked, Told); 2] = [
    (HOUR, Told::Short(1, NINE)),
    ((2, NINE, TEN, 1), Told::Free),
];

/// Where an hour of 1 first has room while nothing is laid on top.
const FIRST_BARE: [(Sought, Among, Option<u32>); 1] = [(
    (1, 1, 60),
    (EIGHT, ELEVEN, 30),
    Some(NINE),
)];

/// Where it first has room with the hour laid on top.
const FIRST_LAID: [(Sought, Among, Option<u32>); 1] = [(
    (1, 1, 60),
    (EIGHT, ELEVEN, 30),
    Some(ELEVEN),
)];

/// Lays the hour on top, and takes it off.
fn lay_an_hour(rt: &impl Abort, view: &mut FreeView<'_>) -> Result<(), Fail> {
    are_told(rt, view, &BARE);
    are_first(rt, view, &FIRST_BARE);
    let laid = ask_of(HOUR).ok_or("no ask")?;
    view.overlay_push(&laid)?;
    are_told(rt, view, &LAID);
    are_first(rt, view, &FIRST_LAID);
    view.overlay_pop();
    are_told(rt, view, &BARE);
    are_first(rt, view, &FIRST_BARE);
    Ok(())
}

fn lay_over(rt: &impl Abort, alloc: Global, book: &Book) -> Result<(), Fail> {
    sound_tables_are_well_formed();
    let tables = book.tables();
    let index = LoadIndex::build(alloc, tables)?;
    let mut view = FreeView::build(alloc, &index, tables, None)?;
    lay_an_hour(rt, &mut view)
}

#[test]
fn what_is_laid_on_top_counts(rt: HostRuntime) -> Result<(), Fail> {
    let alloc = rt.alloc();
    let book = book_with(alloc, &[], &THREE_HOURS)?;
    lay_over(&rt, alloc, &book)
}
