//! The works: each is done so often, and counts the steps that are accepted. They go on behind the weeks that make the schedule, but for
//! hours of the first Monday.
ghost use Rattle.std.specs.Prelude.{IfOk};
ghost use Rattle.desk_change.specs.Served.{IsServed};

use crate::acts::{
    HOUR, MONDAY, group, group_id, has_role, minute, odd_picks, off, removal, same_picks, unit,
};
use crate::stop::Stop;
use crate::taking::{ask, change, make};
use crate::words::Work;
use desk_base::{Act, Options, Query, Table};
use desk_core::Book;
use std::alloc::Global;

/// The group of one leaf that is moved and listed.
const ONE: u32 = 1_000_001;

/// The group of twelve leaves.
const TWELVE: u32 = 1_000_002;

/// The group that is put and dropped.
const OTHER: u32 = 1_000_003;

/// How many leaves the greater group has.
const LEAVES: u32 = 12;

/// Every leaf at the start.
const TOGETHER: [u32; 12] = [0; 12];

/// The hour of this number of the first Monday, from 0 at 08:00.
fn hour(number: u32) -> u32 {
    MONDAY.saturating_add(number.saturating_mul(HOUR))
}

/// Books group 1 at an hour, or moves it there.
fn placed(alloc: Global, moved: bool, number: u32) -> Result<Act, Stop>
    ensures { IfOk result IsServed }
{
    let group = group_id(ONE)?;
    let start = minute(hour(number))?;
    let picks = same_picks(alloc, 1, 1)?;
    if moved {
        Ok(Act::MoveGroup {
            group,
            start,
            picks,
        })
    } else {
        Ok(Act::BookGroup {
            group,
            start,
            picks,
        })
    }
}

/// Books the group of twelve at an hour, or moves it there.
fn placed_twelve(alloc: Global, moved: bool, number: u32) -> Result<Act, Stop>
    ensures { IfOk result IsServed }
{
    let group = group_id(TWELVE)?;
    let start = minute(hour(number))?;
    let picks = odd_picks(alloc, LEAVES)?;
    if moved {
        Ok(Act::MoveGroup {
            group,
            start,
            picks,
        })
    } else {
        Ok(Act::BookGroup {
            group,
            start,
            picks,
        })
    }
}

/// Odd resources are free from 09:00 and from 11:00 on.
fn free(round: u32) -> u32 {
    if round % 2 == 0 { 1 } else { 3 }
}

fn first_page() -> Result<Query, Stop> {
    let group = group_id(ONE)?;
    Ok(Query::Rows {
        group,
        options: Options {
            from: None,
            to: None,
            per: None,
        },
        after: None,
        latest: true,
        limit: 50,
    })
}

/// A row of a key is put, and taken out again.
fn role_round(alloc: Global, book: &mut Book) -> Result<u32, Stop> {
    let put = change(alloc, book, has_role()?)?;
    let removal = removal(Table::HasRole, 1, 1, 0).ok_or(Stop::OutOfRange)?;
    let removed = change(alloc, book, removal)?;
    Ok(put.saturating_add(removed))
}

fn group_round(alloc: Global, book: &mut Book) -> Result<u32, Stop> {
    let put = change(alloc, book, group(alloc, OTHER, MONDAY, &[0])?)?;
    let other = group_id(OTHER)?;
    let dropped = change(alloc, book, Act::DropGroup(other))?;
    Ok(put.saturating_add(dropped))
}

fn work_round(alloc: Global, book: &mut Book) -> Result<u32, Stop> {
    let removal = removal(Table::Work, 1, 0, 480).ok_or(Stop::OutOfRange)?;
    change(alloc, book, removal)
}

/// What a round of the work counts.
fn round_of(alloc: Global, book: &mut Book, work: Work, round: u32) -> Result<u32, Stop> {
    match work {
        Work::Idle => Ok(0),
        Work::Moved => change(alloc, book, placed(alloc, true, free(round))?),
        Work::Conflict => change(alloc, book, placed(alloc, true, 0)?),
        Work::Twelve => change(alloc, book, placed_twelve(alloc, true, free(round))?),
        Work::Unit => change(alloc, book, unit(alloc)?),
        Work::Free => change(alloc, book, off(2, hour(0))?),
        Work::Off => change(alloc, book, off(1, hour(0))?),
        Work::Work => work_round(alloc, book),
        Work::Role => role_round(alloc, book),
        Work::Group => group_round(alloc, book),
        Work::Page => ask(alloc, book, first_page()?),
    }
}

/// Puts and books the groups that are moved: that of one leaf, and that of twelve where there are resources for it.
fn prepare(alloc: Global, book: &mut Book, resources: u16) -> Result<(), Stop> {
    make(alloc, book, group(alloc, ONE, MONDAY, &[0])?)?;
    make(alloc, book, placed(alloc, false, 5)?)?;
    if u32::from(resources) >= 2 * LEAVES {
        make(alloc, book, group(alloc, TWELVE, MONDAY, &TOGETHER)?)?;
        make(alloc, book, placed_twelve(alloc, false, 7)?)?;
    }
    Ok(())
}

/// How many steps of the work are accepted.
pub(crate) fn accepted(
    alloc: Global,
    book: &mut Book,
    work: Work,
    resources: u16,
    rounds: u32,
) -> Result<u32, Stop> {
    prepare(alloc, book, resources)?;
    let mut count: u32 = 0;
    for round in 0..rounds {
        let accepted = round_of(alloc, book, work, round)?;
        count = count.saturating_add(accepted);
    }
    Ok(count)
}
