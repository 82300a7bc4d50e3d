//! The schedule: resources of calendars of fifty, each with a hundred bookings of an hour, four a day and every second hour free. Those
//! with odd numbers are booked from 08:00 on, and those with even ones from 09:00. A group books a week of a resource.
ghost use Rattle.std.specs.Prelude.{IfOk};
ghost use Rattle.desk_change.specs.Served.{IsServed};
ghost use Rattle.desk_base.specs.rules.Sound.{IsSound};

use crate::acts::{
    DAY, HOUR, MONDAY, calendar, group, group_id, minute, resource, role, same_picks, site, unit,
    work, zone,
};
use crate::stop::Stop;
use crate::taking::make;
use desk_base::{Act, NoMemory, Tables};
use desk_core::Book;
use std::alloc::Global;

/// How many resources have one calendar.
pub(crate) const FIFTY: u32 = 50;

/// How many weeks are booked.
const WEEKS: u32 = 5;

/// Four hours of five days, from the first on.
const OFFSETS: [u32; 20] = [
    0, 120, 240, 360, 1440, 1560, 1680, 1800, 2880, 3000, 3120, 3240, 4320, 4440, 4560, 4680, 5760,
    5880, 6000, 6120,
];

#[tactic(auto, using(desk_base::proofs::tables::TrialSound::empty_sound))]
fn no_rows(alloc: Global) -> Tables
    ensures { IsSound result }
{
    Tables::empty(alloc)
}

/// A book over empty tables.
fn opened(alloc: Global) -> Result<Book, NoMemory> {
    match Book::over(alloc, no_rows(alloc)) {
        Ok(book) => Ok(book),
        Err(_tables) => Err(NoMemory),
    }
}

/// The calendar of a resource.
fn calendar_of(resource: u32) -> u32 {
    resource.saturating_sub(1) / FIFTY + 1
}

fn add_calendar(alloc: Global, book: &mut Book, number: u32) -> Result<(), Stop> {
    make(alloc, book, calendar(alloc, number)?)?;
    for weekday in 0..5 {
        make(alloc, book, work(number, weekday)?)?;
    }
    Ok(())
}

/// The group of a week of a resource.
fn group_of(resource: u32, week: u32) -> u32 {
    let before = resource.saturating_sub(1).saturating_mul(WEEKS);
    before.saturating_add(week).saturating_add(1)
}

fn booking(alloc: Global, resource: u32, week: u32, start: u32) -> Result<Act, Stop>
    ensures { IfOk result IsServed }
{
    let group = group_id(group_of(resource, week))?;
    let start = minute(start)?;
    let picks = same_picks(alloc, resource, OFFSETS.len())?;
    Ok(Act::BookGroup {
        group,
        start,
        picks,
    })
}

fn add_week(alloc: Global, book: &mut Book, resource: u32, week: u32) -> Result<(), Stop> {
    let from = MONDAY.saturating_add(week.saturating_mul(7 * DAY));
    let start = if resource % 2 == 1 {
        from
    } else {
        from.saturating_add(HOUR)
    };
    make(
        alloc,
        book,
        group(alloc, group_of(resource, week), from, &OFFSETS)?,
    )?;
    make(alloc, book, booking(alloc, resource, week, start)?)
}

fn add_resource(alloc: Global, book: &mut Book, number: u32) -> Result<(), Stop> {
    make(alloc, book, resource(alloc, number, calendar_of(number))?)?;
    for week in 0..WEEKS {
        add_week(alloc, book, number, week)?;
    }
    Ok(())
}

fn fill(alloc: Global, book: &mut Book, resources: u16) -> Result<(), Stop> {
    make(alloc, book, zone(alloc)?)?;
    make(alloc, book, unit(alloc)?)?;
    make(alloc, book, site(alloc)?)?;
    make(alloc, book, role(alloc)?)?;
    for number in 1..u32::from(resources) + 1 {
        if number % FIFTY == 1 {
            add_calendar(alloc, book, calendar_of(number))?;
        }
        add_resource(alloc, book, number)?;
    }
    Ok(())
}

/// Lets a book go.
fn discard(book: Book) {
    let _ = book;
}

/// A book of so many resources, made by steps.
pub(crate) fn filled(alloc: Global, resources: u16) -> Result<Book, Stop> {
    let mut book = opened(alloc)?;
    match fill(alloc, &mut book, resources) {
        Ok(()) => Ok(book),
        Err(stop) => {
            discard(book);
            Err(stop)
        }
    }
}
