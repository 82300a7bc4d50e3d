//! The bookings: a hundred of each resource, of an hour each. Four stand on a day, and every second hour is free: resources
//! with odd numbers are booked from 08:00 on and those with even ones from 09:00. The last resource has no hour free on the
//! first two days.
use crate::schedule::groups::{WEEKS, group_number};
use crate::schedule::hours::hour_of;
use crate::schedule::resources::resource_after;
use crate::stop::Stop;
use desk_base::{BookingId, BookingRow, GroupId, Tables, Window};

/// How many bookings a resource has.
const BOOKINGS: u16 = 100;

/// How many hours of work a day has.
const HOURS: u16 = 8;

/// How many bookings a resource has on the days that are full, where some are.
const FULL: u16 = 2 * HOURS;

/// Every second hour.
fn spread(others: u16, number: u16) -> Result<Window, Stop> {
    hour_of(number / 4, number % 4 * 2 + others % 2)
}

/// Two days without a break, and every second hour of the others.
fn crowded(others: u16, number: u16) -> Result<Window, Stop> {
    if number < FULL {
        return hour_of(number / HOURS, number % HOURS);
    }
    spread(others, number - HOURS)
}

/// A booking of the resource that comes after so many others.
pub fn booking(others: u16, number: u16, window: Window) -> Result<BookingRow, Stop> {
    let id = u32::from(others) * u32::from(BOOKINGS) + u32::from(number) + 1;
    let week = number / (BOOKINGS / WEEKS);
    Ok(BookingRow {
        id: BookingId::of(id).ok_or(Stop::OutOfRange)?,
        group: GroupId::of(group_number(others, week)).ok_or(Stop::OutOfRange)?,
        leaf: 0,
        resource: resource_after(others)?,
        from: window.from,
        to: window.to,
        effort: 1,
    })
}

fn add_booking(tables: &mut Tables, others: u16, number: u16, last: bool) -> Result<(), Stop> {
    let window = if last {
        crowded(others, number)?
    } else {
        spread(others, number)?
    };
    let row = booking(others, number, window)?;
    tables.last_booking = row.id.get();
    tables.bookings.push(row)?;
    Ok(())
}

fn add_all(tables: &mut Tables, others: u16, last: bool) -> Result<(), Stop> {
    for number in 0..BOOKINGS {
        add_booking(tables, others, number, last)?;
    }
    Ok(())
}

/// Adds the bookings of so many resources.
pub(crate) fn add_bookings(tables: &mut Tables, resources: u16) -> Result<(), Stop> {
    for others in 0..resources {
        let last = others + 1 == resources;
        add_all(tables, others, last)?;
    }
    Ok(())
}
