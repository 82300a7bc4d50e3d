//! When resources work: Monday to Friday from 08:00 to 16:00, by clocks that show UTC.
use crate::stop::Stop;
use desk_base::limits::FIRST_MINUTE;
use desk_base::{CalendarId, CalendarRow, Items, Name, Tables, WorkRow, ZoneId, ZoneRow};
use std::alloc::Global;

/// When work begins, in minutes of the day.
const EIGHT: u16 = 480;

/// When it ends.
const SIXTEEN: u16 = 960;

fn zone(alloc: Global) -> Result<ZoneRow, Stop> {
    Ok(ZoneRow {
        id: ZoneId::of(1).ok_or(Stop::OutOfRange)?,
        name: Name::of(alloc, "UTC")?,
        shifts: Items::from_slice(alloc, &[(FIRST_MINUTE, 0)])?,
    })
}

fn calendar(alloc: Global) -> Result<CalendarRow, Stop> {
    Ok(CalendarRow {
        id: CalendarId::of(1).ok_or(Stop::OutOfRange)?,
        name: Name::of(alloc, "Week")?,
        zone: ZoneId::of(1).ok_or(Stop::OutOfRange)?,
    })
}

fn work(weekday: u8) -> Result<WorkRow, Stop> {
    Ok(WorkRow {
        calendar: CalendarId::of(1).ok_or(Stop::OutOfRange)?,
        weekday,
        from: EIGHT,
        to: SIXTEEN,
        capacity: 1,
    })
}

/// Adds a zone, and a calendar with the work of five weekdays.
pub(crate) fn add_week(alloc: Global, tables: &mut Tables) -> Result<(), Stop> {
    tables.zones.push(zone(alloc)?)?;
    tables.calendars.push(calendar(alloc)?)?;
    for weekday in 0..5 {
        tables.works.push(work(weekday)?)?;
    }
    Ok(())
}
