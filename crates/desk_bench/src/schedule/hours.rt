//! The hours of work, from Monday 2025-01-06 on.
use crate::stop::Stop;
use desk_base::{Minute, Window};

/// Monday, 2025-01-06T00:00Z.
pub const MONDAY: u32 = 28_935_360;

/// When work begins, in minutes of the day.
const EIGHT: u32 = 480;

/// Minutes of a day.
pub const DAY: u32 = 1440;

/// Minutes of an hour.
pub const HOUR: u32 = 60;

/// The hour of this number, from 0 at 08:00, of the day that comes so many weekdays after the Monday.
pub(crate) fn hour_of(weekdays: u16, hour: u16) -> Result<Window, Stop> {
    let days = u32::from(weekdays / 5) * 7 + u32::from(weekdays % 5);
    let from = MONDAY + days * DAY + EIGHT + u32::from(hour) * HOUR;
    Ok(Window {
        from: Minute::of(from).ok_or(Stop::OutOfRange)?,
        to: Minute::of(from + HOUR).ok_or(Stop::OutOfRange)?,
    })
}

/// The first hour of the first resource, in which it is booked.
pub fn taken_hour() -> Result<Window, Stop> {
    hour_of(0, 0)
}

/// Its second hour, in which it is free.
pub fn free_hour() -> Result<Window, Stop> {
    hour_of(0, 1)
}
