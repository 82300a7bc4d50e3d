//! Rows that say when work is done: zones, calendars, work, breaks, days and times off.
use crate::values::ids::{CalendarId, ResourceId, ZoneId};
use crate::values::items::Items;
use crate::values::minutes::Minute;
use crate::values::names::Name;

/// Shifts of a zone: from which minute on, and by how many minutes clocks are ahead of UTC.
pub type Shifts = Items<(u32, i32)>;

/// A zone: what clocks show, as shifts that rise by minute.
#[derive(Debug, Drop)]
pub struct ZoneRow {
    pub id: ZoneId,
    pub name: Name,
    pub shifts: Shifts,
}

/// A calendar, which stands in a zone.
#[derive(Debug, Drop)]
pub struct CalendarRow {
    pub id: CalendarId,
    pub name: Name,
    pub zone: ZoneId,
}

/// Work of each week: a weekday from 0 (Monday) to 6, minutes of the day from `from` on and below `to`.
#[derive(Clone, Copy, Debug)]
pub struct WorkRow {
    pub calendar: CalendarId,
    pub weekday: u8,
    pub from: u16,
    pub to: u16,
    pub capacity: u16,
}

/// A break of each week, by local minutes as work is.
#[derive(Clone, Copy, Debug)]
pub struct BreakRow {
    pub calendar: CalendarId,
    pub weekday: u8,
    pub from: u16,
    pub to: u16,
}

/// The capacity of a part of one day, counted in days since 1970-01-01. A day with such rows has no other capacity.
#[derive(Clone, Copy, Debug)]
pub struct DayRow {
    pub calendar: CalendarId,
    pub day: u32,
    pub from: u16,
    pub to: u16,
    pub capacity: u16,
}

/// A time in which a resource has no capacity.
#[derive(Clone, Copy, Debug)]
pub struct OffRow {
    pub resource: ResourceId,
    pub from: Minute,
    pub to: Minute,
}
