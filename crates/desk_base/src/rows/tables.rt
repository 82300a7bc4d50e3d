//! The tables of a schedule, and the keys of their rows.
ghost use Rattle.std.specs.Prelude.{◌≡◌};
ghost use Rattle.desk_base.specs.rows.Trial.{no_rows};

use crate::rows::bookings::{BookingRow, CallerRow};
use crate::rows::calendars::{BreakRow, CalendarRow, DayRow, OffRow, WorkRow, ZoneRow};
use crate::rows::groups::GroupRow;
use crate::rows::resources::{HasRow, MemberRow, NamedRow, ResourceRow};
use crate::values::items::Items;
use std::alloc::Global;

/// The tables, in the order of their numbers, and last the numbers of bookings, which have a limit of their own.
#[derive(Clone, Copy, Debug, PartialEq, Eq)]
pub enum Table {
    Zone,
    Calendar,
    Work,
    Break,
    Day,
    Off,
    Unit,
    Site,
    Role,
    Characteristic,
    Territory,
    Resource,
    HasRole,
    HasCharacteristic,
    HasTerritory,
    Member,
    Group,
    Booking,
    Caller,
    BookingNumbers,
}

/// What a row stands under. Numbers that a table does not use are 0.
#[derive(Clone, Copy, Debug, PartialEq, Eq)]
pub struct Key {
    pub table: Table,
    pub a: u32,
    pub b: u32,
    pub c: u32,
}

/// A row of any table.
#[derive(Debug, Drop)]
pub enum AnyRow {
    Zone(ZoneRow),
    Calendar(CalendarRow),
    Work(WorkRow),
    Break(BreakRow),
    Day(DayRow),
    Off(OffRow),
    Unit(NamedRow),
    Site(NamedRow),
    Role(NamedRow),
    Characteristic(NamedRow),
    Territory(NamedRow),
    Resource(ResourceRow),
    HasRole(HasRow),
    HasCharacteristic(HasRow),
    HasTerritory(HasRow),
    Member(MemberRow),
    Group(GroupRow),
    Booking(BookingRow),
    Caller(CallerRow),
}

/// A schedule: each table in rising key order, the number of accepted changes, and the greatest booking number ever given.
#[derive(Debug, Drop)]
pub struct Tables {
    pub zones: Items<ZoneRow>,
    pub calendars: Items<CalendarRow>,
    pub works: Items<WorkRow>,
    pub breaks: Items<BreakRow>,
    pub days: Items<DayRow>,
    pub offs: Items<OffRow>,
    pub units: Items<NamedRow>,
    pub sites: Items<NamedRow>,
    pub roles: Items<NamedRow>,
    pub characteristics: Items<NamedRow>,
    pub territories: Items<NamedRow>,
    pub resources: Items<ResourceRow>,
    pub has_roles: Items<HasRow>,
    pub has_characteristics: Items<HasRow>,
    pub has_territories: Items<HasRow>,
    pub members: Items<MemberRow>,
    pub groups: Items<GroupRow>,
    pub bookings: Items<BookingRow>,
    pub callers: Items<CallerRow>,
    pub revision: u64,
    pub last_booking: u32,
}

impl Tables {
    /// The tables of a new desk. They take no memory.
    pub fn empty(alloc: Global) -> Tables
        ensures { result ≡ no_rows }
    {
        Tables {
            zones: Items::new(alloc),
            calendars: Items::new(alloc),
            works: Items::new(alloc),
            breaks: Items::new(alloc),
            days: Items::new(alloc),
            offs: Items::new(alloc),
            units: Items::new(alloc),
            sites: Items::new(alloc),
            roles: Items::new(alloc),
            characteristics: Items::new(alloc),
            territories: Items::new(alloc),
            resources: Items::new(alloc),
            has_roles: Items::new(alloc),
            has_characteristics: Items::new(alloc),
            has_territories: Items::new(alloc),
            members: Items::new(alloc),
            groups: Items::new(alloc),
            bookings: Items::new(alloc),
            callers: Items::new(alloc),
            revision: 0,
            last_booking: 0,
        }
    }
}
