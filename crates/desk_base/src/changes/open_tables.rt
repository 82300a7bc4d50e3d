//! Tables that stand open for a change: lists whose free places show, so that rows are put without memory.
ghost use Rattle.std.specs.Prelude.{◌≡◌, ◌+◌, ◌≤◌, false, OnOk};
ghost use Rattle.desk_base.specs.rows.Types.{Table};
ghost use Rattle.desk_base.specs.rows.Rows.{key_of};
ghost use Rattle.desk_base.specs.asked.Refusing.{is_there};
ghost use Rattle.desk_base.specs.changes.Changes.{with_row, without_key};
ghost use Rattle.desk_base.specs.changes.Formers.{former_at, put_back, HasPlace};
ghost use Rattle.desk_base.specs.rows.Lookups.{KeysRise};
ghost use Rattle.desk_base.specs.changes.OpenTables.{tables_of, room_in};

use crate::changes::formers::Former;
use crate::changes::lookups::{put_in, take_out};
use crate::rows::bookings::{BookingRow, CallerRow};
use crate::rows::calendars::{BreakRow, CalendarRow, DayRow, OffRow, WorkRow, ZoneRow};
use crate::rows::groups::GroupRow;
use crate::rows::resources::{HasRow, MemberRow, NamedRow, ResourceRow};
use crate::rows::tables::{AnyRow, Key, Table, Tables};
use crate::values::items::Items;
use crate::values::memory::NoMemory;

/// The tables, with their lists as vectors.
#[derive(Debug, Drop)]
pub(crate) struct OpenTables {
    pub(crate) zones: Vec<ZoneRow>,
    pub(crate) calendars: Vec<CalendarRow>,
    pub(crate) works: Vec<WorkRow>,
    pub(crate) breaks: Vec<BreakRow>,
    pub(crate) days: Vec<DayRow>,
    pub(crate) offs: Vec<OffRow>,
    pub(crate) units: Vec<NamedRow>,
    pub(crate) sites: Vec<NamedRow>,
    pub(crate) roles: Vec<NamedRow>,
    pub(crate) characteristics: Vec<NamedRow>,
    pub(crate) territories: Vec<NamedRow>,
    pub(crate) resources: Vec<ResourceRow>,
    pub(crate) has_roles: Vec<HasRow>,
    pub(crate) has_characteristics: Vec<HasRow>,
    pub(crate) has_territories: Vec<HasRow>,
    pub(crate) members: Vec<MemberRow>,
    pub(crate) groups: Vec<GroupRow>,
    pub(crate) bookings: Vec<BookingRow>,
    pub(crate) callers: Vec<CallerRow>,
    pub(crate) revision: u64,
    pub(crate) last_booking: u32,
}

impl OpenTables {
    /// Opens the tables. It takes no memory.
    pub(crate) fn of(tables: Tables) -> OpenTables
        ensures { tables_of result ≡ tables }
    {
        OpenTables {
            zones: tables.zones.into_vec(),
            calendars: tables.calendars.into_vec(),
            works: tables.works.into_vec(),
            breaks: tables.breaks.into_vec(),
            days: tables.days.into_vec(),
            offs: tables.offs.into_vec(),
            units: tables.units.into_vec(),
            sites: tables.sites.into_vec(),
            roles: tables.roles.into_vec(),
            characteristics: tables.characteristics.into_vec(),
            territories: tables.territories.into_vec(),
            resources: tables.resources.into_vec(),
            has_roles: tables.has_roles.into_vec(),
            has_characteristics: tables.has_characteristics.into_vec(),
            has_territories: tables.has_territories.into_vec(),
            members: tables.members.into_vec(),
            groups: tables.groups.into_vec(),
            bookings: tables.bookings.into_vec(),
            callers: tables.callers.into_vec(),
            revision: tables.revision,
            last_booking: tables.last_booking,
        }
    }

    /// The tables again.
    pub(crate) fn close(self) -> Tables
        ensures { result ≡ tables_of self }
    {
        Tables {
            zones: Items::from_vec(self.zones),
            calendars: Items::from_vec(self.calendars),
            works: Items::from_vec(self.works),
            breaks: Items::from_vec(self.breaks),
            days: Items::from_vec(self.days),
            offs: Items::from_vec(self.offs),
            units: Items::from_vec(self.units),
            sites: Items::from_vec(self.sites),
            roles: Items::from_vec(self.roles),
            characteristics: Items::from_vec(self.characteristics),
            territories: Items::from_vec(self.territories),
            resources: Items::from_vec(self.resources),
            has_roles: Items::from_vec(self.has_roles),
            has_characteristics: Items::from_vec(self.has_characteristics),
            has_territories: Items::from_vec(self.has_territories),
            members: Items::from_vec(self.members),
            groups: Items::from_vec(self.groups),
            bookings: Items::from_vec(self.bookings),
            callers: Items::from_vec(self.callers),
            revision: self.revision,
            last_booking: self.last_booking,
        }
    }

    /// Takes the memory for so many more rows in the table of this row.
    pub(crate) fn reserve_for(&mut self, row: &AnyRow, count: usize) -> Result<(), NoMemory>
        ensures tables { tables_of self.new ≡ tables_of self.old }
        ensures kept { (table : Table) → room_in self.old table ≤ room_in self.new table }
        ensures room { OnOk result (count ≤ room_in self.new (key_of row.now).table) }
    {
        match row {
            AnyRow::Zone(_) => self.zones.reserve(count)?,
            AnyRow::Calendar(_) => self.calendars.reserve(count)?,
            AnyRow::Work(_) => self.works.reserve(count)?,
            AnyRow::Break(_) => self.breaks.reserve(count)?,
            AnyRow::Day(_) => self.days.reserve(count)?,
            AnyRow::Off(_) => self.offs.reserve(count)?,
            AnyRow::Unit(_) => self.units.reserve(count)?,
            AnyRow::Site(_) => self.sites.reserve(count)?,
            AnyRow::Role(_) => self.roles.reserve(count)?,
            AnyRow::Characteristic(_) => self.characteristics.reserve(count)?,
            AnyRow::Territory(_) => self.territories.reserve(count)?,
            AnyRow::Resource(_) => self.resources.reserve(count)?,
            AnyRow::HasRole(_) => self.has_roles.reserve(count)?,
            AnyRow::HasCharacteristic(_) => self.has_characteristics.reserve(count)?,
            AnyRow::HasTerritory(_) => self.has_territories.reserve(count)?,
            AnyRow::Member(_) => self.members.reserve(count)?,
            AnyRow::Group(_) => self.groups.reserve(count)?,
            AnyRow::Booking(_) => self.bookings.reserve(count)?,
            AnyRow::Caller(_) => self.callers.reserve(count)?,
        }
        Ok(())
    }

    /// Puts a row in the place of the row of its key, or adds it, and gives what stood there. It takes no memory.
    pub(crate) fn put(&mut self, row: AnyRow) -> Former
        requires rise { KeysRise (tables_of self.old) }
        requires room { is_there (tables_of self.old) (key_of row) ≡ false → 1 ≤ room_in self.old (key_of row).table }
        ensures tables { tables_of self.new ≡ with_row (tables_of self.old) row }
        ensures former { result ≡ former_at (tables_of self.old) (key_of row) }
        ensures room { (table : Table) → room_in self.old table ≤ room_in self.new table + 1 }
    {
        match row {
            AnyRow::Zone(row) => put_in(&mut self.zones, Table::Zone, row),
            AnyRow::Calendar(row) => put_in(&mut self.calendars, Table::Calendar, row),
            AnyRow::Work(row) => put_in(&mut self.works, Table::Work, row),
            AnyRow::Break(row) => put_in(&mut self.breaks, Table::Break, row),
            AnyRow::Day(row) => put_in(&mut self.days, Table::Day, row),
            AnyRow::Off(row) => put_in(&mut self.offs, Table::Off, row),
            AnyRow::Unit(row) => put_in(&mut self.units, Table::Unit, row),
            AnyRow::Site(row) => put_in(&mut self.sites, Table::Site, row),
            AnyRow::Role(row) => put_in(&mut self.roles, Table::Role, row),
            AnyRow::Characteristic(row) => put_in(
                &mut self.characteristics,
                Table::Characteristic,
                row,
            ),
            AnyRow::Territory(row) => put_in(&mut self.territories, Table::Territory, row),
            AnyRow::Resource(row) => put_in(&mut self.resources, Table::Resource, row),
            AnyRow::HasRole(row) => put_in(&mut self.has_roles, Table::HasRole, row),
            AnyRow::HasCharacteristic(row) => put_in(
                &mut self.has_characteristics,
                Table::HasCharacteristic,
                row,
            ),
            AnyRow::HasTerritory(row) => put_in(
                &mut self.has_territories,
                Table::HasTerritory,
                row,
            ),
            AnyRow::Member(row) => put_in(&mut self.members, Table::Member, row),
            AnyRow::Group(row) => put_in(&mut self.groups, Table::Group, row),
            AnyRow::Booking(row) => put_in(&mut self.bookings, Table::Booking, row),
            AnyRow::Caller(row) => put_in(&mut self.callers, Table::Caller, row),
        }
    }

    /// Takes out the row of a key, if there is one. It takes no memory.
    pub(crate) fn take_out(&mut self, key: &Key)
        requires { KeysRise (tables_of self.old) }
        ensures tables { tables_of self.new ≡ without_key (tables_of self.old) key.now }
        ensures room { (table : Table) → room_in self.old table ≤ room_in self.new table }
    {
        match key.table {
            Table::Zone => take_out(&mut self.zones, Table::Zone, key),
            Table::Calendar => take_out(&mut self.calendars, Table::Calendar, key),
            Table::Work => take_out(&mut self.works, Table::Work, key),
            Table::Break => take_out(&mut self.breaks, Table::Break, key),
            Table::Day => take_out(&mut self.days, Table::Day, key),
            Table::Off => take_out(&mut self.offs, Table::Off, key),
            Table::Unit => take_out(&mut self.units, Table::Unit, key),
            Table::Site => take_out(&mut self.sites, Table::Site, key),
            Table::Role => take_out(&mut self.roles, Table::Role, key),
            Table::Characteristic => take_out(
                &mut self.characteristics,
                Table::Characteristic,
                key,
            ),
            Table::Territory => take_out(&mut self.territories, Table::Territory, key),
            Table::Resource => take_out(&mut self.resources, Table::Resource, key),
            Table::HasRole => take_out(&mut self.has_roles, Table::HasRole, key),
            Table::HasCharacteristic => take_out(
                &mut self.has_characteristics,
                Table::HasCharacteristic,
                key,
            ),
            Table::HasTerritory => take_out(&mut self.has_territories, Table::HasTerritory, key),
            Table::Member => take_out(&mut self.members, Table::Member, key),
            Table::Group => take_out(&mut self.groups, Table::Group, key),
            Table::Booking => take_out(&mut self.bookings, Table::Booking, key),
            Table::Caller => take_out(&mut self.callers, Table::Caller, key),
            Table::BookingNumbers => {}
        }
    }

    /// Puts back what stood under a key. It takes no memory.
    pub(crate) fn put_back(&mut self, former: Former)
        requires rise { KeysRise (tables_of self.old) }
        requires place { HasPlace (tables_of self.old) former }
        ensures { tables_of self.new ≡ put_back (tables_of self.old) former }
    {
        match former {
            Former::Row(row) => {
                let _later = self.put(row);
            }
            Former::Nothing(key) => self.take_out(&key),
        }
    }
}
