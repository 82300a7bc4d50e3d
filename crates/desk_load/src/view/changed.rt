//! The clash of the standing bookings after a change of one row that says when resources have room.
ghost use Rattle.std.specs.Prelude.{◌≡◌, ◌==◌, [], map, IfOk, MatchOption};
ghost use Rattle.std.specs.List.{list_any};
ghost use Rattle.desk_base.specs.asked.Steps.{IsConflict};
ghost use Rattle.desk_base.specs.meaning.Capacity.{calendar_of};
ghost use Rattle.desk_base.specs.meaning.Load.{Fits, ask_of};
ghost use Rattle.desk_base.specs.rules.Sound.{AreWellFormed};
ghost use Rattle.desk_load.specs.Differing.{DiffersAt, has_calendar, zone_of, is_in_zone, touches, bears_on, suspects_of};
ghost use Rattle.desk_load.specs.Index.{IsIndexOf};

use crate::index::LoadIndex;
use crate::view::clash::clash_standing;
use crate::view::free::FreeView;
use desk_base::{
    CalendarId, Clash, Key, Kind, MemberRow, NoMemory, ResourceId, ResourceRow, Table, Tables,
    ZoneId,
};
use std::alloc::Global;
use std::snapshot::Snapshot;

/// Whether one of the memberships is in the crew or the pool of a number.
fn any_in(rows: &[MemberRow], group: u32) -> bool
    ensures { result ≡ list_any (λ x. x.group == group) rows.now }
{
    rows.iter().any(|row| row.group.get() == group)
}

impl FreeView<'_> {
    /// The calendar of a resource.
    #[tactic(auto, using(crate::proofs::Numbers::keys_climb))]
    fn calendar_of(&self, resource: ResourceId) -> Option<CalendarId>
        ensures { result ≡ calendar_of self.now.tables resource }
    {
        match self.tables.resource(resource) {
            Some(row) => row.calendar,
            None => None,
        }
    }

    /// Whether a resource has the calendar of a number.
    fn has_calendar(&self, resource: ResourceId, number: u32) -> bool
        ensures { result ≡ has_calendar self.now.tables number resource }
    {
        match self.calendar_of(resource) {
            Some(calendar) => calendar.get() == number,
            None => false,
        }
    }

    /// The zone of a calendar.
    #[tactic(auto, using(crate::proofs::Numbers::keys_climb))]
    fn zone_of(&self, calendar: CalendarId) -> Option<ZoneId>
        ensures { result ≡ zone_of self.now.tables calendar }
    {
        match self.tables.calendar(calendar) {
            Some(row) => Some(row.zone),
            None => None,
        }
    }

    /// Whether the calendar of a resource stands in the zone of a number.
    fn is_in_zone(&self, resource: ResourceId, number: u32) -> bool
        ensures { result ≡ is_in_zone self.now.tables number resource }
    {
        match self.calendar_of(resource) {
            Some(calendar) => match self.zone_of(calendar) {
                Some(zone) => zone.get() == number,
                None => false,
            },
            None => false,
        }
    }

    /// Whether a row of the key says something of a resource itself.
    fn touches(&self, key: &Key, resource: ResourceId) -> bool
        ensures { result ≡ touches self.now.tables key.now resource }
    {
        let number = resource.get();
        match key.table {
            Table::Zone => self.is_in_zone(resource, key.a),
            Table::Calendar => self.has_calendar(resource, key.a),
            Table::Work => self.has_calendar(resource, key.a),
            Table::Break => self.has_calendar(resource, key.a),
            Table::Day => self.has_calendar(resource, key.a),
            Table::Off => key.a == number,
            Table::Resource => key.a == number || any_in(self.rows_with(resource), key.a),
            Table::Member => key.a == number || key.b == number,
            _ => false,
        }
    }

    /// Whether a row of the key says something of the member of one of the memberships.
    fn touches_any(&self, key: &Key, rows: &[MemberRow]) -> bool
        ensures { result ≡ list_any (λ x. touches self.now.tables key.now x.member) rows.now }
    {
        rows.iter().any(|row| self.touches(key, row.member))
    }

    /// Whether a row of the key bears on a resource.
    fn bears_on(&self, key: &Key, resource: &ResourceRow) -> bool
        ensures { result ≡ bears_on self.now.tables key.now resource.now }
    {
        match resource.kind {
            Kind::Pool => {
                self.touches(key, resource.id) || self.touches_any(key, self.rows_of(resource.id))
            }
            _ => self.touches(key, resource.id),
        }
    }

    /// The resources on which a row of the key bears. It passes over the resources once, and over the memberships of pools.
    fn suspects(&self, alloc: Global, key: &Key) -> Result<Vec<ResourceId>, NoMemory>
        ensures { IfOk result (λ v. v.items ≡ suspects_of self.now.tables key.now) }
    {
        Ok(
            self.tables
                .resources
                .as_slice()
                .iter()
                .filter(|row| self.bears_on(key, row))
                .map(|row| row.id)
                .collect(alloc)?,
        )
    }
}

/// The clash of the standing bookings after the row of a key was put or taken out in one of the tables that say when resources
/// have room, where they fit before: the least minute, and there the least resource, at which they are above the room. `None`
/// exactly where they fit. It looks only at the resources on which the row bears: those of which it says something, by
/// themselves, by their calendar or its zone, and the pools of these; a resource that is a crew or a pool brings its members.
pub fn clash_changed(
    alloc: Global,
    index: &LoadIndex,
    before: Snapshot<Tables>,
    tables: &Tables,
    key: &Key,
) -> Result<Option<Clash>, NoMemory>
    requires well_formed { AreWellFormed tables.now }
    requires index { IsIndexOf tables.now index.now }
    requires fits { Fits before.value (map ask_of before.value.bookings) }
    requires changed { DiffersAt before.value tables.now key.now }
    ensures { IfOk result (λ c. MatchOption c (Fits tables.now (map ask_of tables.now.bookings)) (λ c. IsConflict tables.now tables.now.bookings [] c)) }
{
    let view = FreeView::of_all(alloc, index, tables);
    let suspects = view.suspects(alloc, key)?;
    Ok(clash_standing(alloc, index, tables, suspects.as_slice()))
}
