//! Copies that equal their originals.
ghost use Rattle.std.specs.Prelude.{◌≡◌, ◌++◌, IfOk};

use crate::rows::calendars::{CalendarRow, ZoneRow};
use crate::rows::groups::{GroupRow, Leaf};
use crate::rows::resources::{NamedRow, ResourceRow};
use crate::rows::tables::Tables;
use crate::search::results::{Found, Position};
use crate::values::items::Items;
use crate::values::memory::NoMemory;
use crate::values::names::Name;
use std::alloc::Global;

/// A value of which an equal one can be made. Where memory is not found, nothing is made.
pub trait Duplicate: Drop {
    /// An equal value, which shares nothing with this one.
    fn copy(&self, alloc: Global) -> Result<Self, NoMemory>
        ensures { IfOk result (λ copy. copy ≡ self.now) };
}

/// A list of copies.
pub(crate) fn copy_items<T: Duplicate>(
    alloc: Global,
    items: &Items<T>,
) -> Result<Items<T>, NoMemory>
    ensures { IfOk result (λ copies. copies ≡ items.now) }
{
    let mut copies = Items::new(alloc);
    for item in items.as_slice() {
        copies.push(item.copy(alloc)?)?;
    }
    Ok(copies)
}

/// A list of items that are copied by their bytes.
pub(crate) fn copy_plain<T: Copy>(alloc: Global, items: &Items<T>) -> Result<Items<T>, NoMemory>
    ensures { IfOk result (λ copies. copies ≡ items.now) }
{
    Items::from_slice(alloc, items.as_slice())
}

impl Duplicate for Name {
    fn copy(&self, alloc: Global) -> Result<Name, NoMemory> {
        Name::of(alloc, self.as_str())
    }
}

impl Duplicate for ZoneRow {
    fn copy(&self, alloc: Global) -> Result<ZoneRow, NoMemory> {
        Ok(ZoneRow {
            id: self.id,
            name: self.name.copy(alloc)?,
            shifts: copy_plain(alloc, &self.shifts)?,
        })
    }
}

impl Duplicate for CalendarRow {
    fn copy(&self, alloc: Global) -> Result<CalendarRow, NoMemory> {
        Ok(CalendarRow {
            id: self.id,
            name: self.name.copy(alloc)?,
            zone: self.zone,
        })
    }
}

impl Duplicate for NamedRow {
    fn copy(&self, alloc: Global) -> Result<NamedRow, NoMemory> {
        Ok(NamedRow {
            id: self.id,
            name: self.name.copy(alloc)?,
        })
    }
}

impl Duplicate for ResourceRow {
    fn copy(&self, alloc: Global) -> Result<ResourceRow, NoMemory> {
        Ok(ResourceRow {
            id: self.id,
            name: self.name.copy(alloc)?,
            kind: self.kind,
            calendar: self.calendar,
            unit: self.unit,
            site: self.site,
        })
    }
}

impl Duplicate for Leaf {
    fn copy(&self, alloc: Global) -> Result<Leaf, NoMemory> {
        Ok(Leaf {
            duration: self.duration,
            offset: self.offset,
            effort: self.effort,
            kinds: copy_plain(alloc, &self.kinds)?,
            roles: copy_plain(alloc, &self.roles)?,
            characteristics: copy_plain(alloc, &self.characteristics)?,
            territories: copy_plain(alloc, &self.territories)?,
            units: copy_plain(alloc, &self.units)?,
            required: copy_plain(alloc, &self.required)?,
            restricted: copy_plain(alloc, &self.restricted)?,
            window: self.window,
        })
    }
}

impl Duplicate for GroupRow {
    fn copy(&self, alloc: Global) -> Result<GroupRow, NoMemory> {
        Ok(GroupRow {
            id: self.id,
            name: self.name.copy(alloc)?,
            from: self.from,
            to: self.to,
            step: self.step,
            nodes: copy_plain(alloc, &self.nodes)?,
            leaves: copy_items(alloc, &self.leaves)?,
        })
    }
}

impl Duplicate for Found {
    fn copy(&self, alloc: Global) -> Result<Found, NoMemory> {
        Ok(Found {
            start: self.start,
            picks: copy_plain(alloc, &self.picks)?,
        })
    }
}

impl Duplicate for Position {
    fn copy(&self, alloc: Global) -> Result<Position, NoMemory> {
        Ok(Position {
            start: self.start,
            picks: copy_plain(alloc, &self.picks)?,
        })
    }
}

impl Duplicate for Tables {
    fn copy(&self, alloc: Global) -> Result<Tables, NoMemory> {
        Ok(Tables {
            zones: copy_items(alloc, &self.zones)?,
            calendars: copy_items(alloc, &self.calendars)?,
            works: copy_plain(alloc, &self.works)?,
            breaks: copy_plain(alloc, &self.breaks)?,
            days: copy_plain(alloc, &self.days)?,
            offs: copy_plain(alloc, &self.offs)?,
            units: copy_items(alloc, &self.units)?,
            sites: copy_items(alloc, &self.sites)?,
            roles: copy_items(alloc, &self.roles)?,
            characteristics: copy_items(alloc, &self.characteristics)?,
            territories: copy_items(alloc, &self.territories)?,
            resources: copy_items(alloc, &self.resources)?,
            has_roles: copy_plain(alloc, &self.has_roles)?,
            has_characteristics: copy_plain(alloc, &self.has_characteristics)?,
            has_territories: copy_plain(alloc, &self.has_territories)?,
            members: copy_plain(alloc, &self.members)?,
            groups: copy_items(alloc, &self.groups)?,
            bookings: copy_plain(alloc, &self.bookings)?,
            callers: copy_plain(alloc, &self.callers)?,
            revision: self.revision,
            last_booking: self.last_booking,
        })
    }
}
