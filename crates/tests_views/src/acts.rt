//! Changes, made of plain values.
ghost use Rattle.std.specs.Prelude.{◌≡◌, ◌∷◌, [], IfOk};
ghost use Rattle.desk_change.specs.Served.{IsServed};

use desk_base::limits::FIRST_MINUTE;
use desk_base::{
    Act, AnyRow, CalendarId, CalendarRow, GroupId, GroupRow, Items, Kind, Leaf, Minute, Name,
    NoMemory, Node, NodeKind, ResourceId, ResourceRow, Same, SiteId, UnitId, WorkRow, ZoneId,
    ZoneRow,
};
use std::alloc::Global;
use std::test::Fail;

/// A row beside those of the trial tables.
#[derive(Clone, Copy)]
pub enum Wanted {
    /// A zone whose clocks are set once: its number, the minutes ahead of UTC, when they are set, and the minutes ahead then.
    Zone(u32, i32, u32, i32),
    /// A calendar and its zone.
    Calendar(u32, u32),
    /// Work on Mondays: its calendar, from, to and capacity.
    Work(u32, u16, u16, u16),
    /// A plain resource and its calendar.
    Resource(u32, u32),
}

/// A booking: its group, resource, start, minutes and effort. The group is made for it.
pub type Booking = (u32, u32, u32, u32, u32);

fn zone_row(alloc: Global, id: u32, before: i32, at: u32, after: i32) -> Result<ZoneRow, Fail> {
    Ok(ZoneRow {
        id: ZoneId::of(id).ok_or("no zone")?,
        name: Name::of(alloc, "X")?,
        shifts: Items::from_slice(alloc, &[(FIRST_MINUTE, before), (at, after)])?,
    })
}

fn calendar_row(alloc: Global, id: u32, zone: u32) -> Result<CalendarRow, Fail> {
    Ok(CalendarRow {
        id: CalendarId::of(id).ok_or("no calendar")?,
        name: Name::of(alloc, "X")?,
        zone: ZoneId::of(zone).ok_or("no zone")?,
    })
}

fn work_row(calendar: u32, from: u16, to: u16, capacity: u16) -> Result<WorkRow, Fail> {
    Ok(WorkRow {
        calendar: CalendarId::of(calendar).ok_or("no calendar")?,
        weekday: 0,
        from,
        to,
        capacity,
    })
}

fn resource_row(alloc: Global, id: u32, calendar: u32) -> Result<ResourceRow, Fail> {
    Ok(ResourceRow {
        id: ResourceId::of(id).ok_or("no resource")?,
        name: Name::of(alloc, "X")?,
        kind: Kind::Generic,
        calendar: CalendarId::of(calendar),
        unit: UnitId::of(1).ok_or("no unit")?,
        site: SiteId::of(1).ok_or("no site")?,
    })
}

/// The change that puts a row.
pub fn put(alloc: Global, wanted: Wanted) -> Result<Act, Fail>
    ensures { IfOk result IsServed }
{
    match wanted {
        Wanted::Zone(id, before, at, after) => {
            let row = zone_row(alloc, id, before, at, after)?;
            Ok(Act::Put(AnyRow::Zone(row)))
        }
        Wanted::Calendar(id, zone) => {
            let row = calendar_row(alloc, id, zone)?;
            Ok(Act::Put(AnyRow::Calendar(row)))
        }
        Wanted::Work(calendar, from, to, capacity) => {
            let row = work_row(calendar, from, to, capacity)?;
            Ok(Act::Put(AnyRow::Work(row)))
        }
        Wanted::Resource(id, calendar) => {
            let row = resource_row(alloc, id, calendar)?;
            Ok(Act::Put(AnyRow::Resource(row)))
        }
    }
}

fn leaf(alloc: Global, duration: u32, effort: u32) -> Leaf {
    Leaf {
        duration,
        offset: 0,
        effort,
        kinds: Items::new(alloc),
        roles: Items::new(alloc),
        characteristics: Items::new(alloc),
        territories: Items::new(alloc),
        units: Items::new(alloc),
        required: Items::new(alloc),
        restricted: Items::new(alloc),
        window: None,
    }
}

fn one<T: Drop>(alloc: Global, item: T) -> Result<Items<T>, NoMemory>
    ensures { IfOk result (λ it. it ≡ item ∷ []) }
{
    let mut items = Items::new(alloc);
    items.push(item)?;
    Ok(items)
}

fn group_row(
    alloc: Global,
    id: GroupId,
    from: Minute,
    to: Minute,
    leaf: Leaf,
) -> Result<GroupRow, NoMemory> {
    let node = Node {
        depth: 0,
        kind: NodeKind::Leaf,
        same: Same::None,
    };
    Ok(GroupRow {
        id,
        name: Name::of(alloc, "X")?,
        from,
        to,
        step: 60,
        nodes: one(alloc, node)?,
        leaves: one(alloc, leaf)?,
    })
}

/// The change that makes the group of a booking.
pub fn group_of(alloc: Global, booking: Booking) -> Result<Act, Fail>
    ensures { IfOk result IsServed }
{
    let (group, _, start, duration, effort) = booking;
    let id = GroupId::of(group).ok_or("no group")?;
    let from = Minute::of(start).ok_or("no minute")?;
    let to = Minute::of(start.saturating_add(duration)).ok_or("no minute")?;
    let row = group_row(alloc, id, from, to, leaf(alloc, duration, effort))?;
    Ok(Act::PutGroup(row))
}

/// The change that books the group.
pub fn book_of(alloc: Global, booking: Booking) -> Result<Act, Fail>
    ensures { IfOk result IsServed }
{
    let (group, resource, start, _, _) = booking;
    let group = GroupId::of(group).ok_or("no group")?;
    let resource = ResourceId::of(resource).ok_or("no resource")?;
    let start = Minute::of(start).ok_or("no minute")?;
    let picks = one(alloc, Some(resource))?;
    Ok(Act::BookGroup {
        group,
        start,
        picks,
    })
}
