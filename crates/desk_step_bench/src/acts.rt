//! The acts that make the schedule and those that are timed. Work is Monday to Friday from 08:00 to 16:00, UTC, from Monday 2025-01-06 on.
ghost use Rattle.std.specs.Prelude.{IfOk, IfSome};
ghost use Rattle.desk_change.specs.Served.{IsServed};

use crate::stop::Stop;
use desk_base::limits::FIRST_MINUTE;
use desk_base::{
    Act, AnyRow, CalendarId, CalendarRow, GroupId, GroupRow, HasRow, Items, Key, Kind, Leaf,
    Leaves, Minute, Name, NamedRow, Node, NodeKind, Nodes, OffRow, Picks, ResourceId, ResourceRow,
    Same, SiteId, Table, UnitId, WorkRow, ZoneId, ZoneRow,
};
use std::alloc::Global;

/// Monday, 2025-01-06T08:00Z.
pub(crate) const MONDAY: u32 = 28_935_840;

/// Minutes of a day.
pub(crate) const DAY: u32 = 1440;

/// Minutes of an hour.
pub(crate) const HOUR: u32 = 60;

pub(crate) fn minute(number: u32) -> Result<Minute, Stop> {
    Minute::of(number).ok_or(Stop::OutOfRange)
}

pub(crate) fn resource_id(number: u32) -> Result<ResourceId, Stop> {
    ResourceId::of(number).ok_or(Stop::OutOfRange)
}

pub(crate) fn group_id(number: u32) -> Result<GroupId, Stop> {
    GroupId::of(number).ok_or(Stop::OutOfRange)
}

pub(crate) fn zone(alloc: Global) -> Result<Act, Stop>
    ensures { IfOk result IsServed }
{
    let row = ZoneRow {
        id: ZoneId::of(1).ok_or(Stop::OutOfRange)?,
        name: Name::of(alloc, "UTC")?,
        shifts: Items::from_slice(alloc, &[(FIRST_MINUTE, 0)])?,
    };
    Ok(Act::Put(AnyRow::Zone(row)))
}

fn calendar_id(number: u32) -> Result<CalendarId, Stop> {
    CalendarId::of(number).ok_or(Stop::OutOfRange)
}

pub(crate) fn calendar(alloc: Global, number: u32) -> Result<Act, Stop>
    ensures { IfOk result IsServed }
{
    let row = CalendarRow {
        id: calendar_id(number)?,
        name: Name::of(alloc, "Week")?,
        zone: ZoneId::of(1).ok_or(Stop::OutOfRange)?,
    };
    Ok(Act::Put(AnyRow::Calendar(row)))
}

/// The work of a calendar on a weekday.
pub(crate) fn work(number: u32, weekday: u8) -> Result<Act, Stop>
    ensures { IfOk result IsServed }
{
    let row = WorkRow {
        calendar: calendar_id(number)?,
        weekday,
        from: 480,
        to: 960,
        capacity: 1,
    };
    Ok(Act::Put(AnyRow::Work(row)))
}

fn named(alloc: Global, text: &str) -> Result<NamedRow, Stop> {
    Ok(NamedRow {
        id: 1,
        name: Name::of(alloc, text)?,
    })
}

pub(crate) fn unit(alloc: Global) -> Result<Act, Stop>
    ensures { IfOk result IsServed }
{
    let row = named(alloc, "Main")?;
    Ok(Act::Put(AnyRow::Unit(row)))
}

pub(crate) fn site(alloc: Global) -> Result<Act, Stop>
    ensures { IfOk result IsServed }
{
    let row = named(alloc, "Depot")?;
    Ok(Act::Put(AnyRow::Site(row)))
}

pub(crate) fn role(alloc: Global) -> Result<Act, Stop>
    ensures { IfOk result IsServed }
{
    let row = named(alloc, "Fitter")?;
    Ok(Act::Put(AnyRow::Role(row)))
}

/// A resource of a calendar.
pub(crate) fn resource(alloc: Global, number: u32, calendar: u32) -> Result<Act, Stop>
    ensures { IfOk result IsServed }
{
    let row = ResourceRow {
        id: resource_id(number)?,
        name: Name::of(alloc, "Worker")?,
        kind: Kind::Generic,
        calendar: Some(calendar_id(calendar)?),
        unit: UnitId::of(1).ok_or(Stop::OutOfRange)?,
        site: SiteId::of(1).ok_or(Stop::OutOfRange)?,
    };
    Ok(Act::Put(AnyRow::Resource(row)))
}

/// Role 1 of the first resource.
pub(crate) fn has_role() -> Result<Act, Stop>
    ensures { IfOk result IsServed }
{
    let resource = resource_id(1)?;
    Ok(Act::Put(AnyRow::HasRole(HasRow {
        resource,
        what: 1,
        rating: 0,
    })))
}

/// An hour off of a resource.
pub(crate) fn off(resource: u32, from: u32) -> Result<Act, Stop>
    ensures { IfOk result IsServed }
{
    let row = OffRow {
        resource: resource_id(resource)?,
        from: minute(from)?,
        to: minute(from.saturating_add(HOUR))?,
    };
    Ok(Act::Put(AnyRow::Off(row)))
}

/// Takes the row of a key out of its table.
pub(crate) fn removal(table: Table, a: u32, b: u32, c: u32) -> Option<Act>
    ensures { IfSome result IsServed }
{
    let act = Act::Remove(Key { table, a, b, c });
    match table {
        Table::Work => Some(act),
        Table::HasRole => Some(act),
        _ => None,
    }
}

/// Of an hour, so many minutes after the start of the group.
fn leaf(alloc: Global, offset: u32) -> Leaf {
    Leaf {
        duration: HOUR,
        offset,
        effort: 1,
        kinds: Items::new(alloc),
        roles: Items::new(alloc),
        characteristics: Items::new(alloc),
        territories: Items::new(alloc),
        units: Items::new(alloc),
        required: Items::new(alloc),
        restricted: Items::new(alloc),
        window: None,
    }
}

fn node(depth: u8, kind: NodeKind) -> Node {
    Node {
        depth,
        kind,
        same: Same::None,
    }
}

/// A node that needs all of so many leaf nodes.
fn nodes(alloc: Global, leaves: usize) -> Result<Nodes, Stop> {
    let mut nodes = Items::new(alloc);
    nodes.push(node(0, NodeKind::All))?;
    for _ in 0..leaves {
        nodes.push(node(1, NodeKind::Leaf))?;
    }
    Ok(nodes)
}

fn leaves(alloc: Global, offsets: &[u32]) -> Result<Leaves, Stop> {
    let mut leaves = Items::new(alloc);
    for offset in offsets {
        leaves.push(leaf(alloc, *offset))?;
    }
    Ok(leaves)
}

/// A group of a week from a minute on, with a leaf for each of the offsets, all of which are needed.
pub(crate) fn group(alloc: Global, number: u32, from: u32, offsets: &[u32]) -> Result<Act, Stop>
    ensures { IfOk result IsServed }
{
    let row = GroupRow {
        id: group_id(number)?,
        name: Name::of(alloc, "Visit")?,
        from: minute(from)?,
        to: minute(from.saturating_add(7 * DAY))?,
        step: 60,
        nodes: nodes(alloc, offsets.len())?,
        leaves: leaves(alloc, offsets)?,
    };
    Ok(Act::PutGroup(row))
}

/// The same resource, so often.
pub(crate) fn same_picks(alloc: Global, resource: u32, leaves: usize) -> Result<Picks, Stop> {
    let resource = resource_id(resource)?;
    let mut picks = Items::new(alloc);
    for _ in 0..leaves {
        picks.push(Some(resource))?;
    }
    Ok(picks)
}

/// Every second resource from the first on, so many.
pub(crate) fn odd_picks(alloc: Global, leaves: u32) -> Result<Picks, Stop> {
    let mut picks = Items::new(alloc);
    for place in 0..leaves {
        picks.push(Some(resource_id(place.saturating_mul(2).saturating_add(1))?))?;
    }
    Ok(picks)
}
