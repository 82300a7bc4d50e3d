//! Rows that stand beside those of the trial tables.
use desk_base::{
    BookingId, BookingRow, CalendarId, GroupId, GroupRow, Items, Kind, MemberRow, Minute, Name,
    NamedRow, Node, NodeKind, OffRow, ResourceId, ResourceRow, Same, SiteId, UnitId, WorkRow,
    ZoneId, ZoneRow,
};
use std::alloc::Global;

/// Monday, 2025-01-06T08:00Z.
pub(crate) const EIGHT: u32 = 28_935_840;

/// Minutes of an hour.
const HOUR: u32 = 60;

/// Sixty bytes.
const LONGEST: &str = "A name of sixty bytes, each of them a plain character or so.";

/// A zone of UTC.
pub(crate) fn zone(alloc: Global, id: u32) -> Option<ZoneRow> {
    let mut shifts = Items::new(alloc);
    shifts.push((15_778_080, 0)).ok()?;
    Some(ZoneRow {
        id: ZoneId::of(id)?,
        name: Name::of(alloc, "UTC").ok()?,
        shifts,
    })
}

/// Work of a calendar on Mondays.
pub(crate) fn work(calendar: u32, from: u16, to: u16) -> Option<WorkRow> {
    Some(WorkRow {
        calendar: CalendarId::of(calendar)?,
        weekday: 0,
        from,
        to,
        capacity: 1,
    })
}

/// A minute off.
pub(crate) fn off(resource: u32, from: u32) -> Option<OffRow> {
    Some(OffRow {
        resource: ResourceId::of(resource)?,
        from: Minute::of(from)?,
        to: Minute::of(from.saturating_add(1))?,
    })
}

/// A site of the longest name, and then some more bytes.
pub(crate) fn site(alloc: Global, id: u32, more: &str) -> Option<NamedRow> {
    let mut name = String::from_str(alloc, LONGEST).ok()?;
    name.push_str(more).ok()?;
    Some(NamedRow {
        id,
        name: Name::of(alloc, name.as_str()).ok()?,
    })
}

/// A crew.
pub(crate) fn crew(alloc: Global, id: u32) -> Option<ResourceRow> {
    Some(ResourceRow {
        id: ResourceId::of(id)?,
        name: Name::of(alloc, "Crew").ok()?,
        kind: Kind::Crew,
        calendar: None,
        unit: UnitId::of(1)?,
        site: SiteId::of(1)?,
    })
}

/// A membership of two hours, from an hour after 08:00 on.
pub(crate) fn member(group: u32, member: u32, hour: u32) -> Option<MemberRow> {
    let from = EIGHT + hour.min(24) * HOUR;
    Some(MemberRow {
        group: ResourceId::of(group)?,
        member: ResourceId::of(member)?,
        from: Minute::of(from)?,
        to: Minute::of(from + 2 * HOUR)?,
    })
}

/// A group whose only node has no child.
pub(crate) fn childless(alloc: Global, id: u32) -> Option<GroupRow> {
    let mut nodes = Items::new(alloc);
    nodes
        .push(Node {
            depth: 0,
            kind: NodeKind::All,
            same: Same::None,
        })
        .ok()?;
    Some(GroupRow {
        id: GroupId::of(id)?,
        name: Name::of(alloc, "Visit").ok()?,
        from: Minute::of(EIGHT)?,
        to: Minute::of(EIGHT + HOUR)?,
        step: 60,
        nodes,
        leaves: Items::new(alloc),
    })
}

/// A booking of an hour from 08:00.
pub(crate) fn booking(id: u32, group: u32, resource: u32) -> Option<BookingRow> {
    Some(BookingRow {
        id: BookingId::of(id)?,
        group: GroupId::of(group)?,
        leaf: 0,
        resource: ResourceId::of(resource)?,
        from: Minute::of(EIGHT)?,
        to: Minute::of(EIGHT + HOUR)?,
        effort: 1,
    })
}
