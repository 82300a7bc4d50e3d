//! The trial tables with more rows.
use crate::fixtures::{Asks, Shape, Visit, Wanted};
use desk_base::{
    BookingId, BookingRow, CalendarId, GroupId, GroupRow, HasRow, Items, Kind, Kinds, Leaf, Leaves,
    MemberRow, Minute, Name, NamedRow, NoMemory, Node, Nodes, ResourceId, ResourceRow, Resources,
    RoleId, Roles, SiteId, Tables, UnitId,
};
use std::alloc::Global;
use std::test::Fail;

pub(crate) fn minute(number: u32) -> Result<Minute, Fail> {
    let minute = Minute::of(number).ok_or("no minute")?;
    Ok(minute)
}

pub(crate) fn resource_id(number: u32) -> Result<ResourceId, Fail> {
    let id = ResourceId::of(number).ok_or("no resource")?;
    Ok(id)
}

pub(crate) fn group_id(number: u32) -> Result<GroupId, Fail> {
    let id = GroupId::of(number).ok_or("no group")?;
    Ok(id)
}

fn named_row(alloc: Global, id: u32) -> Result<NamedRow, NoMemory> {
    Ok(NamedRow {
        id,
        name: Name::of(alloc, "X")?,
    })
}

fn resource_row(
    alloc: Global,
    id: u32,
    kind: Kind,
    calendar: u32,
    unit: u32,
) -> Result<ResourceRow, Fail> {
    Ok(ResourceRow {
        id: resource_id(id)?,
        name: Name::of(alloc, "X")?,
        kind,
        calendar: CalendarId::of(calendar),
        unit: UnitId::of(unit).ok_or("no unit")?,
        site: SiteId::of(1).ok_or("no site")?,
    })
}

fn member_row(crew: u32, member: u32, from: u32, to: u32) -> Result<MemberRow, Fail> {
    Ok(MemberRow {
        group: resource_id(crew)?,
        member: resource_id(member)?,
        from: minute(from)?,
        to: minute(to)?,
    })
}

fn has_role(resource: u32, role: u32) -> Result<HasRow, Fail> {
    Ok(HasRow {
        resource: resource_id(resource)?,
        what: role,
        rating: 0,
    })
}

fn booking_row(id: u32, group: u32, resource: u32, from: u32) -> Result<BookingRow, Fail> {
    Ok(BookingRow {
        id: BookingId::of(id).ok_or("no booking")?,
        group: group_id(group)?,
        leaf: 0,
        resource: resource_id(resource)?,
        from: minute(from)?,
        to: minute(from.saturating_add(60))?,
        effort: 1,
    })
}

fn kinds_of(alloc: Global, asks: Asks) -> Result<Kinds, NoMemory> {
    match asks {
        Asks::OfKind(kind) => Items::from_slice(alloc, &[kind]),
        Asks::Nothing => Ok(Items::new(alloc)),
        Asks::WithRole(_) => Ok(Items::new(alloc)),
        Asks::OneOf(_) => Ok(Items::new(alloc)),
    }
}

fn roles_of(alloc: Global, asks: Asks) -> Result<Roles, Fail> {
    let mut roles = Items::new(alloc);
    if let Asks::WithRole(role) = asks {
        roles.push(RoleId::of(role).ok_or("no role")?)?;
    }
    Ok(roles)
}

fn required_of(alloc: Global, asks: Asks) -> Result<Resources, Fail> {
    let mut required = Items::new(alloc);
    if let Asks::OneOf(numbers) = asks {
        for number in numbers {
            required.push(resource_id(*number)?)?;
        }
    }
    Ok(required)
}

fn leaf(alloc: Global, asks: Asks) -> Result<Leaf, Fail> {
    Ok(Leaf {
        duration: 60,
        offset: 0,
        effort: 1,
        kinds: kinds_of(alloc, asks)?,
        roles: roles_of(alloc, asks)?,
        characteristics: Items::new(alloc),
        territories: Items::new(alloc),
        units: Items::new(alloc),
        required: required_of(alloc, asks)?,
        restricted: Items::new(alloc),
        window: None,
    })
}

fn leaves_of(alloc: Global, all: &[Asks]) -> Result<Leaves, Fail> {
    let mut leaves = Items::new(alloc);
    for asks in all {
        leaves.push(leaf(alloc, *asks)?)?;
    }
    Ok(leaves)
}

fn nodes_of(alloc: Global, shapes: &[Shape]) -> Result<Nodes, NoMemory> {
    let mut nodes = Items::new(alloc);
    for shape in shapes {
        nodes.push(Node {
            depth: shape.0,
            kind: shape.1,
            same: shape.2,
        })?;
    }
    Ok(nodes)
}

fn group_row(alloc: Global, visit: &Visit) -> Result<GroupRow, Fail> {
    Ok(GroupRow {
        id: group_id(2)?,
        name: Name::of(alloc, "X")?,
        from: minute(visit.from)?,
        to: minute(visit.to)?,
        step: visit.step,
        nodes: nodes_of(alloc, visit.nodes)?,
        leaves: leaves_of(alloc, visit.leaves)?,
    })
}

fn add_resources(
    alloc: Global,
    resources: &mut Items<ResourceRow>,
    first: u32,
    last: u32,
) -> Result<(), Fail> {
    for id in first..last.saturating_add(1) {
        resources.push(resource_row(alloc, id, Kind::Generic, 1, 1)?)?;
    }
    Ok(())
}

fn add_resource(
    alloc: Global,
    resources: &mut Items<ResourceRow>,
    id: u32,
    kind: Kind,
    calendar: u32,
    unit: u32,
) -> Result<(), Fail> {
    resources.push(resource_row(alloc, id, kind, calendar, unit)?)?;
    Ok(())
}

fn add_named(alloc: Global, rows: &mut Items<NamedRow>, id: u32) -> Result<(), Fail> {
    rows.push(named_row(alloc, id)?)?;
    Ok(())
}

fn add_group(alloc: Global, groups: &mut Items<GroupRow>, visit: &Visit) -> Result<(), Fail> {
    groups.push(group_row(alloc, visit)?)?;
    Ok(())
}

fn add_has(rows: &mut Items<HasRow>, resource: u32, role: u32) -> Result<(), Fail> {
    rows.push(has_role(resource, role)?)?;
    Ok(())
}

fn add_member(rows: &mut Items<MemberRow>, row: MemberRow) -> Result<(), Fail> {
    rows.push(row)?;
    Ok(())
}

fn add_booking(rows: &mut Items<BookingRow>, row: BookingRow) -> Result<(), Fail> {
    rows.push(row)?;
    Ok(())
}

/// Adds a row behind the others of its table.
fn add(alloc: Global, tables: &mut Tables, wanted: Wanted) -> Result<(), Fail> {
    match wanted {
        Wanted::Unit(id) => add_named(alloc, &mut tables.units, id),
        Wanted::Role(id) => add_named(alloc, &mut tables.roles, id),
        Wanted::Resource(id, unit) => {
            add_resource(alloc, &mut tables.resources, id, Kind::Generic, 1, unit)
        }
        Wanted::Resources(first, last) => add_resources(alloc, &mut tables.resources, first, last),
        Wanted::Crew(id) => add_resource(alloc, &mut tables.resources, id, Kind::Crew, 0, 1),
        Wanted::HasRole(resource, role) => add_has(&mut tables.has_roles, resource, role),
        Wanted::Member(crew, member, from, to) => {
            add_member(&mut tables.members, member_row(crew, member, from, to)?)
        }
        Wanted::Group(visit) => add_group(alloc, &mut tables.groups, &visit),
        Wanted::Booking(id, group, resource, from) => {
            add_booking(
                &mut tables.bookings,
                booking_row(id, group, resource, from)?,
            )
        }
    }
}

/// The trial tables with these rows, each behind the others of its table.
pub(crate) fn tables_with(alloc: Global, rows: &[Wanted]) -> Result<Tables, Fail> {
    let mut tables = Tables::trial(alloc)?;
    for row in rows {
        add(alloc, &mut tables, *row)?;
    }
    Ok(tables)
}
