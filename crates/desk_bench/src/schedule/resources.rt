//! Who works: resources of one unit, one site and one calendar, each with one of five roles.
use crate::stop::Stop;
use desk_base::{
    CalendarId, HasRow, Kind, Name, NamedRow, ResourceId, ResourceRow, SiteId, Tables, UnitId,
};
use std::alloc::Global;

/// How many roles there are.
const ROLES: u16 = 5;

fn named(alloc: Global, id: u16, text: &str) -> Result<NamedRow, Stop> {
    Ok(NamedRow {
        id: u32::from(id),
        name: Name::of(alloc, text)?,
    })
}

/// Adds a unit, a site and the roles.
pub(crate) fn add_names(alloc: Global, tables: &mut Tables) -> Result<(), Stop> {
    tables.units.push(named(alloc, 1, "Main")?)?;
    tables.sites.push(named(alloc, 1, "Depot")?)?;
    for place in 0..ROLES {
        tables.roles.push(named(alloc, place + 1, "Role")?)?;
    }
    Ok(())
}

/// The number of the resource that comes after so many others.
pub(crate) fn resource_after(others: u16) -> Result<ResourceId, Stop> {
    ResourceId::of(u32::from(others) + 1).ok_or(Stop::OutOfRange)
}

fn resource(alloc: Global, others: u16) -> Result<ResourceRow, Stop> {
    Ok(ResourceRow {
        id: resource_after(others)?,
        name: Name::of(alloc, "Worker")?,
        kind: Kind::Generic,
        calendar: CalendarId::of(1),
        unit: UnitId::of(1).ok_or(Stop::OutOfRange)?,
        site: SiteId::of(1).ok_or(Stop::OutOfRange)?,
    })
}

/// The role of the resource that comes after so many others: one after another.
fn role(others: u16) -> Result<HasRow, Stop> {
    Ok(HasRow {
        resource: resource_after(others)?,
        what: u32::from(others % ROLES) + 1,
        rating: 0,
    })
}

/// Adds so many resources with their roles.
pub(crate) fn add_resources(
    alloc: Global,
    tables: &mut Tables,
    resources: u16,
) -> Result<(), Stop> {
    for others in 0..resources {
        tables.resources.push(resource(alloc, others)?)?;
        tables.has_roles.push(role(others)?)?;
    }
    Ok(())
}
