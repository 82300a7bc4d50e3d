//! A crew of twenty-four, and a group that asks for all of them in one crew.
use crate::schedule::groups::{group, group_number, leaf, node};
use crate::schedule::hours::{DAY, MONDAY};
use crate::schedule::resources::resource_after;
use crate::stop::Stop;
use desk_base::{
    GroupRow, Items, Kind, Leaves, MemberRow, Minute, Name, NoMemory, Node, NodeKind, Nodes,
    ResourceRow, Same, SiteId, Tables, UnitId,
};
use std::alloc::Global;

/// How many are in the crew: as many as a group may have leaves.
pub const CREW: u16 = 24;

fn crew(alloc: Global, others: u16) -> Result<ResourceRow, Stop> {
    Ok(ResourceRow {
        id: resource_after(others)?,
        name: Name::of(alloc, "Crew")?,
        kind: Kind::Crew,
        calendar: None,
        unit: UnitId::of(1).ok_or(Stop::OutOfRange)?,
        site: SiteId::of(1).ok_or(Stop::OutOfRange)?,
    })
}

/// The membership, for five days, of the resource that comes after so many others.
fn member(crew: u16, others: u16) -> Result<MemberRow, Stop> {
    Ok(MemberRow {
        group: resource_after(crew)?,
        member: resource_after(others)?,
        from: Minute::of(MONDAY).ok_or(Stop::OutOfRange)?,
        to: Minute::of(MONDAY + 5 * DAY).ok_or(Stop::OutOfRange)?,
    })
}

fn crew_nodes(alloc: Global) -> Result<Nodes, NoMemory> {
    let mut nodes = Items::new(alloc);
    nodes.push(Node {
        depth: 0,
        kind: NodeKind::All,
        same: Same::Crew,
    })?;
    for _ in 0..CREW {
        nodes.push(node(1))?;
    }
    Ok(nodes)
}

fn crew_leaves(alloc: Global) -> Result<Leaves, NoMemory> {
    let mut leaves = Items::new(alloc);
    for _ in 0..CREW {
        leaves.push(leaf(alloc, Items::new(alloc)))?;
    }
    Ok(leaves)
}

fn crew_group(alloc: Global, resources: u16) -> Result<GroupRow, Stop> {
    let nodes = crew_nodes(alloc)?;
    let leaves = crew_leaves(alloc)?;
    group(alloc, group_number(resources, 0), 60, nodes, leaves)
}

/// Adds a crew of the first of so many resources, and the group, behind all that stands.
pub(crate) fn add_crew(alloc: Global, tables: &mut Tables, resources: u16) -> Result<(), Stop> {
    tables.resources.push(crew(alloc, resources)?)?;
    for others in 0..CREW {
        tables.members.push(member(resources, others)?)?;
    }
    tables.groups.push(crew_group(alloc, resources)?)?;
    Ok(())
}
