//! The groups: two that are searched, and those of the bookings, one for each week of each resource.
use crate::schedule::hours::{DAY, HOUR, MONDAY};
use crate::stop::Stop;
use desk_base::{
    GroupId, GroupRow, Items, Leaf, Leaves, Minute, Name, NoMemory, Node, NodeKind, Nodes, RoleId,
    Roles, Same, Tables,
};
use std::alloc::Global;

/// How many leaves the group has that asks for many at once.
const TWELVE: u16 = 12;

/// How many weeks are booked.
pub(crate) const WEEKS: u16 = 5;

/// Of an hour.
pub(crate) fn leaf(alloc: Global, roles: Roles) -> Leaf {
    Leaf {
        duration: HOUR,
        offset: 0,
        effort: 1,
        kinds: Items::new(alloc),
        roles,
        characteristics: Items::new(alloc),
        territories: Items::new(alloc),
        units: Items::new(alloc),
        required: Items::new(alloc),
        restricted: Items::new(alloc),
        window: None,
    }
}

/// Role 1.
fn first_role(alloc: Global) -> Result<Roles, Stop> {
    let role = RoleId::of(1).ok_or(Stop::OutOfRange)?;
    Ok(Items::from_slice(alloc, &[role])?)
}

/// A leaf node at this depth.
pub(crate) fn node(depth: u8) -> Node {
    Node {
        depth,
        kind: NodeKind::Leaf,
        same: Same::None,
    }
}

fn one_node(alloc: Global) -> Result<Nodes, NoMemory> {
    Items::from_slice(alloc, &[node(0)])
}

fn one_leaf(alloc: Global, roles: Roles) -> Result<Leaves, NoMemory> {
    let mut leaves = Items::new(alloc);
    leaves.push(leaf(alloc, roles))?;
    Ok(leaves)
}

/// A node that needs all of its leaf nodes, and these.
fn twelve_nodes(alloc: Global) -> Result<Nodes, NoMemory> {
    let mut nodes = Items::new(alloc);
    nodes.push(Node {
        depth: 0,
        kind: NodeKind::All,
        same: Same::None,
    })?;
    for _ in 0..TWELVE {
        nodes.push(node(1))?;
    }
    Ok(nodes)
}

fn twelve_leaves(alloc: Global) -> Result<Leaves, Stop> {
    let mut leaves = Items::new(alloc);
    for _ in 0..TWELVE {
        leaves.push(leaf(alloc, first_role(alloc)?))?;
    }
    Ok(leaves)
}

/// A group that starts in the five days from the Monday on.
pub(crate) fn group(
    alloc: Global,
    id: u32,
    step: u16,
    nodes: Nodes,
    leaves: Leaves,
) -> Result<GroupRow, Stop> {
    Ok(GroupRow {
        id: GroupId::of(id).ok_or(Stop::OutOfRange)?,
        name: Name::of(alloc, "Visit")?,
        from: Minute::of(MONDAY).ok_or(Stop::OutOfRange)?,
        to: Minute::of(MONDAY + 5 * DAY).ok_or(Stop::OutOfRange)?,
        step,
        nodes,
        leaves,
    })
}

/// The group of the bookings in a week of the resource that comes after so many others.
pub(crate) fn group_number(others: u16, week: u16) -> u32 {
    3 + u32::from(others) * u32::from(WEEKS) + u32::from(week)
}

fn booked_group(alloc: Global, id: u32) -> Result<GroupRow, Stop> {
    let leaves = one_leaf(alloc, Items::new(alloc))?;
    group(alloc, id, 60, one_node(alloc)?, leaves)
}

fn add_booked(alloc: Global, tables: &mut Tables, others: u16) -> Result<(), Stop> {
    for week in 0..WEEKS {
        let row = booked_group(alloc, group_number(others, week))?;
        tables.groups.push(row)?;
    }
    Ok(())
}

/// Adds the group of one leaf and the group of twelve, and then those of the bookings of so many resources.
pub(crate) fn add_groups(alloc: Global, tables: &mut Tables, resources: u16) -> Result<(), Stop> {
    let one = one_leaf(alloc, first_role(alloc)?)?;
    let visit = group(alloc, 1, 30, one_node(alloc)?, one)?;
    tables.groups.push(visit)?;
    let twelve = twelve_leaves(alloc)?;
    let many = group(alloc, 2, 60, twelve_nodes(alloc)?, twelve)?;
    tables.groups.push(many)?;
    for others in 0..resources {
        add_booked(alloc, tables, others)?;
    }
    Ok(())
}
