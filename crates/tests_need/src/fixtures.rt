//! Nodes, leaves, groups and tables.
ghost use Rattle.std.specs.Prelude.{IfSome};
ghost use Rattle.desk_base.specs.rows.Lookups.{KeysRise};

use desk_base::{
    AnyRow, AnyRows, Change, GroupId, GroupRow, HasRow, Items, Kind, Leaf, MemberRow, Minute, Name,
    NoMemory, Node, NodeKind, ResourceId, ResourceRow, Same, SiteId, Tables, UnitId,
};
use std::alloc::{AllocError, Global};

/// Monday, 2025-01-06T08:00Z.
pub(crate) const EIGHT: u32 = 28_935_840;

/// Minutes of an hour.
pub(crate) const HOUR: u32 = 60;

fn node(depth: u8, kind: NodeKind) -> Node {
    Node {
        depth,
        kind,
        same: Same::None,
    }
}

pub(crate) fn all(depth: u8) -> Node {
    node(depth, NodeKind::All)
}

pub(crate) fn any(depth: u8) -> Node {
    node(depth, NodeKind::Any)
}

pub(crate) fn leaf(depth: u8) -> Node {
    node(depth, NodeKind::Leaf)
}

/// The node with a part-of-same.
pub(crate) fn with(node: Node, same: Same) -> Node {
    Node {
        depth: node.depth,
        kind: node.kind,
        same,
    }
}

/// An All node over so many leaves.
pub(crate) fn flat(alloc: Global, leaves: usize) -> Result<Vec<Node>, AllocError> {
    let mut nodes = Vec::new(alloc);
    nodes.push(all(0))?;
    for _ in 0..leaves {
        nodes.push(leaf(1))?;
    }
    Ok(nodes)
}

/// An Any node over four Any nodes, each over six leaves.
pub(crate) fn any_of_any(alloc: Global) -> Result<Vec<Node>, AllocError> {
    let mut nodes = Vec::new(alloc);
    nodes.push(any(0))?;
    for at in 0..24u8 {
        if at % 6 == 0 {
            nodes.push(any(1))?;
        }
        nodes.push(leaf(2))?;
    }
    Ok(nodes)
}

/// A leaf of an hour that makes no demand.
pub(crate) fn hour(alloc: Global) -> Leaf {
    Leaf {
        duration: HOUR,
        offset: 0,
        effort: 1,
        kinds: Items::new(alloc),
        roles: Items::new(alloc),
        characteristics: Items::new(alloc),
        territories: Items::new(alloc),
        units: Items::new(alloc),
        required: Items::new(alloc),
        restricted: Items::new(alloc),
        window: None,
    }
}

/// A group of these nodes, each of whose leaves asks for an hour from 08:00 to 12:00.
pub(crate) fn group(alloc: Global, nodes: &[Node], leaves: usize) -> Option<GroupRow> {
    let mut hours = Items::new(alloc);
    for _ in 0..leaves {
        hours.push(hour(alloc)).ok()?;
    }
    Some(GroupRow {
        id: GroupId::of(1)?,
        name: Name::of(alloc, "Visit").ok()?,
        from: Minute::of(EIGHT)?,
        to: Minute::of(EIGHT + 4 * HOUR)?,
        step: 60,
        nodes: Items::from_slice(alloc, nodes).ok()?,
        leaves: hours,
    })
}

/// Picks by their numbers: 0 for a leaf that is left out.
pub(crate) fn picks(alloc: Global, numbers: &[u32]) -> Option<Vec<Option<ResourceId>>> {
    let mut picks = Vec::new(alloc);
    for number in numbers {
        picks.push(ResourceId::of(*number)).ok()?;
    }
    Some(picks)
}

/// A resource of this number, kind, unit and site.
pub(crate) fn resource(alloc: Global, id: u32, kind: Kind, unit: u32, site: u32) -> Option<AnyRow> {
    Some(AnyRow::Resource(ResourceRow {
        id: ResourceId::of(id)?,
        name: Name::of(alloc, "Worker").ok()?,
        kind,
        calendar: None,
        unit: UnitId::of(unit)?,
        site: SiteId::of(site)?,
    }))
}

/// A role that a resource has.
pub(crate) fn role(resource: u32, what: u32) -> Option<AnyRow> {
    Some(AnyRow::HasRole(HasRow {
        resource: ResourceId::of(resource)?,
        what,
        rating: 0,
    }))
}

/// A characteristic that a resource has.
pub(crate) fn characteristic(resource: u32, what: u32, rating: u8) -> Option<AnyRow> {
    Some(AnyRow::HasCharacteristic(HasRow {
        resource: ResourceId::of(resource)?,
        what,
        rating,
    }))
}

/// A membership, from so many minutes after 08:00 to so many.
pub(crate) fn member(group: u32, member: u32, from: u16, to: u16) -> Option<AnyRow> {
    Some(AnyRow::Member(MemberRow {
        group: ResourceId::of(group)?,
        member: ResourceId::of(member)?,
        from: Minute::of(EIGHT + u32::from(from))?,
        to: Minute::of(EIGHT + u32::from(to))?,
    }))
}

/// Tables of these rows.
pub(crate) fn tables(alloc: Global, puts: AnyRows) -> Option<Tables>
    ensures { IfSome result (λ t. KeysRise t) }
{
    let change = Change {
        puts,
        removes: Items::new(alloc),
        revision: 0,
        last_booking: 0,
    };
    match Tables::empty(alloc).prepare(change) {
        Ok(prepared) => Some(prepared.apply()),
        Err(_) => None,
    }
}
