//! Requirement groups: a window, a grid of starts, and a tree of leaves.
ghost use Rattle.std.specs.Prelude.{◌≡◌, ◌≤◌};
ghost use Rattle.desk_base.specs.rules.Limits.{end_of_minutes};
ghost use Rattle.desk_base.specs.meaning.Time.{leaf_time};

use crate::rows::resources::Kind;
use crate::values::ids::{CharacteristicId, GroupId, ResourceId, RoleId, TerritoryId, UnitId};
use crate::values::items::Items;
use crate::values::minutes::{Minute, Window};
use crate::values::names::Name;

/// Kinds, of which a resource is one.
pub type Kinds = Items<Kind>;

/// Roles, of which a resource has at least one.
pub type Roles = Items<RoleId>;

/// Characteristics, all of which a resource has, each with the least rating that serves.
pub type Ratings = Items<(CharacteristicId, u8)>;

/// Territories, of which a resource has at least one.
pub type Territories = Items<TerritoryId>;

/// Units, of one of which a resource is.
pub type Units = Items<UnitId>;

/// Resources by their numbers.
pub type Resources = Items<ResourceId>;

/// The nodes of a tree, in preorder.
pub type Nodes = Items<Node>;

/// The leaves of a tree, in preorder.
pub type Leaves = Items<Leaf>;

/// The number of a leaf, from 0 in preorder.
pub type LeafNo = u8;

/// The number of a node, from 0 in preorder.
pub type NodeNo = u8;

/// An All node needs each of its children, and an Any node exactly one of them.
#[derive(Clone, Copy, Debug, PartialEq, Eq)]
pub enum NodeKind {
    All,
    Any,
    Leaf,
}

/// What the resources chosen under a node are to have in common: nothing, one unit, one site, or one crew of which each is a
/// member throughout its own leaf's time.
#[derive(Clone, Copy, Debug, PartialEq, Eq)]
pub enum Same {
    None,
    Unit,
    Site,
    Crew,
}

/// A node of a tree in preorder. The nodes deeper than it that follow at once stand under it.
#[derive(Clone, Copy, Debug)]
pub struct Node {
    pub depth: u8,
    pub kind: NodeKind,
    pub same: Same,
}

/// What one resource is asked for: a duration in minutes, which begins so many minutes after the start of the group, an effort,
/// and who serves. An empty list makes no demand. The effort is taken of a resource's capacity at each minute.
#[derive(Debug, Drop)]
pub struct Leaf {
    pub duration: u32,
    pub offset: u32,
    pub effort: u32,
    pub kinds: Kinds,
    pub roles: Roles,
    pub characteristics: Ratings,
    pub territories: Territories,
    pub units: Units,
    pub required: Resources,
    pub restricted: Resources,
    pub window: Option<Window>,
}

impl Leaf {
    /// The time of the leaf where its group starts at this minute.
    pub fn time(&self, start: Minute) -> Window
        requires { (leaf_time self.now start).to ≤ end_of_minutes }
        ensures { result ≡ leaf_time self.now start }
    {
        let from = start.get() + self.offset;
        Window {
            from: Minute::of(from).unwrap(),
            to: Minute::of(from + self.duration).unwrap(),
        }
    }
}

/// A requirement group. Its starts are `from` plus whole steps (in minutes), below `to`. Its leaves are those of its tree, in
/// preorder.
#[derive(Debug, Drop)]
pub struct GroupRow {
    pub id: GroupId,
    pub name: Name,
    pub from: Minute,
    pub to: Minute,
    pub step: u16,
    pub nodes: Nodes,
    pub leaves: Leaves,
}
