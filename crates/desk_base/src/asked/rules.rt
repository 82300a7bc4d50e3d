//! The rules that leaves, rows, trees and tables may break. Those of leaves and tables stand in the order in which they are
//! judged, and those of a node in a tree too.
use crate::rows::groups::{LeafNo, NodeNo};
use crate::values::ids::ResourceId;

/// The rules of a leaf at a resource, all but the last at any start.
#[derive(Clone, Copy, Debug, PartialEq, Eq)]
pub enum LeafRule {
    /// It is of one of the kinds. What is no resource breaks this rule.
    Kind,
    /// It has one of the roles.
    Role,
    /// It has each of the characteristics, with the rating that is asked for or a greater one.
    Characteristic,
    /// It has one of the territories.
    Territory,
    /// It is of one of the units.
    Unit,
    /// It is one of the required resources.
    Required,
    /// It is none of the restricted resources.
    Restricted,
    /// The leaf's time lies inside the group's window and its own.
    Window,
}

/// Whether a start and picks can be booked, or the first point that they break.
#[derive(Clone, Copy, Debug)]
pub enum Verdict {
    /// They can be booked.
    Feasible,
    /// The start is not on the group's grid.
    OffGrid,
    /// The first leaf that lacks a pick, or with whose pick the picks begin none of the tree's patterns.
    BadShape(LeafNo),
    /// The first chosen leaf whose resource breaks a rule of it, and the first rule that it breaks.
    NotEligible(LeafNo, ResourceId, LeafRule),
    /// The first node whose chosen resources are not of the same as it asks.
    NotSame(NodeNo),
    /// With the standing bookings of the other groups they do not fit.
    Unfit,
}

/// The fields of commands and rows, by which a refused one names what is wrong. `Overlap` speaks of a range that meets another
/// row's, `Body` of a body as a whole, and `Other` of a name that is none of these.
#[derive(Clone, Copy, Debug, PartialEq, Eq)]
pub enum Field {
    Name,
    Shifts,
    Weekday,
    To,
    Capacity,
    Overlap,
    Day,
    Id,
    Kind,
    Calendar,
    Rating,
    Group,
    Member,
    Step,
    Duration,
    Offset,
    Effort,
    Kinds,
    Roles,
    Characteristics,
    Territories,
    Units,
    Required,
    Restricted,
    Window,
    Limit,
    Per,
    Act,
    Caller,
    Number,
    Zone,
    From,
    Resource,
    Unit,
    Site,
    What,
    Tree,
    Start,
    Picks,
    Body,
    Other,
}

/// The rules of a tree's nodes.
#[derive(Clone, Copy, Debug, PartialEq, Eq)]
pub enum TreeRule {
    /// There is no node.
    Empty,
    /// There are more nodes than a tree may have.
    Nodes,
    /// A node stands where preorder has no place for its depth, or a leaf node has a part-of-same.
    Order,
    /// A node is too deep.
    Depth,
    /// An inner node has no child.
    Childless,
    /// There are more leaf nodes than a tree may have, or another number of leaves than of leaf nodes.
    Leaves,
}

/// The rules of loaded tables.
#[derive(Clone, Copy, Debug, PartialEq, Eq)]
pub enum TableRule {
    /// The keys of each table rise.
    Order,
    /// No table has more rows than it may.
    Limit,
    /// Each row keeps the rules of its fields and of its tree.
    Field,
    /// Each row that a row names is there.
    Citation,
    /// The standing bookings fit.
    Fits,
    /// A group has no booking, or is booked whole.
    Booked,
    /// The revision and the booking numbers are within their limits.
    Count,
}
