//! Hours of a Monday, and rows beside those of the trial tables, written as plain values.
use desk_base::{Kind, NodeKind, Same};

/// Monday 2025-01-06 at 08:00.
pub(crate) const EIGHT: u32 = 28_935_840;

pub(crate) const HALF_PAST_EIGHT: u32 = 28_935_870;

pub(crate) const NINE: u32 = 28_935_900;

pub(crate) const TEN: u32 = 28_935_960;

pub(crate) const ELEVEN: u32 = 28_936_020;

pub(crate) const NOON: u32 = 28_936_080;

/// What a leaf of an hour asks for beside a resource that is free.
#[derive(Clone, Copy)]
pub(crate) enum Asks<'a> {
    Nothing,
    OfKind(Kind),
    WithRole(u32),
    OneOf(&'a [u32]),
}

/// A node: its depth, what it is, and what the resources under it are to have in common.
pub(crate) type Shape = (u8, NodeKind, Same);

/// A node that is a leaf, at depth 0, 1 or 2.
pub(crate) const LEAF: Shape = (0, NodeKind::Leaf, Same::None);

pub(crate) const LEAF_BELOW: Shape = (1, NodeKind::Leaf, Same::None);

pub(crate) const LEAF_TWO_BELOW: Shape = (2, NodeKind::Leaf, Same::None);

/// A node at depth 0 that needs all below it.
pub(crate) const ALL: Shape = (0, NodeKind::All, Same::None);

/// A group: its first start, the minute below which it starts, its step, its nodes and its leaves. Its number is 2.
#[derive(Clone, Copy)]
pub(crate) struct Visit<'a> {
    pub from: u32,
    pub to: u32,
    pub step: u16,
    pub nodes: &'a [Shape],
    pub leaves: &'a [Asks<'a>],
}

/// A row beside those of the trial tables.
#[derive(Clone, Copy)]
pub(crate) enum Wanted<'a> {
    Unit(u32),
    Role(u32),
    /// A resource that works with 1 and 2, and its unit.
    Resource(u32, u32),
    /// Such resources of the first unit, from one number to another.
    Resources(u32, u32),
    Crew(u32),
    /// A resource and its role.
    HasRole(u32, u32),
    /// A crew, its member, and from when to when.
    Member(u32, u32, u32, u32),
    Group(Visit<'a>),
    /// A booking of a group for an hour: its number, the group, the resource and the start.
    Booking(u32, u32, u32, u32),
}
