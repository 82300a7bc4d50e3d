//! What a search is asked, what it finds, and how it goes on.
use crate::values::ids::ResourceId;
use crate::values::items::Items;
use crate::values::minutes::{Minute, Window};

/// A pick for each leaf, in the order of the leaves: a resource, or `None` for a leaf that is left out.
pub type Picks = Items<Option<ResourceId>>;

/// Rows of a search.
pub type Founds = Items<Found>;

/// A row of a search: a start, and a pick for each leaf. Rows are ordered by start, then pick by pick, resource numbers rising
/// and a leaf that is left out last.
#[derive(Debug, Drop)]
pub struct Found {
    pub start: Minute,
    pub picks: Picks,
}

/// A place of a search: a start, and a pick for each of the first leaves. Positions are ordered as rows are, each before its
/// extensions.
#[derive(Debug, Drop)]
pub struct Position {
    pub start: Minute,
    pub picks: Picks,
}

/// From where a search goes on, and over which revision of the schedule. `shown` says how many rows of the position's start were
/// shown up to it, for a search that keeps only the first rows of each start; where it is not given none were.
#[derive(Debug, Drop)]
pub struct Cursor {
    pub revision: u64,
    pub shown: Option<u16>,
    pub position: Position,
}

/// The starts of a search: from `from` on and below `to`, where they are given. With `per` (1 to 500) each start keeps its first
/// `per` rows.
#[derive(Clone, Copy, Debug)]
pub struct Options {
    pub from: Option<Minute>,
    pub to: Option<Minute>,
    pub per: Option<u32>,
}

/// A page of a search. The next page comes after `next`, and at the `end` there is none. Where each start keeps its first rows
/// alone, `shown` says how many rows of the start of `next` were shown up to it.
#[derive(Debug, Drop)]
pub struct Page {
    pub rows: Founds,
    pub next: Option<Position>,
    pub shown: Option<u16>,
    pub end: bool,
}

/// Use of a resource in a window with an effort, which is taken at each minute: a booking that stands or is to be made.
#[derive(Clone, Copy, Debug)]
pub struct Ask {
    pub resource: ResourceId,
    pub window: Window,
    pub effort: u32,
}
