//! The points before part-of-same and room, in their order: grid, shape, eligibility.
ghost use Rattle.std.specs.Prelude.{◌≡◌, length, None, Contains, MatchOption};
ghost use Rattle.desk_base.specs.rules.Sound.{AreWellFormed};
ghost use Rattle.desk_base.specs.rules.TreeRules.{tree_fault};
ghost use Rattle.desk_base.specs.meaning.Trees.{tree_of, patterns};
ghost use Rattle.desk_base.specs.meaning.Picks.{pattern_of};
ghost use Rattle.desk_base.specs.search.Listing.{IsOnGrid};
ghost use Rattle.desk_base.specs.search.Verdicts.{IsBadShape, HasShape, IsServed, IsVerdict};
ghost use Rattle.desk_feasible.specs.Broken.{verdict_of};

use crate::broken::Broken;
use crate::grid::is_on_grid;
use crate::serving::first_unserved;
use desk_base::{GroupRow, LeafNo, ResourceId, Tables};
use desk_need::Tree;

/// The first leaf that lacks a pick, or with whose pick the picks begin none of the tree's patterns.
fn bad_leaf(group: &GroupRow, picks: &[Option<ResourceId>]) -> Option<LeafNo>
    requires { tree_fault group.now.nodes (length group.now.leaves) ≡ None }
    ensures { MatchOption result (Contains (patterns (tree_of group.now.nodes)) (pattern_of picks.now)) (IsBadShape (tree_of group.now.nodes) (pattern_of picks.now)) }
{
    match Tree::build(group.nodes.as_slice(), group.leaves.len()) {
        Ok(tree) => tree.bad_leaf(picks),
        Err(_) => None,
    }
}

/// The point that picks of one of the tree's patterns break.
fn broken_leaf(
    tables: &Tables,
    group: &GroupRow,
    start: u32,
    picks: &[Option<ResourceId>],
) -> Option<Broken>
    requires formed { AreWellFormed tables.now }
    requires there { Contains tables.now.groups group.now }
    requires shape { HasShape group.now start picks.now }
    ensures { MatchOption result (IsServed tables.now group.now start picks.now) (λ b. IsVerdict tables.now group.now start picks.now (verdict_of b)) }
{
    first_unserved(tables, group, start, 0, group.leaves.as_slice(), picks)
}

/// The point that picks from a start on the grid break.
fn broken_shape(
    tables: &Tables,
    group: &GroupRow,
    start: u32,
    picks: &[Option<ResourceId>],
) -> Option<Broken>
    requires formed { AreWellFormed tables.now }
    requires there { Contains tables.now.groups group.now }
    requires grid { IsOnGrid group.now start }
    ensures { MatchOption result (IsServed tables.now group.now start picks.now) (λ b. IsVerdict tables.now group.now start picks.now (verdict_of b)) }
{
    match bad_leaf(group, picks) {
        Some(leaf) => Some(Broken::BadShape(leaf)),
        None => broken_leaf(tables, group, start, picks),
    }
}

/// The first point that a start and picks break, of those before part-of-same and room; `None` where each chosen resource serves
/// its leaf. It takes no memory.
pub fn first_broken(
    tables: &Tables,
    group: &GroupRow,
    start: u32,
    picks: &[Option<ResourceId>],
) -> Option<Broken>
    requires formed { AreWellFormed tables.now }
    requires there { Contains tables.now.groups group.now }
    ensures { MatchOption result (IsServed tables.now group.now start picks.now) (λ b. IsVerdict tables.now group.now start picks.now (verdict_of b)) }
{
    if is_on_grid(group, start) {
        broken_shape(tables, group, start, picks)
    } else {
        Some(Broken::OffGrid)
    }
}
