//! Which leaves of a tree are chosen together.
ghost use Rattle.std.specs.Prelude.{◌≡◌, ◌+◌, ◌++◌, ◌∷◌, [], ◌↔◌, ◌<◌, IsTrue, true, false, None, Contains, MatchOption, length, take};
ghost use Rattle.desk_base.specs.search.Listing.{BeginsPattern};
ghost use Rattle.desk_base.specs.meaning.Picks.{pattern_of};
ghost use Rattle.desk_base.specs.rules.TreeRules.{tree_fault};
ghost use Rattle.desk_base.specs.meaning.Trees.{tree_of, patterns};
ghost use Rattle.desk_base.specs.search.Verdicts.{IsBadShape};

use crate::trees::bits::Bits;
use crate::trees::judging::begin;
use crate::trees::tree::Tree;
use desk_base::{LeafNo, Node, ResourceId};

/// Whether the leaves so far can be followed by one that is chosen, and by one that is left out.
#[derive(Clone, Copy, Debug, PartialEq, Eq)]
pub struct Choices {
    pub pick: bool,
    pub skip: bool,
}

impl<'a> Tree<'a> {
    /// Whether one more leaf may be chosen, and whether it may be left out: whether the list with it begins a pattern. The walk
    /// meets each node once, however many patterns there are, and takes no memory.
    pub fn shape_next(&self, chosen: &[bool]) -> Choices
        ensures pick { IsTrue result.pick ↔ BeginsPattern (tree_of self.now) (chosen.now ++ true ∷ []) }
        ensures skip { IsTrue result.skip ↔ BeginsPattern (tree_of self.now) (chosen.now ++ false ∷ []) }
    {
        choices_after(self.nodes, chosen)
    }

    /// The same of picks: whether with one more pick, or a leaf more that is left out, they begin a pattern.
    pub fn goes_on(&self, picks: &[Option<ResourceId>], is_pick: bool) -> bool
        ensures { IsTrue result ↔ BeginsPattern (tree_of self.now) (pattern_of picks.now ++ is_pick ∷ []) }
    {
        begin_with(self.nodes, &[], picks, is_pick)
    }

    /// The first leaf that lacks a pick, or with whose pick the picks begin no pattern; `None` where they have one.
    pub fn bad_leaf(&self, picks: &[Option<ResourceId>]) -> Option<LeafNo>
        ensures { MatchOption result (Contains (patterns (tree_of self.now)) (pattern_of picks.now)) (IsBadShape (tree_of self.now) (pattern_of picks.now)) }
    {
        bad_leaf_of(self.nodes, self.leaves, picks)
    }
}

/// Whether bits, then those of picks, and then one more, begin a pattern.
fn begin_with(nodes: &[Node], chosen: &[bool], picks: &[Option<ResourceId>], next: bool) -> bool
    ensures { IsTrue result ↔ BeginsPattern (tree_of nodes.now) (chosen.now ++ (pattern_of picks.now ++ next ∷ [])) }
{
    let bits = Bits {
        chosen,
        picks,
        next: Some(next),
    };
    begin(nodes, &bits)
}

fn choices_after(nodes: &[Node], chosen: &[bool]) -> Choices
    ensures pick { IsTrue result.pick ↔ BeginsPattern (tree_of nodes.now) (chosen.now ++ true ∷ []) }
    ensures skip { IsTrue result.skip ↔ BeginsPattern (tree_of nodes.now) (chosen.now ++ false ∷ []) }
{
    Choices {
        pick: begin_with(nodes, chosen, &[], true),
        skip: begin_with(nodes, chosen, &[], false),
    }
}

/// Whether the picks up to this one begin a pattern.
fn begin_to(nodes: &[Node], picks: &[Option<ResourceId>], count: usize) -> bool
    requires { count < length picks.now }
    ensures { IsTrue result ↔ BeginsPattern (tree_of nodes.now) (take (count + 1) (pattern_of picks.now)) }
{
    let is_pick = picks[count].is_some();
    begin_with(nodes, &[], &picks[..count], is_pick)
}

fn bad_leaf_of(nodes: &[Node], leaves: usize, picks: &[Option<ResourceId>]) -> Option<LeafNo>
    requires { tree_fault nodes.now leaves ≡ None }
    ensures { MatchOption result (Contains (patterns (tree_of nodes.now)) (pattern_of picks.now)) (IsBadShape (tree_of nodes.now) (pattern_of picks.now)) }
{
    for count in 0..picks.len() {
        if !begin_to(nodes, picks, count) {
            return Some(count as LeafNo);
        }
    }
    if picks.len() < leaves {
        Some(picks.len() as LeafNo)
    } else {
        None
    }
}
