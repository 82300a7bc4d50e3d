//! A group's case: its tree, who serves each of its leaves, and what part-of-same needs.
ghost use Rattle.std.specs.Prelude.{◌≡◌, ◌<◌, length, Some, None, IfOk, IfSome, MatchResult, slice_get, slice_index_or, []};
ghost use Rattle.desk_base.specs.meaning.Picks.{first_broken_same};
ghost use Rattle.desk_base.specs.rows.Lookups.{KeysRise};
ghost use Rattle.desk_base.specs.rules.TreeRules.{tree_fault};
ghost use Rattle.desk_need.specs.Candidates.{AreCandidates};

use crate::cases::candidates::candidates_of;
use crate::same::{crews_for, first_broken_node};
use crate::trees::Tree;
use desk_base::{GroupRow, Minute, NoMemory, NodeNo, ResourceId, Resources, Tables};
use std::alloc::Global;
use std::marker::Model;

/// A group and the tables in which it stands, with its tree, the resources that serve each leaf, and the crews that it needs. Contracts see it
/// as the tables and the group. It holds no calendar and no booking.
#[derive(Debug, Drop)]
pub struct Case<'a> {
    tables: &'a Tables,
    group: &'a GroupRow,
    candidates: Vec<Resources>,
    crews: Vec<ResourceId>,
}

impl<'a> Model for Case<'a> {
    ghost use Rattle.desk_need.specs.Cases.{Asked, AreHeld};

    ghost Value = { Asked };

    ghost view = { λ c. record { tables = c.tables.now; group = c.group.now } };

    ghost invariant = { λ c. AreHeld c.tables.now c.group.now c.candidates.items c.crews.items };
}

impl<'a> Case<'a> {
    /// The case of a group: one pass over the resources, with lookups by halving, or the required resources alone.
    pub fn build(
        alloc: Global,
        tables: &'a Tables,
        group: &'a GroupRow,
    ) -> Result<Case<'a>, NoMemory>
        requires rise { KeysRise tables.now }
        requires tree { tree_fault group.now.nodes (length group.now.leaves) ≡ None }
        ensures tables { IfOk result (λ case. case.tables ≡ tables.now) }
        ensures group { IfOk result (λ case. case.group ≡ group.now) }
    {
        let candidates = candidates_of(alloc, tables, group.leaves.as_slice())?;
        let crews = crews_for(alloc, tables, group.nodes.as_slice())?;
        Ok(Case {
            tables,
            group,
            candidates,
            crews,
        })
    }

    /// The tables.
    pub fn tables(&self) -> &'a Tables
        ensures { result.now ≡ self.now.tables }
    {
        self.tables
    }

    /// The group.
    pub fn group(&self) -> &'a GroupRow
        ensures { result.now ≡ self.now.group }
    {
        self.group
    }

    /// The tree of its nodes.
    pub fn tree(&self) -> Tree<'a>
        ensures { result ≡ self.now.group.nodes }
    {
        let group = self.group;
        Tree {
            nodes: group.nodes.as_slice(),
            leaves: group.leaves.len(),
        }
    }

    /// The resources that serve a leaf, rising.
    pub fn candidates(&self, leaf: usize) -> &[ResourceId]
        requires { leaf < length self.now.group.leaves }
        ensures { IfSome (slice_get self.now.group.leaves leaf) (λ l. AreCandidates self.now.tables l result.now) }
    {
        list_of(self.candidates.as_slice(), leaf)
    }

    /// The first node whose part-of-same is broken by the picks, from this start on. It takes no memory.
    pub fn same_ok(&self, start: Minute, picks: &[Option<ResourceId>]) -> Result<(), NodeNo>
        ensures { MatchResult result (λ _. first_broken_same self.now.tables start self.now.group.nodes self.now.group.leaves picks.now ≡ None) (λ node. first_broken_same self.now.tables start self.now.group.nodes self.now.group.leaves picks.now ≡ Some node) }
    {
        match first_broken_node(
            self.tables,
            self.crews.as_slice(),
            start.get(),
            self.group,
            picks,
        ) {
            Some(node) => Err(node as NodeNo),
            None => Ok(()),
        }
    }
}

/// The list of this number.
fn list_of(lists: &[Resources], number: usize) -> &[ResourceId]
    requires { number < length lists.now }
    ensures { result.now ≡ slice_index_or lists.now number [] }
{
    let list = &lists[number];
    list.as_slice()
}
