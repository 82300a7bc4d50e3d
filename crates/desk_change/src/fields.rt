//! Why a field of a change is out of its range, or the tree of a group is none.
ghost use Rattle.std.specs.Prelude.{◌≡◌, length, option_map};
ghost use Rattle.desk_base.specs.asked.Refusing.{refused_field, refused_tree, too_many};
ghost use Rattle.desk_base.specs.rows.Rows.{rules_of};
ghost use Rattle.desk_base.specs.rules.Rules.{first_broken};
ghost use Rattle.desk_base.specs.rules.Sound.{IsSound};
ghost use Rattle.desk_base.specs.declared.asked.acts.Act.TheVariants.{PutGroup};
ghost use Rattle.desk_base.specs.declared.asked.refusals.Refusal.TheVariants.{BadField};
ghost use Rattle.desk_load.specs.Index.{IsIndexOf};

use desk_base::limits::LEAF_LIMIT;
use desk_base::{Act, AnyRow, Field, GroupRow, Refusal, ResourceId, Tables};
use desk_load::LoadIndex;
use desk_need::{Tree, TreeError};
use desk_rules::{broken_group, broken_row};

/// The first field rule that the row breaks among these tables.
#[tactic(auto, using(crate::proofs::Ready::rise))]
fn broken_put(tables: &Tables, index: &LoadIndex, row: &AnyRow) -> Option<Field>
    requires sound { IsSound tables.now }
    requires index { IsIndexOf tables.now index.now }
    ensures { result ≡ first_broken (rules_of tables.now row.now) }
{
    match row {
        AnyRow::Member(x) => broken_row(tables, index.memberships_of(x.member), row),
        _ => broken_row(tables, &[], row),
    }
}

/// There are more picks than a tree may have leaves.
fn broken_picks(picks: &[Option<ResourceId>]) -> Option<Field>
    ensures { option_map BadField result ≡ too_many picks.now }
{
    if picks.len() <= LEAF_LIMIT {
        None
    } else {
        Some(Field::Picks)
    }
}

/// Why a field of the act is out of its range: the first such field.
pub(crate) fn refused_field(tables: &Tables, index: &LoadIndex, act: &Act) -> Option<Refusal>
    requires sound { IsSound tables.now }
    requires index { IsIndexOf tables.now index.now }
    ensures { result ≡ refused_field tables.now act.now }
{
    let broken = match act {
        Act::Put(row) => broken_put(tables, index, row),
        Act::PutGroup(group) => broken_group(group),
        Act::BookGroup { picks, .. } => broken_picks(picks.as_slice()),
        Act::MoveGroup { picks, .. } => broken_picks(picks.as_slice()),
        Act::Remove(_) => None,
        Act::DropGroup(_) => None,
        Act::CancelGroup(_) => None,
    };
    broken.map(Refusal::BadField)
}

/// Why the nodes and leaves of a group are no tree.
fn refused_nodes(group: &GroupRow) -> Option<Refusal>
    ensures { result ≡ refused_tree (PutGroup group.now) }
{
    match Tree::build(group.nodes.as_slice(), group.leaves.len()) {
        Ok(_) => None,
        Err(TreeError::Bad(rule, node)) => Some(Refusal::BadTree(rule, node)),
    }
}

/// Why the tree of the act is none: the first tree rule that is broken, and its node.
pub(crate) fn refused_tree(act: &Act) -> Option<Refusal>
    ensures { result ≡ refused_tree act.now }
{
    match act {
        Act::PutGroup(group) => refused_nodes(group),
        Act::Put(_) => None,
        Act::Remove(_) => None,
        Act::DropGroup(_) => None,
        Act::BookGroup { .. } => None,
        Act::MoveGroup { .. } => None,
        Act::CancelGroup(_) => None,
    }
}
