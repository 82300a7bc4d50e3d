//! The first node whose part-of-same is broken.
ghost use Rattle.std.specs.Prelude.{◌≡◌, ◌≤◌, ◌<◌, ◌^◌, ◌+◌, length, take, drop, position, not, option_map, MatchOption, ⊤};
ghost use Rattle.desk_base.specs.meaning.Picks.{choices_of, keeps, leaves_under, spans, keeps_same, first_broken_same};
ghost use Rattle.desk_base.specs.rows.Lookups.{KeysRise};
ghost use Rattle.desk_base.specs.declared.rows.groups.Same.TheVariants.{Crew};
ghost use Rattle.desk_need.specs.Crews.{crews_of, AreCrewsFor};

use crate::same::crews::have_one_crew;
use crate::same::marks::{Mark, have_one};
use crate::trees::{is_leaf, leaf_bit};
use desk_base::{GroupRow, Leaf, Node, ResourceId, Same, Tables};

/// Whether those who are chosen for these leaves are of the same unit, site or crew.
fn keeps(
    tables: &Tables,
    crews: &[ResourceId],
    start: u32,
    same: Same,
    number: usize,
    leaves: &[Leaf],
    picks: &[Option<ResourceId>],
) -> bool
    requires rise { KeysRise tables.now }
    requires all { same ≡ Crew → crews.now ≡ crews_of tables.now }
    requires few { number + length leaves.now < 2 ^ 64 }
    ensures { result ≡ keeps same tables.now start (choices_of number leaves.now picks.now) }
{
    match same {
        Same::None => true,
        Same::Unit => have_one(Mark::OfUnit, tables, number, leaves, picks),
        Same::Site => have_one(Mark::OfSite, tables, number, leaves, picks),
        Same::Crew => have_one_crew(tables, crews, start, number, leaves, picks),
    }
}

fn leaves_under(depth: u8, nodes: &[Node]) -> usize
    ensures value { result ≡ leaves_under depth nodes.now }
    ensures small { result ≤ length nodes.now }
{
    match nodes {
        [] => 0,
        [node, others @ ..] => {
            if depth < node.depth {
                let rest = leaves_under(depth, others);
                if is_leaf(node.kind) { rest + 1 } else { rest }
            } else {
                0
            }
        }
    }
}

/// The items after the first ones.
fn others<T>(count: usize, items: &[T]) -> &[T]
    ensures { result.now ≡ drop count items.now }
{
    if count < items.len() {
        &items[count..]
    } else {
        &items[items.len()..]
    }
}

fn first_leaves(count: usize, leaves: &[Leaf]) -> &[Leaf]
    ensures value { result.now ≡ take count leaves.now }
    ensures small { length result.now ≤ count }
{
    if count < leaves.len() {
        &leaves[..count]
    } else {
        leaves
    }
}

/// Whether what is chosen under the node is of the same as it asks.
#[tactic(auto, unfolding(desk_base::specs::meaning::Picks::keeps_same))]
fn keeps_same(
    tables: &Tables,
    crews: &[ResourceId],
    start: u32,
    leaves: &[Leaf],
    picks: &[Option<ResourceId>],
    node: Node,
    before: usize,
    under: usize,
) -> bool
    requires rise { KeysRise tables.now }
    requires all { node.same ≡ Crew → crews.now ≡ crews_of tables.now }
    requires few { before + under < 2 ^ 64 }
    ensures { result ≡ keeps_same tables.now start leaves.now picks.now (record { node = node; before = before; under = under }) }
{
    let leaves = first_leaves(under, others(before, leaves));
    let picks = others(before, picks);
    keeps(tables, crews, start, node.same, before, leaves, picks)
}

fn one_later(place: Option<usize>) -> Option<usize>
    requires { MatchOption place ⊤ (λ n. n + 1 < 2 ^ 64) }
    ensures { result ≡ option_map (λ n. n + 1) place }
{
    match place {
        Some(n) => Some(n + 1),
        None => None,
    }
}

/// The first of the nodes whose part-of-same is broken, where so many leaves come before them.
#[tactic(auto, using(desk_base::proofs::lists::Places::position_true, desk_base::proofs::lists::Places::position_false))]
fn first_broken_same(
    tables: &Tables,
    crews: &[ResourceId],
    start: u32,
    before: usize,
    nodes: &[Node],
    leaves: &[Leaf],
    picks: &[Option<ResourceId>],
) -> Option<usize>
    requires rise { KeysRise tables.now }
    requires all { AreCrewsFor tables.now nodes.now crews.now }
    requires few { before + length nodes.now < 2 ^ 63 }
    ensures value { result ≡ position (λ x. not (keeps_same tables.now start leaves.now picks.now x)) (spans before nodes.now) }
    ensures small { MatchOption result ⊤ (λ k. k < length nodes.now) }
{
    match nodes {
        [] => None,
        [node, others @ ..] => {
            let under = leaves_under(node.depth, others);
            let kept = keeps_same(tables, crews, start, leaves, picks, *node, before, under);
            if !kept {
                return Some(0);
            }
            let after = before + usize::from(leaf_bit(*node));
            let rest = first_broken_same(tables, crews, start, after, others, leaves, picks);
            one_later(rest)
        }
    }
}

/// The first of the group's nodes whose part-of-same is broken, where these are the crews that its nodes need. It takes no memory.
pub fn first_broken_node(
    tables: &Tables,
    crews: &[ResourceId],
    start: u32,
    group: &GroupRow,
    picks: &[Option<ResourceId>],
) -> Option<usize>
    requires rise { KeysRise tables.now }
    requires all { AreCrewsFor tables.now group.now.nodes crews.now }
    requires few { length group.now.nodes ≤ 2 ^ 19 }
    ensures value { result ≡ first_broken_same tables.now start group.now.nodes group.now.leaves picks.now }
    ensures small { MatchOption result ⊤ (λ k. k < length group.now.nodes) }
{
    let nodes = group.nodes.as_slice();
    let leaves = group.leaves.as_slice();
    first_broken_same(tables, crews, start, 0, nodes, leaves, picks)
}
