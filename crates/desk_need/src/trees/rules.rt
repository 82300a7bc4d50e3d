//! The tree rules, node by node.
ghost use Rattle.std.specs.Prelude.{◌≡◌, ◌+◌, ◌≤◌, MatchOption, ⊤};
ghost use Rattle.desk_base.specs.rules.Limits.{node_limit, leaf_limit};
ghost use Rattle.desk_base.specs.rules.Rules.{first_broken};
ghost use Rattle.desk_base.specs.meaning.Trees.{is_leaf, leaf_bit};
ghost use Rattle.desk_base.specs.rules.TreeRules.{asks_same, is_in_order, has_child, node_rules, node_fault};
ghost use Rattle.desk_need.specs.Trees.{outcome_of};

use crate::trees::tree::TreeError;
use desk_base::limits::{DEPTH_LIMIT, LEAF_LIMIT, NODE_LIMIT};
use desk_base::{Node, NodeKind, NodeNo, Same, TreeRule};

/// Whether it is a leaf node.
pub(crate) fn is_leaf(kind: NodeKind) -> bool
    ensures { result ≡ is_leaf kind }
{
    match kind {
        NodeKind::Leaf => true,
        NodeKind::All => false,
        NodeKind::Any => false,
    }
}

/// 1 for a leaf node, and 0 for another.
pub(crate) fn leaf_bit(node: Node) -> u8
    ensures value { result ≡ leaf_bit node }
    ensures small { result ≤ 1 }
{
    if is_leaf(node.kind) { 1 } else { 0 }
}

fn asks_same(same: Same) -> bool
    ensures { result ≡ asks_same same }
{
    match same {
        Same::None => false,
        Same::Unit => true,
        Same::Site => true,
        Same::Crew => true,
    }
}

fn is_in_order(before: &Option<Node>, node: Node) -> bool
    ensures { result ≡ is_in_order before.now node }
{
    match before {
        None => node.depth == 0,
        Some(before) => {
            1 <= node.depth
                && u16::from(node.depth) <= u16::from(before.depth) + 1
                && (node.depth <= before.depth || !is_leaf(before.kind))
        }
    }
}

fn has_child(node: Node, later: &[Node]) -> bool
    ensures { result ≡ has_child node later.now }
{
    match later {
        [] => is_leaf(node.kind),
        [next, ..] => { is_leaf(node.kind) || u16::from(next.depth) == u16::from(node.depth) + 1 }
    }
}

/// The first rule that is broken at the node of this number, which comes after so many leaf nodes.
fn broken_rule(
    number: u8,
    leaves: u8,
    before: &Option<Node>,
    node: Node,
    later: &[Node],
) -> Option<TreeRule>
    requires { leaves ≤ leaf_limit }
    ensures value { result ≡ first_broken (node_rules number leaves before.now node later.now) }
    ensures few { MatchOption result (number + 1 ≤ node_limit) (λ _. ⊤) }
    ensures few_leaves { MatchOption result (leaves + leaf_bit node ≤ leaf_limit) (λ _. ⊤) }
{
    if NODE_LIMIT <= usize::from(number) {
        return Some(TreeRule::Nodes);
    }
    if !is_in_order(before, node) || is_leaf(node.kind) && asks_same(node.same) {
        return Some(TreeRule::Order);
    }
    if DEPTH_LIMIT < node.depth {
        return Some(TreeRule::Depth);
    }
    if !has_child(node, later) {
        return Some(TreeRule::Childless);
    }
    if is_leaf(node.kind) && LEAF_LIMIT <= usize::from(leaves) {
        return Some(TreeRule::Leaves);
    }
    None
}

/// Whether the nodes from one on break no rule, where a list of leaves has this size.
pub(crate) fn judge_nodes(
    size: usize,
    number: u8,
    leaves: u8,
    before: &Option<Node>,
    nodes: &[Node],
) -> Result<(), TreeError>
    requires few { number ≤ node_limit }
    requires few_leaves { leaves ≤ leaf_limit }
    ensures { result ≡ outcome_of (node_fault size number leaves before.now nodes.now) }
{
    match nodes {
        [] => {
            if usize::from(leaves) == size {
                Ok(())
            } else {
                Err(TreeError::Bad(TreeRule::Leaves, number))
            }
        }
        [node, later @ ..] => match broken_rule(number, leaves, before, *node, later) {
            Some(rule) => Err(TreeError::Bad(rule, number)),
            None => judge_nodes(
                size,
                number + 1,
                leaves + leaf_bit(*node),
                &Some(*node),
                later,
            ),
        },
    }
}
