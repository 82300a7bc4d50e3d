//! A tree of nodes that break no rule.
ghost use Rattle.std.specs.Prelude.{◌≡◌, Some, None, IfOk, IfErr};
ghost use Rattle.desk_base.specs.rules.TreeRules.{tree_fault};
ghost use Rattle.desk_base.specs.meaning.Trees.{tree_of, leaf_count};
ghost use Rattle.desk_need.specs.Trees.{fault_of};

use crate::trees::rules::judge_nodes;
use desk_base::{Node, NodeNo, TreeRule};
use std::marker::Model;

/// Why nodes and leaves are no tree: the first tree rule that is broken, and the node at which it is.
#[derive(Clone, Copy, Debug, PartialEq, Eq)]
pub enum TreeError {
    Bad(TreeRule, NodeNo),
}

/// The nodes of a group, which break no tree rule. Contracts see it as the list of them.
#[derive(Debug, Drop)]
pub struct Tree<'a> {
    pub(crate) nodes: &'a [Node],
    pub(crate) leaves: usize,
}

impl<'a> Model for Tree<'a> {
    ghost use Rattle.std.specs.Prelude.{◌≡◌, List, None};
    ghost use Rattle.desk_base.specs.declared.rows.groups.Node.{Node};
    ghost use Rattle.desk_base.specs.rules.TreeRules.{tree_fault};

    ghost Value = { List Node };

    ghost view = { λ t. t.nodes.now };

    ghost invariant = { λ t. tree_fault t.nodes.now t.leaves ≡ None };
}

impl<'a> Tree<'a> {
    /// The tree of these nodes, where there is a leaf for each leaf node. It takes no memory.
    pub fn build(nodes: &'a [Node], leaves: usize) -> Result<Tree<'a>, TreeError>
        ensures built { IfOk result (λ tree. tree ≡ nodes.now) }
        ensures sound { IfOk result (λ tree. tree_fault nodes.now leaves ≡ None) }
        ensures fault { IfErr result (λ error. tree_fault nodes.now leaves ≡ Some (fault_of error)) }
    {
        match nodes {
            [] => Err(TreeError::Bad(TreeRule::Empty, 0)),
            [_, ..] => match judge_nodes(leaves, 0, 0, &None, nodes) {
                Ok(()) => Ok(Tree { nodes, leaves }),
                Err(error) => Err(error),
            },
        }
    }

    /// How many leaves it has.
    pub fn leaves(&self) -> usize
        ensures { result ≡ leaf_count (tree_of self.now) }
    {
        self.leaves
    }
}
