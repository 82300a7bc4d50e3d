//! Whether the nodes and leaves of a group are a tree.
ghost use Rattle.std.specs.Prelude.{◌≡◌, is_none};
ghost use Rattle.desk_base.specs.rules.TreeRules.{tree_fault};

use desk_base::Node;
use desk_need::Tree;

/// Whether the nodes are a tree of so many leaves.
pub(crate) fn is_tree(nodes: &[Node], leaves: usize) -> bool
    ensures { result ≡ is_none (tree_fault nodes.now leaves) }
{
    match Tree::build(nodes, leaves) {
        Ok(_) => true,
        Err(_) => false,
    }
}
