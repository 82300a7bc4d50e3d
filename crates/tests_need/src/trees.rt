//! Nodes that are a tree, and nodes that are none.
use crate::fixtures::{all, any, flat, leaf, with};
use desk_base::{Node, Same, TreeRule};
use desk_need::{Tree, TreeError};

/// The first rule that is broken, and the node at which it is.
fn fault(nodes: &[Node], leaves: usize) -> Option<(TreeRule, u8)> {
    match Tree::build(nodes, leaves) {
        Ok(_) => None,
        Err(TreeError::Bad(rule, node)) => Some((rule, node)),
    }
}

#[test]
fn names_the_first_rule_and_its_node(rt: HostRuntime) {
    assert_eq!(rt; fault(&[], 0), Some((TreeRule::Empty, 0)));
    assert_eq!(rt; fault(&[all(0)], 0), Some((TreeRule::Childless, 0)));
    assert_eq!(rt; fault(&[leaf(0)], 1), None);
    assert_eq!(rt; fault(&[leaf(0)], 2), Some((TreeRule::Leaves, 1)));
    assert_eq!(rt; fault(&[leaf(1)], 1), Some((TreeRule::Order, 0)));
    assert_eq!(rt; fault(&[leaf(0), leaf(0)], 2), Some((TreeRule::Order, 1)));
    assert_eq!(rt; fault(&[leaf(0), leaf(1)], 2), Some((TreeRule::Order, 1)));
    assert_eq!(rt;
        fault(&[with(leaf(0), Same::Unit)], 1),
        Some((TreeRule::Order, 0))
    );
    assert_eq!(rt; fault(&[all(0), leaf(1), any(1), leaf(2)], 2), None);
    assert_eq!(rt;
        fault(&[all(0), any(1), leaf(1)], 1),
        Some((TreeRule::Childless, 1))
    );
    assert_eq!(rt;
        fault(&[all(0), leaf(2)], 1),
        Some((TreeRule::Childless, 0))
    );
}

#[test]
fn a_tree_has_six_levels(rt: HostRuntime) {
    let six = [all(0), all(1), all(2), all(3), all(4), leaf(5)];
    assert_eq!(rt; fault(&six, 1), None);
    let seven = [all(0), all(1), all(2), all(3), all(4), all(5), leaf(6)];
    assert_eq!(rt; fault(&seven, 1), Some((TreeRule::Depth, 6)));
}

#[test]
fn a_tree_has_twenty_four_leaves(rt: HostRuntime) {
    let full = flat(rt.alloc(), 24).expect(&rt, "memory");
    assert_eq!(rt; fault(full.as_slice(), 24), None);
    let over = flat(rt.alloc(), 25).expect(&rt, "memory");
    assert_eq!(rt; fault(over.as_slice(), 25), Some((TreeRule::Leaves, 25)));
}

#[test]
fn a_tree_knows_its_leaves(rt: HostRuntime) {
    let nodes = [all(0), leaf(1), any(1), leaf(2)];
    match Tree::build(&nodes, 2) {
        Ok(tree) => assert_eq!(rt; tree.leaves(), 2),
        Err(_) => panic!(rt; "no tree"),
    }
}
