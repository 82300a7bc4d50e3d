//! Picks that have a pattern of a tree, and the first leaf of those that have none.
use crate::fixtures::{all, any, any_of_any, leaf, picks};
use desk_base::Node;
use desk_need::Tree;
use std::alloc::Global;

/// Whether the nodes are a tree, and the first leaf at which the picks have none of its patterns.
fn bad_leaf(alloc: Global, nodes: &[Node], leaves: usize, numbers: &[u32]) -> Option<Option<u8>> {
    let picks = picks(alloc, numbers)?;
    match Tree::build(nodes, leaves) {
        Ok(tree) => Some(tree.bad_leaf(picks.as_slice())),
        Err(_) => None,
    }
}

/// Whether the nodes are a tree, and whether the leaves so far go on with one that is chosen, and with one that is not.
fn next(nodes: &[Node], leaves: usize, chosen: &[bool]) -> Option<(bool, bool)> {
    match Tree::build(nodes, leaves) {
        Ok(tree) => {
            let choices = tree.shape_next(chosen);
            Some((choices.pick, choices.skip))
        }
        Err(_) => None,
    }
}

#[test]
fn one_leaf_takes_one_pick(rt: HostRuntime) {
    let nodes = [leaf(0)];
    assert_eq!(rt; bad_leaf(rt.alloc(), &nodes, 1, &[1]), Some(None));
    assert_eq!(rt; bad_leaf(rt.alloc(), &nodes, 1, &[1, 2]), Some(Some(1)));
    assert_eq!(rt; bad_leaf(rt.alloc(), &nodes, 1, &[0]), Some(Some(0)));
    assert_eq!(rt; bad_leaf(rt.alloc(), &nodes, 1, &[]), Some(Some(0)));
}

#[test]
fn any_takes_one_child(rt: HostRuntime) {
    let nodes = [any(0), leaf(1), all(1), leaf(2), leaf(2)];
    assert_eq!(rt; bad_leaf(rt.alloc(), &nodes, 3, &[]), Some(Some(0)));
    assert_eq!(rt; bad_leaf(rt.alloc(), &nodes, 3, &[1]), Some(Some(1)));
    assert_eq!(rt; bad_leaf(rt.alloc(), &nodes, 3, &[1, 0]), Some(Some(2)));
    assert_eq!(rt; bad_leaf(rt.alloc(), &nodes, 3, &[1, 0, 0]), Some(None));
    assert_eq!(rt;
        bad_leaf(rt.alloc(), &nodes, 3, &[1, 0, 0, 0]),
        Some(Some(3))
    );
    assert_eq!(rt; bad_leaf(rt.alloc(), &nodes, 3, &[1, 2, 0]), Some(Some(1)));
    assert_eq!(rt; bad_leaf(rt.alloc(), &nodes, 3, &[1, 0, 3]), Some(Some(2)));
    assert_eq!(rt; bad_leaf(rt.alloc(), &nodes, 3, &[0, 2]), Some(Some(2)));
    assert_eq!(rt; bad_leaf(rt.alloc(), &nodes, 3, &[0, 2, 3]), Some(None));
    assert_eq!(rt; bad_leaf(rt.alloc(), &nodes, 3, &[0, 2, 0]), Some(Some(2)));
    assert_eq!(rt; bad_leaf(rt.alloc(), &nodes, 3, &[0, 0, 3]), Some(Some(1)));
}

#[test]
fn shapes_go_on_leaf_by_leaf(rt: HostRuntime) {
    let nodes = [any(0), leaf(1), all(1), leaf(2), leaf(2)];
    assert_eq!(rt; next(&nodes, 3, &[]), Some((true, true)));
    assert_eq!(rt; next(&nodes, 3, &[true]), Some((false, true)));
    assert_eq!(rt; next(&nodes, 3, &[true, false]), Some((false, true)));
    assert_eq!(rt; next(&nodes, 3, &[false]), Some((true, false)));
    assert_eq!(rt; next(&nodes, 3, &[false, true]), Some((true, false)));
    assert_eq!(rt; next(&nodes, 3, &[false, true, true]), Some((false, false)));
}

#[test]
fn twenty_four_leaves_under_any_of_any(rt: HostRuntime) {
    let nodes = any_of_any(rt.alloc()).expect(&rt, "memory");
    let nodes = nodes.as_slice();
    let none = [0; 24];
    assert_eq!(rt; bad_leaf(rt.alloc(), nodes, 24, &none), Some(Some(23)));
    let mut last = none;
    last[23] = 1;
    assert_eq!(rt; bad_leaf(rt.alloc(), nodes, 24, &last), Some(None));
    last[6] = 2;
    assert_eq!(rt; bad_leaf(rt.alloc(), nodes, 24, &last), Some(Some(23)));
    let mut chosen = [false; 23];
    assert_eq!(rt; next(nodes, 24, &chosen), Some((true, false)));
    chosen[5] = true;
    assert_eq!(rt; next(nodes, 24, &chosen), Some((false, true)));
}
