//! The tree of a group.
ghost use Rattle.std.specs.Prelude.{◌≡◌, Ok, codes};
ghost use Rattle.serde_json.specs.View.{view, items_view};
ghost use Rattle.serde_json.specs.Find.{get, as_array};
ghost use Rattle.desk_json.specs.Faults.{IsRead};
ghost use Rattle.desk_json.specs.Forms.{at, under_or, all_names};
ghost use Rattle.desk_json.specs.TreeReading.{same_named, same_in, with_node, with_leaf, inner_in, outer_in, node_in, items_or_none, children_of, tree_onto, tree_in};
ghost use Rattle.desk_base.specs.declared.rows.groups.Same.TheVariants as same;

use crate::faults::{BodyError, BodyRule};
use crate::fields::{Names, has_only, missing};
use crate::leaves::read_leaf;
use crate::reading::Read;
use crate::words::field_name;
use desk_base::{Field, Items, Leaf, Leaves, Node, NodeKind, Nodes, Same};
use serde_json::Value;
use std::alloc::Global;

/// A tree as a group keeps it: its nodes and its leaves, both in preorder.
#[derive(Debug, Drop)]
pub struct Tree {
    pub nodes: Nodes,
    pub leaves: Leaves,
}

#[tactic(auto, unfolding(crate::specs::TreeReading::same_named))]
fn same_named(text: &str) -> Option<Same>
    ensures { result ≡ same_named text.now }
{
    if text == "unit" {
        Some(Same::Unit)
    } else if text == "site" {
        Some(Same::Site)
    } else if text == "crew" {
        Some(Same::Crew)
    } else {
        None
    }
}

impl Read for Same {
    ghost use Rattle.desk_json.specs.TreeReading.{same_in};

    ghost meant = { same_in };

    #[tactic(auto, unfolding(crate::specs::TreeReading::same_in, crate::specs::Reading::text_in))]
    fn read(value: &Value, field: Field) -> Result<Same, BodyError> {
        let Some(text) = value.as_str() else {
            return Err(BodyError::Bad(BodyRule::Sort, field));
        };
        match same_named(text) {
            Some(same) => Ok(same),
            None => Err(BodyError::Bad(BodyRule::Range, field)),
        }
    }
}

/// What the resources under a node are to have in common, or nothing where that is not said.
#[tactic(auto, unfolding(crate::specs::Forms::under_or))]
fn same_under(node: &Value, field: Field) -> Result<Same, BodyError>
    ensures { result ≡ under_or same.None (codes "same") field same_in (view node.now) }
{
    match node.get("same") {
        Some(value) => Same::read(value, field),
        None => Ok(Same::None),
    }
}

fn with_node(tree: Tree, depth: u8, kind: NodeKind, same: Same) -> Result<Tree, BodyError>
    ensures { IsRead (Ok (with_node depth kind same tree)) result }
{
    let Tree { mut nodes, leaves } = tree;
    nodes.push(Node { depth, kind, same })?;
    Ok(Tree { nodes, leaves })
}

fn with_leaf(tree: Tree, leaf: Leaf) -> Result<Tree, BodyError>
    ensures { IsRead (Ok (with_leaf leaf tree)) result }
{
    let Tree { nodes, mut leaves } = tree;
    leaves.push(leaf)?;
    Ok(Tree { nodes, leaves })
}

/// The names of an object that has children, all of which it needs.
const ALL_NAMES: Names = Names {
    head: &[],
    key: &[],
    others: &["all", "same"],
};

/// The names of an object that has children, one of which it needs.
const ANY_NAMES: Names = Names {
    head: &[],
    key: &[],
    others: &["any", "same"],
};

/// The name of an object that has a leaf.
const OUTER_NAMES: Names = Names {
    head: &[],
    key: &[],
    others: &["leaf"],
};

#[tactic(auto, unfolding(crate::specs::TreeReading::inner_in))]
fn read_inner(
    tree: Tree,
    depth: u8,
    kind: NodeKind,
    names: &Names,
    node: &Value,
    children: &Value,
    field: Field,
) -> Result<Tree, BodyError>
    ensures { IsRead (inner_in kind (all_names names.now) depth field tree (view node.now) (view children.now)) result }
{
    if !children.is_array() {
        return Err(BodyError::Bad(BodyRule::Sort, field));
    }
    let same = same_under(node, field)?;
    if !has_only(node, names) {
        return Err(BodyError::Bad(BodyRule::Unknown, field));
    }
    with_node(tree, depth, kind, same)
}

#[tactic(auto, unfolding(crate::specs::TreeReading::outer_in))]
fn read_outer(
    alloc: Global,
    tree: Tree,
    depth: u8,
    node: &Value,
    leaf: &Value,
    field: Field,
) -> Result<Tree, BodyError>
    ensures { IsRead (outer_in depth field tree (view node.now) (view leaf.now)) result }
{
    if !leaf.is_object() {
        return Err(BodyError::Bad(BodyRule::Sort, field));
    }
    if !has_only(node, &OUTER_NAMES) {
        return Err(BodyError::Bad(BodyRule::Unknown, field));
    }
    let leaf = read_leaf(alloc, leaf, field)?;
    let tree = with_node(tree, depth, NodeKind::Leaf, Same::None)?;
    with_leaf(tree, leaf)
}

/// The node of an object, behind the nodes and leaves of a tree.
#[tactic(auto, unfolding(crate::specs::TreeReading::node_in))]
fn read_node(
    alloc: Global,
    tree: Tree,
    depth: u8,
    node: &Value,
    field: Field,
) -> Result<Tree, BodyError>
    ensures { IsRead (node_in depth field tree (view node.now)) result }
{
    if !node.is_object() {
        return Err(BodyError::Bad(BodyRule::Sort, field));
    }
    if let Some(children) = node.get("all") {
        return read_inner(
            tree,
            depth,
            NodeKind::All,
            &ALL_NAMES,
            node,
            children,
            field,
        );
    }
    if let Some(children) = node.get("any") {
        return read_inner(
            tree,
            depth,
            NodeKind::Any,
            &ANY_NAMES,
            node,
            children,
            field,
        );
    }
    match node.get("leaf") {
        Some(leaf) => read_outer(alloc, tree, depth, node, leaf, field),
        None => Err(missing(field)),
    }
}

fn items_or_none(value: &Value) -> &[Value]
    ensures { items_view result.now ≡ items_or_none (as_array (view value.now)) }
{
    match value.as_array() {
        Some(values) => values.as_slice(),
        None => &[],
    }
}

/// The children of a node.
fn children_of(node: &Value) -> &[Value]
    ensures { items_view result.now ≡ children_of (get (codes "all") (view node.now)) (get (codes "any") (view node.now)) }
{
    if let Some(children) = node.get("all") {
        return items_or_none(children);
    }
    match node.get("any") {
        Some(children) => items_or_none(children),
        None => &[],
    }
}

/// A node and the nodes under it, behind those of a tree, where so many levels are left.
fn read_onto(
    alloc: Global,
    tree: Tree,
    levels: u8,
    node: &Value,
    field: Field,
) -> Result<Tree, BodyError>
    ensures { IsRead (tree_onto levels field tree (view node.now)) result }
{
    if levels == 0 {
        return Err(BodyError::Bad(BodyRule::Range, field));
    }
    let below = levels - 1;
    let mut tree = read_node(alloc, tree, u8::MAX - levels, node, field)?;
    for child in children_of(node) {
        tree = read_onto(alloc, tree, below, child, field)?;
    }
    Ok(tree)
}

#[tactic(auto, unfolding(crate::specs::TreeReading::tree_in))]
fn read_tree(alloc: Global, value: &Value, field: Field) -> Result<Tree, BodyError>
    ensures { IsRead (tree_in field (view value.now)) result }
{
    let tree = Tree {
        nodes: Items::new(alloc),
        leaves: Items::new(alloc),
    };
    read_onto(alloc, tree, u8::MAX, value, field)
}

/// A tree in a field.
#[tactic(auto, unfolding(crate::specs::Forms::under))]
pub(crate) fn tree_at(alloc: Global, object: &Value, field: Field) -> Result<Tree, BodyError>
    ensures { IsRead (at field tree_in (view object.now)) result }
{
    match object.get(field_name(field)) {
        Some(value) => read_tree(alloc, value, field),
        None => Err(missing(field)),
    }
}
