//! Requirement groups as values, each with its tree.
ghost use Rattle.std.specs.Prelude.{◌≡◌, ◌⊎◌, IfOk, OnOk, map, codes};
ghost use Rattle.serde_json.specs.View.{view, members_view};
ghost use Rattle.desk_kept.specs.Groups.{same_data, inner_data, outer_data, node_data, children, siblings_after, first_leaf, place, leaves_after, trees_of, first_tree, tree_data, group_data};
ghost use Rattle.desk_kept.specs.Leaves.{with_present};
ghost use Rattle.desk_kept.specs.Stacked.{stacked, is_deeper};

use crate::leaves::leaf_value;
use desk_base::{GroupRow, Leaf, Node, NodeKind, Same};
use desk_json::moment_value;
use serde_json::{Map, Value, json, push, put};
use std::alloc::{AllocError, Global};

// ---- nodes

fn put_same(members: &mut Map<String, Value>, alloc: Global, same: Same) -> Result<(), AllocError>
    ensures { OnOk result (members_view members.new.entries ≡ with_present (codes "same") (same_data same) (members_view members.old.entries)) }
{
    let name = match same {
        Same::None => return Ok(()),
        Same::Unit => "unit",
        Same::Site => "site",
        Same::Crew => "crew",
    };
    put(
        members,
        alloc,
        "same",
        Value::String(String::from_str(alloc, name)?),
    )
}

fn inner_value(
    alloc: Global,
    name: &str,
    children: Vec<Value>,
    same: Same,
) -> Result<Value, AllocError>
    requires { (name.now ≡ codes "all") ⊎ (name.now ≡ codes "any") }
    ensures { IfOk result (λ value. view value ≡ inner_data name.now (map view children.items) same) }
{
    let mut members = Map::new(alloc);
    put_same(&mut members, alloc, same)?;
    put(&mut members, alloc, name, Value::Array(children))?;
    Ok(Value::Object(members))
}

fn outer_value(alloc: Global, leaf: Value) -> Result<Value, AllocError>
    ensures { IfOk result (λ value. view value ≡ outer_data (view leaf)) }
{
    json!(in alloc; {"leaf": leaf})
}

fn first_leaf_value(alloc: Global, leaves: &[Leaf]) -> Result<Value, AllocError>
    ensures { IfOk result (λ value. view value ≡ first_leaf leaves.now) }
{
    match leaves {
        [leaf, ..] => leaf_value(alloc, leaf),
        [] => Ok(Value::Null),
    }
}

fn node_value(
    alloc: Global,
    node: Node,
    children: Vec<Value>,
    leaves: &[Leaf],
) -> Result<Value, AllocError>
    ensures { IfOk result (λ value. view value ≡ node_data node.kind node.same (map view children.items) (first_leaf leaves.now)) }
{
    match node.kind {
        NodeKind::All => inner_value(alloc, "all", children, node.same),
        NodeKind::Any => inner_value(alloc, "any", children, node.same),
        NodeKind::Leaf => outer_value(alloc, first_leaf_value(alloc, leaves)?),
    }
}

// ---- trees

/// A tree, and the depth at which it begins.
#[derive(Drop)]
pub struct PlacedTree {
    pub depth: u8,
    pub value: Value,
}

/// Trees, the last first.
type Stack = Vec<PlacedTree>;

fn is_deeper(depth: u8, trees: &[PlacedTree]) -> bool
    ensures { result ≡ is_deeper depth (stacked trees.now) }
{
    match trees {
        [.., tree] => depth < tree.depth,
        [] => false,
    }
}

/// The trees that begin deeper, up to the first that does not, are taken.
fn take_children(alloc: Global, depth: u8, trees: &mut Stack) -> Result<Vec<Value>, AllocError>
    ensures children { IfOk result (λ values. map view values.items ≡ children depth (stacked trees.old.items)) }
    ensures others { OnOk result (stacked trees.new.items ≡ siblings_after depth (stacked trees.old.items)) }
{
    let mut values = Vec::new(alloc);
    while is_deeper(depth, trees.as_slice()) {
        if let Some(tree) = trees.pop() {
            push(&mut values, tree.value)?;
        }
    }
    Ok(values)
}

fn place(alloc: Global, node: Node, leaves: &[Leaf], mut trees: Stack) -> Result<Stack, AllocError>
    ensures { IfOk result (λ placed. stacked placed.items ≡ place node leaves.now (stacked trees.items)) }
{
    let children = take_children(alloc, node.depth, &mut trees)?;
    let value = node_value(alloc, node, children, leaves)?;
    trees.push(PlacedTree {
        depth: node.depth,
        value,
    })?;
    Ok(trees)
}

fn leaves_after(kind: NodeKind, leaves: &[Leaf]) -> &[Leaf]
    ensures { result.now ≡ leaves_after kind leaves.now }
{
    match kind {
        NodeKind::Leaf => match leaves {
            [_, rest @ ..] => rest,
            [] => leaves,
        },
        _ => leaves,
    }
}

fn trees_of(alloc: Global, nodes: &[Node], leaves: &[Leaf]) -> Result<Stack, AllocError>
    ensures { IfOk result (λ trees. stacked trees.items ≡ trees_of nodes.now leaves.now) }
{
    match nodes {
        [node, rest @ ..] => {
            let trees = trees_of(alloc, rest, leaves_after(node.kind, leaves))?;
            place(alloc, *node, leaves, trees)
        }
        [] => Ok(Vec::new(alloc)),
    }
}

fn tree_value(alloc: Global, nodes: &[Node], leaves: &[Leaf]) -> Result<Value, AllocError>
    ensures { IfOk result (λ value. view value ≡ tree_data nodes.now leaves.now) }
{
    let mut trees = trees_of(alloc, nodes, leaves)?;
    match trees.pop() {
        Some(tree) => Ok(tree.value),
        None => Ok(Value::Null),
    }
}

// ---- groups

/// The body of a requirement group.
pub(crate) fn group_value(alloc: Global, row: &GroupRow) -> Result<Value, AllocError>
    ensures { IfOk result (λ value. view value ≡ group_data row.now) }
{
    let from = moment_value(alloc, row.from)?;
    let id = row.id.get();
    let name = row.name.as_str();
    let step = row.step;
    let to = moment_value(alloc, row.to)?;
    let tree = tree_value(alloc, row.nodes.as_slice(), row.leaves.as_slice())?;
    json!(in alloc; {"from": from, "id": id, "name": name, "step": step, "to": to, "tree": tree})
}
