//! Whether bits begin a pattern of a tree: one walk over its nodes, in which each child tells whether its bits begin one of its
//! patterns and whether they leave all its leaves out.
ghost use Rattle.std.specs.Prelude.{◌≡◌, ◌≤◌, ◌&&◌, ◌||◌, true, false, length};
ghost use Rattle.desk_need.specs.Bits.{bits_of};
ghost use Rattle.desk_need.specs.Judging.{begins_by, none_by, bits_by, Judges, begins_at};

use crate::trees::bits::{Bits, are_none, later, may_begin, may_miss};
use desk_base::{Node, NodeKind};

/// What trees beside one another say of the bits of their leaves: whether each begins a pattern with its own, whether one does
/// and the others are left out, and whether all are left out. Then come the nodes and the bits that follow theirs.
#[derive(Drop)]
struct Judged<'n, 'b> {
    all: bool,
    one: bool,
    none: bool,
    nodes: &'n [Node],
    bits: Bits<'b>,
}

/// What one tree says of the bits of its leaves, and the bits that follow.
#[derive(Drop)]
struct First<'b> {
    begins: bool,
    none: bool,
    bits: Bits<'b>,
}

fn both(a: bool, b: bool) -> bool
    ensures { result ≡ (a && b) }
{
    a && b
}

fn either(a: bool, b: bool) -> bool
    ensures { result ≡ (a || b) }
{
    a || b
}

/// What the tree of a node of this kind says, where these trees are under it.
fn of_kind<'b>(kind: NodeKind, bits: &Bits<'b>, below: &Judged<'_, 'b>) -> First<'b>
    ensures begins { result.begins ≡ begins_by kind below.now.all below.now.one (bits_of bits.now) }
    ensures none { result.none ≡ none_by kind below.now.none (bits_of bits.now) }
    ensures bits { bits_of result.bits ≡ bits_by kind (bits_of below.now.bits) (bits_of bits.now) }
{
    match kind {
        NodeKind::All => First {
            begins: below.all,
            none: below.none,
            bits: below.bits,
        },
        NodeKind::Any => First {
            begins: below.one,
            none: below.none,
            bits: below.bits,
        },
        NodeKind::Leaf => First {
            begins: may_begin(bits),
            none: may_miss(bits),
            bits: later(bits),
        },
    }
}

/// The first tree, and those beside it.
fn joined<'n, 'b>(first: &First<'b>, beside: Judged<'n, 'b>) -> Judged<'n, 'b>
    ensures all { result.all ≡ (first.now.begins && beside.entry.all) }
    ensures one { result.one ≡ ((first.now.begins && beside.entry.none) || (first.now.none && beside.entry.one)) }
    ensures none { result.none ≡ (first.now.none && beside.entry.none) }
    ensures nodes { result.nodes.now ≡ beside.entry.nodes.now }
    ensures bits { bits_of result.bits ≡ bits_of beside.entry.bits }
{
    Judged {
        all: both(first.begins, beside.all),
        one: either(
            both(first.begins, beside.none),
            both(first.none, beside.one),
        ),
        none: both(first.none, beside.none),
        nodes: beside.nodes,
        bits: beside.bits,
    }
}

/// What no tree says.
fn no_trees<'n, 'b>(nodes: &'n [Node], bits: &Bits<'b>) -> Judged<'n, 'b>
    ensures all { result.all ≡ true }
    ensures one { result.one ≡ false }
    ensures none { result.none ≡ true }
    ensures nodes { result.nodes.now ≡ nodes.now }
    ensures bits { bits_of result.bits ≡ bits_of bits.now }
{
    Judged {
        all: true,
        one: false,
        none: true,
        nodes,
        bits: *bits,
    }
}

/// What the trees at the front of the nodes say that begin deeper than this.
fn judge<'n, 'b>(depth: u8, nodes: &'n [Node], bits: &Bits<'b>) -> Judged<'n, 'b>
    ensures judges { Judges depth nodes.now (bits_of bits.now) result.all result.one result.none result.nodes.now (bits_of result.bits) }
    ensures fewer { length result.nodes.now ≤ length nodes.now }
{
    match nodes {
        [] => no_trees(nodes, bits),
        [node, later @ ..] => {
            if depth < node.depth {
                let below = judge(node.depth, later, bits);
                let first = of_kind(node.kind, bits, &below);
                let beside = judge(depth, below.nodes, &first.bits);
                joined(&first, beside)
            } else {
                no_trees(nodes, bits)
            }
        }
    }
}

/// Whether the bits begin one of the patterns of the tree of these nodes.
pub(crate) fn begin(nodes: &[Node], bits: &Bits) -> bool
    ensures { result ≡ begins_at nodes.now (bits_of bits.now) }
{
    match nodes {
        [] => are_none(bits),
        [root, later @ ..] => {
            let below = judge(root.depth, later, bits);
            let first = of_kind(root.kind, bits, &below);
            let ends = are_none(&first.bits);
            both(first.begins, ends)
        }
    }
}
