//! The trees of groups: their rules, and which of their leaves are chosen together.
mod bits;
mod judging;
mod rules;
mod shape;
mod tree;

pub(crate) use rules::{is_leaf, leaf_bit};
pub use shape::Choices;
pub use tree::{Tree, TreeError};
