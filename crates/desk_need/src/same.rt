//! Whether the parts of a group that are to be of the same are.
mod covers;
mod crews;
mod marks;
mod nodes;

pub(crate) use covers::begin_of;
pub use crews::crews_for;
pub use nodes::first_broken_node;
