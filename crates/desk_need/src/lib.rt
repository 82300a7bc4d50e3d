//! Who serves a leaf, which leaves are chosen together, and what those who are chosen have in common.
//!
//! `eligible` is whether a resource serves a leaf, or the first rule that it breaks. A `Tree` is the nodes of a group that
//! break no tree rule; it says which patterns go on with a leaf that is chosen or left out. Nothing here looks at a calendar
//! or at a booking, and rows are found by halving.
#![tactic(auto)]

mod cases;
mod lookups;
mod same;
mod serving;
mod trees;

pub use cases::{Case, StartRun, is_in_windows, window_starts};
pub use same::{crews_for, first_broken_node};
pub use serving::{Eligibility, eligible};
pub use trees::{Choices, Tree, TreeError};
