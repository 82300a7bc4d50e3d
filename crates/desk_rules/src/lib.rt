//! Whether a schedule that comes from outside is well formed, judged before anything works on it; and the first rule that one row
//! breaks, judged before it is put.
//!
//! The keys of each table rise, no table is too long, each row keeps the rules of its fields and of its tree, and each row
//! that a row names is there. Rows and ranges of rows are found by halving, so this takes about n log n steps for n rows, and
//! memory for the memberships alone.
#![tactic(auto)]

mod citations;
mod fields;
mod formed;
mod judged;
mod judging;
mod limits;
mod order;
mod rows;
mod trees;

pub use fields::groups::broken_group;
pub use formed::{BadAt, are_formed, first_bad};
pub use rows::{broken_row, first_unknown, first_unknown_of_group};
