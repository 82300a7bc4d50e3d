//! Signed values over minutes, and sets of minutes.
//!
//! A `Profile` is a window with one signed value for each minute of it, and every contract sees it as that. It is kept
//! as stretches of equal values, so a query costs a binary search and then the stretches that it meets. `Runs` is a
//! set of minutes, kept as the runs that it is made of.
#![tactic(auto)]

mod memory;
mod piece;
mod profile;
mod run;
mod runs;
mod stretch;

pub use memory::NoMemory;
pub use piece::Piece;
pub use profile::Profile;
pub use run::Run;
pub use runs::{Runs, intersect};
pub use stretch::Stretch;
