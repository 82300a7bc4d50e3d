//! A schedule that is kept: the traits `Keeper` and `Opener`, and a form of each in memory.
//!
//! A commit is the whole change or nothing, and a call fails only where the keeper's own count of faults rises in it. What a keeper
//! keeps and which of its calls fail is told where it is known. An opener hands out stores by their paths, and takes them back.
#![tactic(auto)]

mod errors;
mod held;
mod keeper;
mod memory_keeper;
mod memory_opener;
mod opener;

pub use errors::LoadError;
pub use keeper::Keeper;
pub use memory_keeper::MemoryKeeper;
pub use memory_opener::{Keepers, MemoryOpener};
pub use opener::Opener;
