//! Tests of `desk_pruned`, through its public calls alone, over written lists of live positions.
#![tactic(auto)]

mod listed;
mod sound;

pub use listed::{Laid, Listed};
pub use sound::is_sound;

#[cfg(test)]
mod fixtures;
#[cfg(test)]
mod pages;
