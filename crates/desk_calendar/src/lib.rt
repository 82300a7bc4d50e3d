//! The capacity of a plain resource: at a minute, how long it stays, and over a window.
//!
//! Every table rises by key, so what belongs to a resource or a calendar is found by halving. A minute's capacity comes with a
//! later minute until which it stays (`Steady`), the least bound of the few rows that were found, so that a window costs its
//! changes and not its minutes.
#![tactic(auto)]

mod clocks;
pub mod laws;
mod locals;
mod offs;
mod profile;
mod steady;

pub use profile::capacity_profile;
pub use steady::{Steady, capacity_at, steady_at};
