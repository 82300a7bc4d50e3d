//! Pages of a search: at most so many rows of a group, from a position on, over its case and what is free.
//!
//! `page` gives the page of the definition over all live positions of the group, within a bound on its steps: one step is one
//! question whether there is room. It goes over a `Space`, in which the core of `desk_pruned` lays picks and takes them up.
#![tactic(auto)]

mod choices;
mod pages;
mod space;

pub use pages::page;
