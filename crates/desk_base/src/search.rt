//! What a search is asked for and what it gives: positions and rows in their order, and pages.
mod order;
pub mod results;
