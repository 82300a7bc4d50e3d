//! Whether picks can be booked from a start on, or the first point that they break.
//!
//! The points are judged in the order grid, shape, eligibility, part-of-same, room. `place_refusal` judges them for whoever books
//! a group: from the picks alone, with the clash where they do not fit. `feasible` judges them for a search, over its case and its
//! view.
#![tactic(auto)]

mod asks;
mod broken;
mod fitting;
mod grid;
mod lives;
mod places;
mod points;
mod rows;
mod serving;

pub use lives::first_starts::first_start;
pub use lives::growing::extends;
pub use lives::laying::{lay, take_up};
pub use lives::positions::live;
pub use places::place_refusal;
pub use rows::feasible;
