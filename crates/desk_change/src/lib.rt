//! What a change of the schedule meets before it is entered: the first of the refusals that the rows alone show.
//!
//! Rows, ranges of rows and the bookings of a group or a resource are found by halving; only where a row of a resource, a group,
//! a calendar or a membership may name the row that is to be removed is their table walked.
#![tactic(auto)]

mod callers;
mod citing;
mod early;
mod fields;
mod in_use;
mod places;
mod standing;

pub use callers::{kept_receipt, last_number};
pub use early::early_refusal;
pub use standing::{booked_for, is_booked};
