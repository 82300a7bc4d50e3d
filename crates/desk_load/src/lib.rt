//! What stands: an index of the standing bookings, as values per minute and as lists.
//!
//! A `LoadIndex` has for each resource the weight of the standing bookings, and for each resource and each group its bookings.
//! `LoadIndex::build` makes it from the tables, and `LoadIndex::prepare` the index of changed tables.
#![tactic(auto)]

mod build;
mod by_number;
mod changes;
mod effects;
mod index;
pub mod laws;
mod limits;
mod lists;
mod parts;
mod view;
mod weights;

pub use by_number::ByNumber;
pub use changes::PreparedIndex;
pub use index::LoadIndex;
pub use lists::BookingList;
pub use view::boards::{room_profile, weight_profile};
pub use view::changed::clash_changed;
pub use view::clash::{clash, clash_standing};
pub use view::demand::Demand;
pub use view::fits::StartList;
pub use view::free::FreeView;
pub use view::probe::Probe;
pub use view::starts::Starts;
pub use weights::Weight;
