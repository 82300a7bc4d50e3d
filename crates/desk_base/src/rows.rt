//! The rows of a schedule, their keys, and the tables that hold them.
pub mod bookings;
pub mod calendars;
mod found;
pub mod groups;
mod keys;
mod placed;
pub mod ranges;
pub mod resources;
pub mod row;
pub mod tables;
