//! What is free, without a group's own bookings and with others laid on top.
//!
//! A view borrows the index and its tables. What it is asked of a minute is found by halving, with the minute until which it
//! stays; so a probe walks the stretches in which nothing changes, and takes no memory.
pub mod boards;
pub mod changed;
pub mod clash;
pub mod demand;
pub mod fits;
pub mod free;
mod lookups;
mod memberships;
mod overs;
mod places;
pub mod probe;
mod rooms;
mod scans;
mod shown;
pub(crate) mod sorts;
pub mod starts;
mod steady;
mod uses;
mod weighed;
