//! A search that goes from one live position to the next, and leaves out every pick below which nothing is live.
//!
//! `page` gives the page of the definition over the live positions that come after a position, live or not, and counts its steps.
//! What is live is told by an `Explored`. How it goes on:
//! - A `Trail` is a start with the picks that are laid. To go on is to try the next picks of the last leaf, and to take a pick off
//!   where none is live (`climb`).
//! - The picks of the first leaf have a row each (`Root`) with the next start at which they are live alone. A row is asked only
//!   when the search comes to it at the present start; once that start is done, those that are not known are asked, and the least
//!   start is taken (`next_root`).
//! - To go on after a position lays its longest live beginning, and goes on from there (`first_position`).
//! - Where each start shows its first rows alone, the rest of a start is left by forgetting the starts up to it (`skip_start`).
#![tactic(auto)]

mod begin;
mod children;
mod explored;
mod pages;
mod roots;
mod starts;
mod trail;

pub use explored::Explored;
pub use pages::page;
