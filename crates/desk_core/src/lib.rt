//! The one-thread scheduler: a schedule with its journal (`Book`), and what a command comes to over it (`step`).
#![tactic(auto)]

mod accepting;
mod answering;
mod book;
mod changing;
mod effects;
mod entering;
mod group_bookings;
mod journaled;
mod judging;
mod new_bookings;
mod searching;
mod view;

pub use book::Book;
pub use view::View;
