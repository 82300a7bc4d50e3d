//! Civil time: the texts of moments and dates, weekdays, and what the clocks of a zone show.
//!
//! A moment is a whole minute since 1970-01-01T00:00Z, from 2000-01-01T00:00Z to 2100-01-01T00:00Z, both included. A day
//! is counted from 1970-01-01, by the proleptic Gregorian calendar. A reader answers a number exactly where the text has
//! one (`IsMomentText`, `IsDateText`), and each number has one text (`laws`). Nothing here takes memory.
#![tactic(auto)]

mod clocks;
mod dates;
mod digits;
mod horizon;
pub mod laws;
mod moments;
mod zones;

pub use clocks::Local;
pub use dates::{date_text, read_date, weekday};
pub use moments::{moment_text, read_moment};
pub use zones::local;
