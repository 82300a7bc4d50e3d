//! What is known of a group before its search, whatever is booked.
mod candidates;
mod known;
mod required;
mod starts;
mod windows;

pub use known::Case;
pub use starts::{StartRun, window_starts};
pub use windows::is_in_windows;
