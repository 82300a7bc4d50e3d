//! What rows are made of: ids, numbers, minutes, names, bytes and lists, each with its range in its type;
//! copies, want of memory, and a counter of steps.
pub mod copying;
pub mod ids;
pub mod items;
pub mod memory;
pub mod minutes;
pub mod names;
pub mod serials;
pub mod steps;
