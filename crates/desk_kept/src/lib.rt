//! The kept bodies of rows: the JSON text (RFC 8259) that a keeper writes of a row beside its key, and what it reads again. A row
//! that was written is read as the same row, where it keeps the rules of its fields and of its tree (`laws`).
#![tactic(auto)]

mod bookings;
mod callers;
mod groups;
mod headers;
pub mod laws;
mod leaves;
mod loading;
mod names;
mod reading;
mod rows;
mod stored;
mod text;
mod typed;
mod values;
mod versions;
mod writing;
mod written;

pub use loading::{migrate, read_kept};
pub use reading::read_row;
pub use stored::{KeptError, KeptRow};
pub use text::row_text;
pub use writing::kept_rows;
