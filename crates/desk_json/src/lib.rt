//! The JSON of the interface (RFC 8259): what a body of a change asks for, and the texts of answers and of cursors.
#![tactic(auto)]

mod acts;
mod answers;
mod bodies;
mod cursor_reading;
mod cursors;
mod decimals;
mod faults;
mod fields;
mod groups;
mod journals;
pub mod laws;
mod leaves;
mod lists;
mod moments;
mod pages;
mod pieces;
mod reading;
mod receipts;
mod refusals;
mod tables;
mod trees;
mod values;
mod words;

pub use answers::answer_text;
pub use bodies::{parse, read_change};
pub use cursor_reading::{CursorError, read_cursor};
pub use cursors::cursor_text;
pub use decimals::{read_id, read_number};
pub use faults::{BodyError, BodyRule};
pub use fields::{Names, has_only, value_at, value_under};
pub use groups::read_group;
pub use moments::{ascii_text, moment_value};
pub use pieces::pieces_of;
pub use reading::Read;
pub use tables::{Columns, columns_of, read_row};
pub use words::field_name;
