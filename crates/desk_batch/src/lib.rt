//! `desk batch`: one connection, served alone, from the bytes of a source to the bytes of a sink.
//!
//! `run` is the top call. `desk_route` reads each request and writes each response, `turns` takes commands to the book, and the
//! conversation itself is held by `desk_talk`.
#![tactic(auto)]

mod program;
pub mod turns;
mod words;

pub use program::run;
pub use words::{Word, usage};
