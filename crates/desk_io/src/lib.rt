//! Where the bytes of a conversation come from and go to: the traits `Source` and `Sink`, a form of each in memory,
//! and one over a reader or a writer of std.
//!
//! What an object holds is told where it is known, each call says what it moves, and a call fails only where the
//! object's own count of faults rises in it. `Bytes` is the list of bytes that the crates above share, and `NoMemory`
//! the error of every call that may want memory.
#![tactic(auto)]

mod bytes;
mod errors;
mod memory_sink;
mod memory_source;
mod std_answers;
mod std_sink;
mod std_source;
mod traits;

pub use bytes::Bytes;
pub use errors::{Failed, NoMemory};
pub use memory_sink::MemorySink;
pub use memory_source::MemorySource;
pub use std_sink::StdSink;
pub use std_source::StdSource;
pub use traits::{Sink, Source};
