//! The requests of the bytes of a connection, and the bytes of responses.
//!
//! A `Framer` is fed bytes in pieces and gives the whole requests at their front. What it gives is a fact of the bytes
//! alone (`Requests`), so it does not matter how they were cut: `one_reading`, `fronts_stay` and `one_border` are its
//! laws. A head is what `httparse` reads as one, of version 1.0 or 1.1, of at most 16,384 bytes and 96 line feeds, and its body
//! has as many bytes as its `Content-Length` says, at most 65,536. `response_bytes` writes a response.
#![tactic(auto)]

mod closing;
mod framer;
mod framing;
mod front;
mod laws;
mod lengths;
mod limits;
mod looking;
mod names;
mod reading;
mod responses;
mod rules;
mod writing;

pub use framer::Framer;
pub use framing::Framing;
pub use laws::{fronts_stay, one_border, one_reading};
pub use limits::{MOST_BODY_BYTES, MOST_HEAD_BYTES, MOST_HEAD_FIELDS, MOST_HEAD_LINES};
pub use responses::{Allow, BodyKind, Response};
pub use rules::{HeadRule, Next, Request, WireEnd, WireLimit};
pub use writing::response_bytes;
