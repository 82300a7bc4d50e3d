//! Conversations: one engine under every connection.
//!
//! `converse` hears the bytes of a source, has each request answered by a `Replier`, sends the responses to a sink, and says how
//! the conversation ended. Who answers is its parameter, so that a program that has its schedule to itself and a server that
//! shares one hold the same conversation, which is stated and proved once.
//!
//! The words of this crate:
//!
//! - A *conversation* is one call of `converse`, from the first byte of its source to its end.
//! - A *round* of it hears a request, has it answered, and sends the response.
//! - A *turn* is what the replier does for one request; it leads from one state of the replier to the next.
//! - An *exchange* is a request that was answered, with its response.
//! - A *session* is what is known of a conversation that ended: the bytes taken, the exchanges, their turns, what is known of them
//!   as a whole, and the bytes sent, by how it ended.
#![tactic(auto)]

mod ends;
mod hearing;
mod rounds;

pub use ends::{SessionEnd, Stop, closing_response};
pub use hearing::{Heard, MOST_TAKEN, hear};
pub use rounds::{Replied, Replier, Sent, converse};
