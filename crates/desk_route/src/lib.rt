//! The HTTP interface: which command a request is, and the response to each answer.
//!
//! `read_request` reads a request as a command, or tells the first rule of the interface that it breaks. `answer_response` and
//! `refusal_response` are the two kinds of response. `Serving` joins them to the conversations of `desk_talk`, over whoever takes
//! the turns (`Taker`).
#![tactic(auto)]

pub mod laws;
mod parameters;
mod queries;
mod refusals;
mod replies;
mod requests;
mod routes;
mod turns;
mod values;

pub use refusals::{Parameter, WebRefusal};
pub use replies::{answer_response, refusal_response};
pub use requests::{Routed, read_request};
pub use routes::Routes;
pub use turns::{Serving, Taker};
