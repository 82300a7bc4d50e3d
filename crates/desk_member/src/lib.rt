//! What a booking loads, and who is in which crew or pool.
//!
//! Memberships rise by crew or pool, so those of one are found by halving; `ByMember` has them by member. From both a booking
//! is cut into pieces, each of one resource with one effort (`load_pieces`), without a walk over resources or memberships of
//! others.
#![tactic(auto)]

mod by_member;
mod counts;
mod items;
mod pieces;
mod spans;

pub use by_member::ByMember;
pub use counts::{first_gap, member_profile};
pub use items::{Item, ItemsError, load_items};
pub use pieces::load_pieces;
pub use spans::{MemberSpan, MemberSpans, member_spans};
