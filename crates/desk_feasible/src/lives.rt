//! What a search asks as it goes on from one live position to the next.
pub mod first_starts;
pub mod growing;
pub mod laying;
mod pick_starts;
pub mod positions;
mod steps;
