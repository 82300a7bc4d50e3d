//! The numbers that a gate is built for.

/// How many turns a gate gives out, one after another.
pub const TURN_LIMIT: u64 = 1 << 62;

/// The share of the pass that is made with the gate. The shares of all passes always add up to it.
pub const WHOLE_SHARE: u64 = 1 << 32;
