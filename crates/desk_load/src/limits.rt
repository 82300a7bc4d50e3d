//! Limits of an index and of a view.

/// As many bookings as well-formed tables have at most, which is ten times as many as a schedule keeps.
pub const MOST_BOOKINGS: usize = 4_000_000;

/// How many bookings may be laid on a view.
pub const MOST_LAID: usize = 4_194_304;
