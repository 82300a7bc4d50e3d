//! The numbers of the horizon.

/// 2000-01-01T00:00Z.
pub const FIRST_MINUTE: u32 = 15_778_080;

/// 2100-01-01T00:00Z, the end of the horizon.
pub const END_OF_MINUTES: u32 = 68_374_080;

/// The minutes of a day.
pub const MINUTES_A_DAY: u32 = 1440;

/// 1999-12-31, the first day that clocks can show.
pub const FIRST_DAY: u32 = 10_956;

/// 2100-01-01, the last such day.
pub const LAST_DAY: u32 = 47_482;
