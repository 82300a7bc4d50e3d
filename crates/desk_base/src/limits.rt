//! The limits of minutes, numbers, rows, trees and pages: each number once, for code and definitions alike.

/// 2000-01-01T00:00Z, in minutes since 1970-01-01T00:00Z.
pub const FIRST_MINUTE: u32 = 15_778_080;

/// 2100-01-01T00:00Z, where the horizon ends.
pub const END_OF_MINUTES: u32 = 68_374_080;

/// Minutes of a day, the greatest step of a group and the greatest offset of a zone.
pub const MINUTES_A_DAY: u32 = 1440;

/// The first day that clocks can show, 1999-12-31, in days since 1970-01-01.
pub const FIRST_DAY: u32 = 10_956;

/// The last such day, 2100-01-01.
pub const LAST_DAY: u32 = 47_482;

/// The greatest id of a row.
pub const ID_LIMIT: u32 = 999_999_999;

/// The greatest number of a booking, and of a caller's change.
pub const SERIAL_LIMIT: u32 = 4_000_000_000;

/// The greatest revision.
pub const REVISION_LIMIT: u64 = 1_000_000_000_000_000;

/// Bytes of a name.
pub const NAME_LIMIT: u32 = 60;

/// Shifts of a zone.
pub const SHIFT_LIMIT: usize = 256;

/// The capacity that a row gives.
pub const CAPACITY_LIMIT: u16 = 1000;

/// The effort of a leaf.
pub const EFFORT_LIMIT: u32 = 1000;

/// The rating of a characteristic.
pub const RATING_LIMIT: u8 = 10;

/// Minutes of a leaf: 14 days.
pub const DURATION_LIMIT: u32 = 20_160;

/// Minutes from a group's start to the start of a leaf: 14 days.
pub const OFFSET_LIMIT: u32 = 20_160;

/// Entries of each list of a leaf.
pub const LIST_LIMIT: usize = 16;

/// Minutes of a group's window: 90 days.
pub const WINDOW_LIMIT: u32 = 129_600;

/// The least step of a group, in minutes.
pub const LEAST_STEP: u16 = 5;

/// Nodes of a tree.
pub const NODE_LIMIT: usize = 64;

/// Leaves of a tree.
pub const LEAF_LIMIT: usize = 24;

/// The depth of a node: six levels, from 0.
pub const DEPTH_LIMIT: u8 = 5;

/// Rows of one page.
pub const PAGE_LIMIT: u16 = 500;

/// Positions that one page passes.
pub const PASSED_LIMIT: u32 = 4096;

/// Entries of the journal of one opening.
pub const JOURNAL_LIMIT: usize = 100_000;

/// Entries of the journal that one answer shows.
pub const SUMMARY_LIMIT: usize = 500;
