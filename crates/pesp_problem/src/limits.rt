//! The limits of instances and of certificates.

/// The longest period.
pub const MOST_PERIOD: u32 = 10_000;

/// The latest time: times lie below the period.
pub const MOST_TIME: u32 = 9_999;

/// The longest slack: that of an activity lies below the period.
pub const MOST_SLACK: u32 = 9_999;

/// The most activities of an instance, and the most rows of a network.
pub const MOST_ROWS: usize = 100_000;

/// The most events.
pub const MOST_EVENTS: usize = 100_000;

/// The greatest bound on a duration, by amount.
pub const MOST_BOUND: u64 = 1_000_000;

/// The greatest lower bound of a row of a network, by amount: rows that were joined add up.
pub const MOST_LOWER: u64 = 1_020_000;

/// The greatest weight.
pub const MOST_WEIGHT: u64 = 1_000_000_000;

/// The greatest label, by amount.
pub const MOST_LABEL: u64 = 1_000_000_000_000;

/// The most steps of a search.
pub const MOST_STEPS: u32 = 100_000;

/// The most cycles of a table, and the most marked walks.
pub const MOST_CYCLES: usize = 100_000;

/// The most signed rows of a table, and the most marked rows.
pub const MOST_SIGNED_ROWS: usize = 10_000_000;

/// The most lines of a tree, and the most jobs of a board.
pub const MOST_LINES: usize = 1_000_000;

/// The most pairs of a tree.
pub const MOST_PAIRS: usize = 20_000_000;

/// The greatest multiplier of a pair, by amount.
pub const MOST_MULTIPLIER: u64 = 1_000_000_000_000;

/// The greatest offset of a branch, by amount.
pub const MOST_OFFSET: u64 = 100_000_000_000_000;

/// The greatest scale of marked walks.
pub const MOST_SCALE: u32 = 1_000_000;

/// The longest text of a certificate, of works or of times, in bytes.
pub const MOST_TEXT: usize = 1_073_741_824;
