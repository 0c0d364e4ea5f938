//! How much is tried.

/// How many leaves a search splits at most that leaves rows out.
pub const TRIAL_STEPS: u32 = 50;

/// How many rows all these searches have together, at most.
pub const TRIED_ROWS: usize = 8_000;

/// Into how many groups a list is cut at first.
pub const FIRST_GROUPS: usize = 8;

/// How often groups are halved at most: lists have at most 100,000 rows.
pub const HALVINGS: u32 = 18;
