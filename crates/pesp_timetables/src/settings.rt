//! Numbers that tune the search for a forest. None of them is promised; each was found by trying.

/// How many exchanges are drawn for each one that is to be tried, at most.
pub(crate) const DRAWN_EACH: u32 = 50;

/// One in so many exchanges is tried of those that don't look good.
pub(crate) const BAD_TRIED: u64 = 4;

/// From how many times the span by weight on a row looks bad in the forest in place of another.
pub(crate) const WIDE: u128 = 8;

/// With fewer exchanges for each cycle only those are kept that lose nothing.
pub(crate) const FEWEST_HEATED: usize = 15;

/// With fewer exchanges for each cycle more of them are looked at that leave more offsets open.
pub(crate) const FEWEST_CHOSEN: usize = 25;

/// Over how many halvings the heat falls.
pub(crate) const COOLINGS: u64 = 7;

/// How much an open offset counts in all, in units of 1/4096, divided among the cycles.
pub(crate) const OPEN_SHARE: u64 = 32_768;

/// How much it counts at most, in the same units.
pub(crate) const MOST_OPEN_SHARE: u64 = 409;

/// With more rows, prices are changed part by part behind an exchange, and not all at once.
pub(crate) const FEW_ROWS: usize = 2_500;
