//! The numbers that tune soft anneals. No promise rests on any of them.

/// How many rows may cross between a component and the rest, where it is shifted.
pub(crate) const MOST_CROSSINGS: usize = 250;

/// How many sweeps a forest serves.
pub(crate) const SWEEPS_OF_A_FOREST: u32 = 8;

/// How many sweeps a heat and a price serve.
pub(crate) const SWEEPS_OF_A_HEAT: u32 = 16;

/// How many sweeps mend what is broken.
pub(crate) const MENDING_SWEEPS: u32 = 40;

/// How many of these a forest serves.
pub(crate) const MENDING_SWEEPS_OF_A_FOREST: u32 = 4;

/// The highest price: times a period and the crossings of a component it fits into 62 bits.
pub(crate) const MOST_PRICE: u64 = 1 << 40;

/// How many forests serve the descent at the end, and how many sweeps each of them.
pub(crate) const LAST_FORESTS: u32 = 4;

pub(crate) const LAST_SWEEPS: u32 = 2;
