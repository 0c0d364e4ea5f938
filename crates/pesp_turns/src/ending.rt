//! How turns end.

/// Why no turn is taken any more.
#[derive(Clone, Copy, PartialEq, Eq)]
pub enum Ending {
    /// As many leaves were split as may be.
    StepsUsed,
    /// No leaf is open.
    NoneOpen,
    /// A leaf is open, but 1000000 numbers are spent.
    NumbersSpent,
    /// The tree would have more than 1000000 lines or 20000000 pairs.
    TreeTooLarge,
    /// Three turns more than twice as many as leaves may be split were taken.
    TurnsUsed,
}

/// How turns ended: how many leaves they split, and why no other is taken.
#[derive(Clone, Copy, PartialEq, Eq)]
pub struct Ended {
    pub used: u32,
    pub ending: Ending,
}
