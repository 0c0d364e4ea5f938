//! Why a search ends.

/// Why no more leaves are split.
#[derive(Clone, Copy, PartialEq, Eq)]
pub enum ResumeEnding {
    /// As many leaves were split as may be.
    StepsUsed,
    /// No leaf is open any more.
    NoneOpen,
    /// With what is found for a leaf the tree would have more than 1000000 lines or 20000000 pairs, or 1000000 leaves were lent.
    Full,
    /// The watcher ended it.
    Stopped,
}
