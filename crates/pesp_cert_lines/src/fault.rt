//! What is wrong with a line.

/// What is wrong with one line, from the first fault looked for to the last.
#[derive(Clone, Copy, PartialEq, Eq)]
pub enum LineFault {
    /// The line ends the text before the tree is whole.
    Truncated,
    /// The line has no form that may stand at its place.
    Line,
    /// A word is not spelt as its kind says, a multiplier is 0, or the pairs do not rise.
    Number,
    /// A number or a count passes its limit.
    Limit,
}
