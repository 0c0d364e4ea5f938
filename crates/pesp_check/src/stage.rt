//! How far a text was judged.

use pesp_judges::Refusal;

/// Which items of a text were judged so far.
#[derive(Clone, Copy, PartialEq, Eq)]
pub enum Stage {
    /// None: the period, the answer and the times are kept until all times came.
    Front,
    /// The period, the answer and the times, and some cycles.
    Cycles,
    /// All cycles, and some lines of the tree.
    Tree,
    /// An item that is wrong.
    Refused(Refusal),
}
