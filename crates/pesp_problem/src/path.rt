//! The way to a node of a tree: its branches, each with the one range that it changed.

ghost use Rattle.std.specs.Prelude.{◌≡◌};
ghost use Rattle.pesp_problem.specs.Pending.{cut_of};

use crate::{Cut, Side};

/// A cut, and the range that it cuts as it was.
#[derive(Clone, Copy, PartialEq, Eq)]
pub enum Change {
    Slack { row: u32, k: u32, was: (u32, u32) },
    Offset { cycle: u32, k: i64, was: (i64, i64) },
}

impl Change {
    /// The cut that made the change.
    pub fn to_cut(self) -> Cut
        ensures { result ≡ cut_of self }
    {
        match self {
            Change::Slack { row, k, .. } => Cut::Slack { row, k },
            Change::Offset { cycle, k, .. } => Cut::Offset { cycle, k },
        }
    }
}

/// A cut on the way to a node, and the part that the way goes through.
#[derive(Clone, Copy, PartialEq, Eq)]
pub struct Branch {
    pub change: Change,
    pub side: Side,
}
