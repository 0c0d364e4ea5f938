//! Branches: which range is cut, and the two parts.

/// A range that is cut in two at `k`: the slack of a row, or the offset of a cycle, both numbered from 1.
#[derive(Clone, Copy, PartialEq, Eq)]
pub enum Cut {
    Slack { row: u32, k: u32 },
    Offset { cycle: u32, k: i64 },
}

/// A part of a branch: what is at most `k`, or what is at least `k + 1`.
#[derive(Clone, Copy, PartialEq, Eq)]
pub enum Side {
    Low,
    High,
}
