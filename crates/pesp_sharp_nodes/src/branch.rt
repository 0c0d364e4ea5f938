//! Bounds on offsets.

/// Whether an offset is at most or at least so much.
#[derive(Clone, Copy, PartialEq, Eq)]
pub enum BoundSense {
    AtMost,
    AtLeast,
}

/// The offset of a cycle, numbered from 0, is at most or at least so much.
#[derive(Clone, Copy, PartialEq, Eq)]
pub struct OffsetBound {
    pub cycle: u32,
    pub side: BoundSense,
    pub offset: i64,
}

/// A cut of the offsets of a cycle, numbered from 0, into those up to one and those above it.
#[derive(Clone, Copy, PartialEq, Eq)]
pub struct OffsetCut {
    pub cycle: u32,
    pub most: i64,
}

impl BoundSense {
    /// The sign of a multiplier of this side in a pair.
    pub fn signed(self, multiplier: i64) -> i64 {
        match self {
            BoundSense::AtMost => multiplier.wrapping_neg(),
            BoundSense::AtLeast => multiplier,
        }
    }
}

impl OffsetBound {
    /// Whether another one bounds the same cycle on the same side.
    pub(crate) fn is_of(self, cycle: u32, side: BoundSense) -> bool {
        self.cycle == cycle && self.side == side
    }
}

impl OffsetCut {
    /// What holds in a part.
    pub fn part(self, side: BoundSense) -> OffsetBound {
        let offset = match side {
            BoundSense::AtMost => self.most,
            BoundSense::AtLeast => self.most.saturating_add(1),
        };
        OffsetBound {
            cycle: self.cycle,
            side,
            offset,
        }
    }
}
