//! What the two parts of a leaf are worth by a cut.

use crate::candidates::Candidate;
use crate::kept::Incumbent;
use pesp_forest::{Cycles, Frame};
use pesp_relaxation::{Basis, MOST_PIVOTS, PivotEnd, slopes_of};

/// A leaf: its ranges, and its value.
#[derive(Clone, Copy)]
pub(crate) struct LeafRanges<'a> {
    pub(crate) frame: &'a Frame,
    pub(crate) cycles: &'a Cycles,
    pub(crate) slacks: &'a [(u32, u32)],
    pub(crate) offsets: &'a [(i64, i64)],
    pub(crate) value: i128,
}

/// What a part of a leaf is worth: its value, or what it is worth at least where it closes; by how much that is above the
/// leaf's; and how the search for its best basis ended: where that is `Endless` it has no timetable.
#[derive(Clone, Copy)]
pub(crate) struct Weight {
    pub(crate) value: i128,
    pub(crate) gain: u128,
    pub(crate) ended: PivotEnd,
}

impl LeafRanges<'_> {
    /// The offsets of the cut's cycle in a part.
    fn part(&self, cut: &Candidate, is_high: bool) -> Option<(i64, i64)> {
        let place = (cut.cycle as usize).checked_sub(1)?;
        let (low, high) = self.offsets.get(place).copied()?;
        if is_high {
            Some((cut.k.checked_add(1)?, high))
        } else {
            Some((low, cut.k))
        }
    }

    /// Goes on from the leaf's basis towards a best one of a part, until the part closes.
    fn solve_part(
        &self,
        kept: &Incumbent,
        basis: &mut Basis,
        cut: &Candidate,
        is_high: bool,
    ) -> Option<PivotEnd> {
        let offsets = self.part(cut, is_high)?;
        let row = self.frame.row(cut.row)?;
        let slacks = self.slacks.get(cut.row as usize).copied()?;
        let slopes = slopes_of(self.frame.period(), row, slacks, offsets)?;
        basis.change_slopes(self.frame, cut.row, slopes)?;
        let enough = kept.rise_to_close(self.value);
        Some(basis.solve_within(self.frame, MOST_PIVOTS, enough))
    }

    /// Goes on from the leaf's basis towards a best one of a part, and says what the part is worth.
    pub(crate) fn weigh(
        &self,
        kept: &Incumbent,
        basis: &mut Basis,
        cut: &Candidate,
        is_high: bool,
    ) -> Option<Weight> {
        let ended = self.solve_part(kept, basis, cut, is_high)?;
        let cap = kept.cap(self.value);
        if ended == PivotEnd::Endless {
            return Some(Weight {
                value: 0,
                gain: cap,
                ended,
            });
        }
        let gain = u128::try_from(basis.fall()).unwrap_or(0);
        Some(Weight {
            value: self.value.saturating_add(basis.fall()),
            gain: gain.min(cap),
            ended,
        })
    }
}

impl Weight {
    /// Whether the part has no timetable.
    pub(crate) fn is_endless(self) -> bool {
        self.ended == PivotEnd::Endless
    }

    /// Whether the part has no timetable that costs less than the best one.
    pub(crate) fn is_closed(self, kept: &Incumbent) -> bool {
        self.is_endless() || kept.closes(self.value)
    }

    /// The gain up to a cap, in 1/1048576 of it.
    fn share(self, cap: u128) -> u128 {
        let scaled = self.gain.min(cap).saturating_mul(1_048_576);
        scaled.checked_div(cap).unwrap_or(0)
    }
}

/// How good a cut of a leaf of this value is whose parts are worth this: the product of both gains, as far as they count;
/// better than any product, and then by the lesser gain, where one part closes.
pub(crate) fn score(kept: &Incumbent, value: i128, low: Weight, high: Weight) -> u128 {
    let cap = kept.cap(value);
    let below = low.share(cap);
    let above = high.share(cap);
    if low.is_closed(kept) || high.is_closed(kept) {
        return below.min(above).saturating_add(1 << 50);
    }
    below
        .saturating_add(1)
        .saturating_mul(above.saturating_add(1))
}
