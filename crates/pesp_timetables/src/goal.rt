//! What a forest is worth: the value of the root's leaf, less a penalty on offsets that are left open.

use crate::settings::{MOST_OPEN_SHARE, OPEN_SHARE};
use pesp_forest::Frame;
use pesp_relaxation::{Basis, Slopes};

/// 128 times the logarithm to the base 2 of 0 to 16, of 0 for 0.
const LOGARITHMS: [u64; 17] = [
    0, 0, 128, 202, 256, 297, 330, 359, 384, 405, 425, 442, 458, 473, 487, 500, 512,
];

/// 128 times the logarithm to the base 2, between powers of two by a line.
fn logarithm(count: u64) -> u64 {
    if let Some(found) = LOGARITHMS.get(usize::try_from(count).unwrap_or(usize::MAX)) {
        return *found;
    }
    let whole = 63u32.saturating_sub(count.leading_zeros());
    let part = count.saturating_mul(128).wrapping_shr(whole);
    u64::from(whole)
        .saturating_mul(128)
        .saturating_add(part)
        .saturating_sub(128)
}

/// How many offsets are left to the cycle of a row.
fn count_of(slopes: Slopes, period: u32) -> u64 {
    let wide = slopes.between.saturating_sub(slopes.below);
    let periods = wide.checked_div(i64::from(period)).unwrap_or(0);
    u64::try_from(periods.saturating_add(1)).unwrap_or(0)
}

/// How open a row's cycle is: the row's weight and 1, times the logarithm of how many offsets are left.
pub(crate) fn openness(frame: &Frame, place: u32, slopes: Option<Slopes>) -> i64 {
    let count = slopes.map_or(1, |slopes| count_of(slopes, frame.period()));
    let weight = frame.row(place).map_or(0, |row| row.weight);
    let heavy = weight.saturating_add(1);
    i64::try_from(heavy.saturating_mul(logarithm(count))).unwrap_or(i64::MAX)
}

/// How open all cycles are together.
pub(crate) fn open_in_all(frame: &Frame, basis: &Basis) -> i64 {
    let mut sum = 0i64;
    for place in 0..frame.rows().len() {
        let place = u32::try_from(place).unwrap_or(u32::MAX);
        sum = sum.wrapping_add(openness(frame, place, basis.slopes(place)));
    }
    sum
}

/// How much an open offset counts, in units of 1/4096: the less the more cycles there are.
#[derive(Clone, Copy)]
pub(crate) struct Goal {
    pub(crate) share: u64,
}

impl Goal {
    /// The goal with so many cycles.
    pub(crate) fn new(cycles: usize) -> Goal {
        let share = OPEN_SHARE
            .checked_div(cycles as u64)
            .unwrap_or(MOST_OPEN_SHARE);
        Goal {
            share: share.min(MOST_OPEN_SHARE),
        }
    }

    /// What is taken off the value of a root's leaf for so open cycles.
    pub(crate) fn penalty(self, frame: &Frame, open: i64) -> i128 {
        let scaled = i128::from(open)
            .saturating_mul(i128::from(self.share))
            .saturating_mul(i128::from(frame.period()));
        scaled / 524_288
    }

    /// What a forest is worth whose root has a circulation of this cost, where its cycles are so open.
    pub(crate) fn worth(self, frame: &Frame, cost: i128, open: i64) -> i128 {
        0i128
            .saturating_sub(cost)
            .saturating_sub(self.penalty(frame, open))
    }
}
