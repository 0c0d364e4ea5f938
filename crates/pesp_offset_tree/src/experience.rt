//! What cuts have gained so far.

use pesp_sharp_nodes::{BoundSense, UNIT};
use std::alloc::{AllocError, Global};

/// A fraction below which a gain counts as over this fraction.
const LEAST_FRACTION: i64 = UNIT / 64;

/// What is added to each gain before they are multiplied, in 1/65536.
const LEAST_GAIN: u128 = 64;

/// Gains over a fraction of 1, in 1/65536, summed up, and how many there were.
#[derive(Clone, Copy)]
struct Gains {
    sum: u128,
    count: u64,
}

/// The gains of both sides of the cuts of a cycle.
#[derive(Clone, Copy)]
struct Record {
    low: Gains,
    high: Gains,
}

/// No gain yet.
const NO_GAINS: Gains = Gains { sum: 0, count: 0 };

/// No gain on either side.
const NO_RECORD: Record = Record {
    low: NO_GAINS,
    high: NO_GAINS,
};

/// What the cuts of each cycle have gained so far.
#[derive(Drop)]
pub struct PseudoCosts {
    records: Vec<Record>,
    by_weight: Gains,
}

/// A number without its sign; 0 where it is below 0.
fn natural(number: i64) -> u128 {
    u128::try_from(number).unwrap_or(0)
}

impl Gains {
    /// The mean; None where there were none.
    fn mean(&self) -> Option<u128> {
        self.sum.checked_div(u128::from(self.count))
    }

    /// The gain to be expected, where it is taken from the other side if there was none on this one.
    fn expected(&self, other: &Gains) -> u128 {
        match (self.mean(), other.mean()) {
            (Some(mean), _) => mean,
            (None, Some(mean)) => (mean >> 1).saturating_add(1),
            (None, None) => 0,
        }
    }

    /// One gain more, in 1/2^20, over a fraction in 1/65536.
    fn note(&mut self, gain: i128, fraction: i64) {
        let long = natural(fraction.max(LEAST_FRACTION));
        let scaled = u128::try_from(gain).unwrap_or(0).saturating_mul(1 << 12);
        let unit = scaled.checked_div(long).unwrap_or(0);
        self.sum = self.sum.saturating_add(unit);
        self.count = self.count.saturating_add(1);
    }
}

/// What a cycle without any gain is thought of: the more, the further its offset is from a whole number and the heavier its
/// row outside the forest.
fn first_score(weight: u64, fraction: i64) -> u128 {
    let near = natural(fraction.min(UNIT.saturating_sub(fraction)));
    let scaled = near.saturating_mul(u128::from(weight).saturating_add(1));
    let score = (scaled >> 16).saturating_mul(8);
    score.saturating_mul(score)
}

impl PseudoCosts {
    /// No gains for so many cycles.
    pub fn new(alloc: Global, cycles: usize) -> Result<PseudoCosts, AllocError> {
        Ok(PseudoCosts {
            records: vec![in alloc; NO_RECORD; cycles]?,
            by_weight: NO_GAINS,
        })
    }

    /// How well a cut is thought of, of a cycle of such a weight, whose offset is by a fraction, in 1/65536, above the lower
    /// part: the product of the gains to be expected.
    pub fn score(&self, cycle: u32, weight: u64, fraction: i64) -> u128 {
        let record = self.records.get(cycle as usize).copied();
        let Record { low, high } = record.unwrap_or(NO_RECORD);
        if low.count == 0 && high.count == 0 {
            return first_score(weight, fraction);
        }
        let below = low.expected(&high).saturating_mul(natural(fraction)) >> 16;
        let rest = UNIT.saturating_sub(fraction);
        let above = high.expected(&low).saturating_mul(natural(rest)) >> 16;
        below.max(1).saturating_mul(above.max(1))
    }

    /// Notes what a part of a cut gained, in 1/2^20, where the offset was by a fraction, in 1/65536, outside it.
    pub fn note(&mut self, cycle: u32, side: BoundSense, gain: i128, fraction: i64) {
        let Some(record) = self.records.get_mut(cycle as usize) else {
            return;
        };
        match side {
            BoundSense::AtMost => record.low.note(gain, fraction),
            BoundSense::AtLeast => record.high.note(gain, fraction),
        }
    }

    /// The gain over a fraction of 1 that is to be expected of a side of a cut of a cycle of such a weight: the mean of what there
    /// was, and else as much by weight as cuts of all cycles gained.
    fn expected(&self, gains: &Gains, weight: u64) -> u128 {
        let by_weight = self.by_weight.mean().unwrap_or(1 << 16);
        let heavy = u128::from(weight).saturating_add(1);
        gains.mean().unwrap_or(by_weight.saturating_mul(heavy))
    }

    /// How well a cut is thought of by what is expected of its sides.
    pub fn expected_score(&self, cycle: u32, weight: u64, fraction: i64) -> u128 {
        let record = self.records.get(cycle as usize).copied();
        let Record { low, high } = record.unwrap_or(NO_RECORD);
        let below = self
            .expected(&low, weight)
            .saturating_mul(natural(fraction))
            >> 16;
        let rest = UNIT.saturating_sub(fraction);
        let above = self.expected(&high, weight).saturating_mul(natural(rest)) >> 16;
        below
            .saturating_add(LEAST_GAIN)
            .saturating_mul(above.saturating_add(LEAST_GAIN))
    }

    /// How often both sides of a cycle's cuts were tried.
    pub fn times_tried(&self, cycle: u32) -> u64 {
        let record = self.records.get(cycle as usize).copied();
        let Record { low, high } = record.unwrap_or(NO_RECORD);
        low.count.min(high.count)
    }

    /// Notes also what was gained by the weight of the cycle.
    pub fn note_by_weight(&mut self, gain: i128, fraction: i64, weight: u64) {
        let heavy = i128::from(weight).saturating_add(1);
        self.by_weight.note(gain / heavy.max(1), fraction);
    }
}
