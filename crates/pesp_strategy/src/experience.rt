//! What cuts have gained so far.

use std::alloc::{AllocError, Global};

/// How many units make up one in sums of gains.
const SCALE: u64 = 4096;

/// Gains for each unit of distance, in parts of one, summed up, and their mean.
#[derive(Clone, Copy)]
struct Gains {
    sum: u128,
    count: u64,
    mean: u64,
}

const NO_GAINS: Gains = Gains {
    sum: 0,
    count: 0,
    mean: 0,
};

/// The gains of one side of all cuts, for each cycle, and for all, there divided by the weight and 1.
#[derive(Drop)]
pub(crate) struct SideGains {
    by_cycle: Vec<Gains>,
    all: Gains,
}

/// A number as far as 64 bits go.
fn short(number: u128) -> u64 {
    u64::try_from(number).unwrap_or(u64::MAX)
}

impl Gains {
    /// One gain more.
    fn add(&mut self, gain: u128) {
        self.sum = self.sum.saturating_add(gain);
        self.count = self.count.saturating_add(1);
        let mean = self.sum.checked_div(u128::from(self.count));
        self.mean = short(mean.unwrap_or(0));
    }
}

impl SideGains {
    /// No gains for so many cycles.
    pub(crate) fn new(alloc: Global, cycles: usize) -> Result<SideGains, AllocError> {
        Ok(SideGains {
            by_cycle: vec![in alloc; NO_GAINS; cycles]?,
            all: NO_GAINS,
        })
    }

    /// How many gains there were.
    pub(crate) fn count(&self) -> u64 {
        self.all.count
    }

    /// The gain for each unit that is to be expected at a cycle, numbered from 1, whose row has this weight.
    fn unit(&self, cycle: u32, weight: u64) -> u64 {
        let place = (cycle as usize).wrapping_sub(1);
        if let Some(own) = self.by_cycle.get(place) {
            if own.count > 0 {
                return own.mean;
            }
        }
        let heavy = weight.saturating_add(1);
        if self.all.count > 0 {
            return self.all.mean.saturating_mul(heavy) / SCALE;
        }
        heavy.saturating_mul(SCALE)
    }

    /// The gain that is to be expected over a distance.
    pub(crate) fn estimate(&self, cycle: u32, weight: u64, distance: u64) -> u64 {
        self.unit(cycle, weight).saturating_mul(distance) / SCALE
    }

    /// Notes what a cut over a distance gained.
    pub(crate) fn note(&mut self, cycle: u32, weight: u64, distance: u64, gain: u128) {
        let place = (cycle as usize).wrapping_sub(1);
        let heavy = u128::from(weight).saturating_add(1);
        let long = u128::from(distance).max(1);
        let scaled = gain.saturating_mul(u128::from(SCALE));
        if let Some(gains) = self.by_cycle.get_mut(place) {
            gains.add(scaled.checked_div(long).unwrap_or(0));
        }
        let product = long.saturating_mul(heavy);
        let share = scaled
            .saturating_mul(u128::from(SCALE))
            .checked_div(product);
        self.all.add(share.unwrap_or(0));
    }
}
