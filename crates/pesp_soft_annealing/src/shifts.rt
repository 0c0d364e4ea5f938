//! All shifts of a component, one of which is drawn.

use crate::charts::Charts;
use crate::scale::{MOST, Scale};
use pesp_annealing::Heat;
use pesp_clusters::{SlackCrossing, sum_within};
use pesp_forest::Random;
use pesp_forest::guarded::number;
use std::simd::prelude::*;

/// From how many units on a cost has no weight.
const REACH: u16 = 384;

/// The same, as a count of weights.
const WEIGHTS: usize = 384;

/// Which shifts of a period cost anything: 0 for each, and the most beyond them; by how much a slack is further on whose costs,
/// read backwards, are those of a row that falls; and the weights by sixteenths of an octave.
#[derive(Drop)]
pub(crate) struct CostlyShifts {
    period: u32,
    back: u32,
    beyond: [u16; 64],
    weights: [u32; WEIGHTS],
}

/// The least of some costs.
fn least_of(costs: &[u16]) -> u16 {
    let mut least = u16::MAX;
    for cost in costs {
        least = least.min(*cost);
    }
    least
}

/// The least of some costs.
fn least_cost(costs: &[i64]) -> i64 {
    let mut least = i64::MAX;
    for cost in costs {
        least = least.min(*cost);
    }
    least
}

/// Writes the most behind so many places.
fn close_behind(beyond: &mut [u16], count: u32) {
    for slot in beyond.iter_mut().skip(count as usize) {
        *slot = u16::MAX;
    }
}

/// By how much further the slack is from which 64 shifts end at a slack: 63 less, within the period.
fn back_of(period: u32) -> u32 {
    let over = 63u32.checked_rem(period).unwrap_or(0);
    if over == 0 {
        0
    } else {
        period.wrapping_sub(over)
    }
}

/// Writes the weight of each sixteenth of an octave: from 2^24.
fn write_weights(weights: &mut [u32]) {
    let heat = Heat::of(16);
    let mut dearer = 0u64;
    for weight in weights.iter_mut() {
        *weight = u32::try_from(heat.weight(dearer) >> 4).unwrap_or(0);
        dearer = dearer.wrapping_add(1);
    }
}

impl CostlyShifts {
    /// The shifts of a period.
    pub(crate) fn new(period: u32) -> CostlyShifts {
        let mut weights = [0; WEIGHTS];
        write_weights(&mut weights);
        let mut beyond = [0; 64];
        close_behind(&mut beyond, period);
        CostlyShifts {
            period,
            back: back_of(period),
            beyond,
            weights,
        }
    }

    /// Adds to sums what rows cost at 64 slacks, from so far beyond their own on.
    fn add(
        &self,
        charts: &Charts,
        slacks: &[u32],
        crossings: &[SlackCrossing],
        further: u32,
        sums: u16x64,
    ) -> u16x64 {
        let mut sums = sums;
        for crossing in crossings {
            let slack = number(slacks, crossing.row).unwrap_or(0);
            let slack = sum_within(self.period, slack, further);
            if let Some(costs) = charts.from(crossing.row, slack) {
                sums = sums.saturating_add(u16x64::from_array(*costs));
            }
        }
        sums
    }

    /// What all shifts cost by the charts of the rows that cross, of which those between two places fall, and the others grow.
    pub(crate) fn find(
        &self,
        charts: &Charts,
        slacks: &[u32],
        crossings: &[SlackCrossing],
        falling: (u32, u32),
    ) -> u16x64 {
        let (from, to) = (falling.0 as usize, falling.1 as usize);
        let falls = crossings.get(from..to).unwrap_or(&[]);
        let narrow = crossings.get(..from).unwrap_or(&[]);
        let wide = crossings.get(to..).unwrap_or(&[]);
        let none = u16x64::splat(0);
        let falls = self.add(charts, slacks, falls, self.back, none);
        let grows = self.add(charts, slacks, narrow, 0, none);
        let grows = self.add(charts, slacks, wide, 0, grows);
        grows.saturating_add(falls.reverse()) | u16x64::from_array(self.beyond)
    }

    /// The sum of the weights of a set of places, by how much each is dearer than the least.
    fn sum_up(&self, set: u64, dearer: &[u16; 64]) -> u32 {
        let mut left = set;
        let mut sum = 0u32;
        for _ in 0..64 {
            if left == 0 {
                break;
            }
            sum = sum.wrapping_add(self.weight_at(left.trailing_zeros(), dearer));
            left &= left.wrapping_sub(1);
        }
        sum
    }

    /// The weight of a place.
    fn weight_at(&self, place: u32, dearer: &[u16; 64]) -> u32 {
        let units = dearer.get(place as usize).copied().unwrap_or(REACH);
        self.weights.get(units as usize).copied().unwrap_or(0)
    }

    /// The first place of a set up to which the weights come to more than a number.
    fn place_of(&self, set: u64, dearer: &[u16; 64], drawn: u64) -> Option<u32> {
        let mut left = set;
        let mut rest = u32::try_from(drawn).ok()?;
        for _ in 0..64 {
            if left == 0 {
                break;
            }
            let place = left.trailing_zeros();
            let weight = self.weight_at(place, dearer);
            if rest < weight {
                return Some(place);
            }
            rest = rest.wrapping_sub(weight);
            left &= left.wrapping_sub(1);
        }
        None
    }

    /// The place of one of the shifts with these costs, drawn by weight; None where all cost more than can be told.
    pub(crate) fn draw(&self, costs: u16x64, random: &mut Random) -> Option<u32> {
        let least = least_of(&costs.to_array());
        if least >= MOST {
            return None;
        }
        let more = costs.simd_min(u16x64::splat(MOST)) - u16x64::splat(least);
        let set = more.simd_lt(u16x64::splat(REACH)).to_bitmask();
        let dearer = more.to_array();
        let sum = self.sum_up(set, &dearer);
        self.place_of(set, &dearer, random.below(u64::from(sum)))
    }
}

/// Costs in units, beyond the least of them.
pub(crate) fn in_units(costs: &[i64; 64], scale: &Scale) -> u16x64 {
    let least = least_cost(costs);
    let mut units = [0u16; 64];
    for (slot, cost) in units.iter_mut().zip(costs.iter()) {
        *slot = scale.units(cost.abs_diff(least));
    }
    u16x64::from_array(units)
}
