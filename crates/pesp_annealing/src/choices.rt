//! The shifts that some rows allow, and by how much each is dearer.

use crate::heat::Heat;
use crate::places::{Places, below};
use crate::steps::{CostStep, Steps};
use pesp_clusters::{Activity, SlackCrossing};
use pesp_forest::Random;

/// Which shifts of a set of events are allowed, and by how much each of these is dearer than to leave it.
#[derive(Drop)]
pub struct Choices {
    pub(crate) allowed: u64,
    costs: [i64; 64],
    leaps: [i64; 64],
}

/// Adds to an amount.
fn add(amounts: &mut [i64; 64], place: u32, more: i64) {
    if let Some(amount) = amounts.get_mut(place as usize) {
        *amount = amount.wrapping_add(more);
    }
}

impl CostStep {
    /// What the shift at a place costs more.
    fn at(&self, place: u32) -> i64 {
        let even = self
            .first
            .wrapping_add(self.rise.wrapping_mul(i64::from(place)));
        if place >= self.turn {
            even.wrapping_add(self.leap)
        } else {
            even
        }
    }
}

impl Choices {
    /// No choice.
    pub fn none() -> Choices {
        Choices {
            allowed: 0,
            costs: [0; 64],
            leaps: [0; 64],
        }
    }

    /// Which shifts all these rows allow; it ends where only the one by nothing is left, or none.
    fn allow(
        &mut self,
        steps: &Steps,
        rows: &[Activity],
        crossings: &[SlackCrossing],
    ) -> Option<()> {
        let still = steps.still();
        let mut allowed = below(steps.count());
        for crossing in crossings {
            let row = rows.get(crossing.row as usize)?;
            allowed &= steps.allowed(row, crossing.grows);
            if allowed & !still == 0 {
                break;
            }
        }
        self.allowed = allowed;
        Some(())
    }

    /// All allowed shifts cost nothing yet.
    fn cost_nothing(&mut self) -> Option<()> {
        for place in Places(self.allowed) {
            *self.costs.get_mut(place as usize)? = 0;
        }
        Some(())
    }

    /// The costs of few allowed shifts.
    fn cost_few(
        &mut self,
        steps: &Steps,
        rows: &[Activity],
        crossings: &[SlackCrossing],
    ) -> Option<()> {
        self.cost_nothing()?;
        for crossing in crossings {
            let row = rows.get(crossing.row as usize)?;
            if row.weight != 0 {
                let line = steps.line(row, crossing.grows);
                for place in Places(self.allowed) {
                    add(&mut self.costs, place, line.at(place));
                }
            }
        }
        Some(())
    }

    /// Sums up rises and leaps in order.
    fn sum_up(&mut self, first: i64, rise: i64) {
        let mut cost = first;
        for (sum, leap) in self.costs.iter_mut().zip(self.leaps.iter()) {
            cost = cost.wrapping_add(*leap);
            *sum = cost;
            cost = cost.wrapping_add(rise);
        }
    }

    /// The costs of all shifts.
    fn cost_all(
        &mut self,
        steps: &Steps,
        rows: &[Activity],
        crossings: &[SlackCrossing],
    ) -> Option<()> {
        self.leaps = [0; 64];
        let mut first = 0i64;
        let mut rise = 0i64;
        for crossing in crossings {
            let row = rows.get(crossing.row as usize)?;
            if row.weight != 0 {
                let line = steps.line(row, crossing.grows);
                first = first.wrapping_add(line.first);
                rise = rise.wrapping_add(line.rise);
                add(&mut self.leaps, line.turn, line.leap);
            }
        }
        self.sum_up(first, rise);
        Some(())
    }

    /// Finds out which shifts these rows allow, and what they cost.
    pub fn find(
        &mut self,
        steps: &Steps,
        rows: &[Activity],
        crossings: &[SlackCrossing],
    ) -> Option<()> {
        self.allow(steps, rows, crossings)?;
        if self.allowed & !steps.still() == 0 {
            return self.cost_nothing();
        }
        let count = self.allowed.count_ones() as usize;
        if count <= 4 || (count - 4).saturating_mul(crossings.len()) <= 64 {
            self.cost_few(steps, rows, crossings)
        } else {
            self.cost_all(steps, rows, crossings)
        }
    }

    /// Whether another shift than the one by nothing is allowed.
    pub fn are_several(&self, steps: &Steps) -> bool {
        self.allowed & !steps.still() != 0
    }

    /// What an allowed shift costs more.
    pub fn cost(&self, place: u32) -> i64 {
        self.costs.get(place as usize).copied().unwrap_or(0)
    }

    /// The least that an allowed shift costs more.
    pub(crate) fn least(&self) -> i64 {
        let mut least = i64::MAX;
        for place in Places(self.allowed) {
            least = least.min(self.cost(place));
        }
        least
    }

    /// Writes the costs of the allowed shifts beyond the least one.
    pub(crate) fn write_costs(&self, least: i64, table: &mut [u64]) -> u64 {
        for place in Places(self.allowed) {
            if let Some(entry) = table.get_mut(place as usize) {
                *entry = self.cost(place).abs_diff(least);
            }
        }
        self.allowed
    }

    /// Writes the weights of the allowed shifts, halved so many times; which of them aren't 0.
    pub(crate) fn write_weights(
        &self,
        least: i64,
        heat: &Heat,
        halvings: u32,
        table: &mut [u64],
    ) -> u64 {
        let mut set = 0u64;
        for place in Places(self.allowed) {
            let dearer = self.cost(place).abs_diff(least);
            let weight = heat.weight(dearer).wrapping_shr(halvings);
            if let Some(entry) = table.get_mut(place as usize)
                && weight != 0
            {
                *entry = weight;
                set |= 1u64.wrapping_shl(place);
            }
        }
        set
    }

    /// The cheapest allowed shift, where it is cheaper than none.
    pub fn cheapest(&self, steps: &Steps) -> u32 {
        let mut best = steps.idle();
        let mut least = 0;
        for place in Places(self.allowed) {
            let cost = self.cost(place);
            if cost < least {
                best = place;
                least = cost;
            }
        }
        best
    }

    /// An allowed shift, drawn by weight.
    pub fn drawn(&self, steps: &Steps, heat: &Heat, random: &mut Random) -> u32 {
        let mut weights = [0u64; 64];
        let set = self.write_weights(self.least(), heat, 0, &mut weights);
        draw(&weights, set, random).unwrap_or(steps.idle())
    }
}

/// A place of a set, drawn by its weight.
pub(crate) fn draw(weights: &[u64; 64], set: u64, random: &mut Random) -> Option<u32> {
    let mut sum = 0u64;
    for place in Places(set) {
        sum = sum.wrapping_add(*weights.get(place as usize)?);
    }
    let mut left = random.below(sum);
    for place in Places(set) {
        let weight = *weights.get(place as usize)?;
        if left < weight {
            return Some(place);
        }
        left = left.wrapping_sub(weight);
    }
    None
}
