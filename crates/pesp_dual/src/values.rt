//! What multipliers and slacks are worth.

use crate::inequality::{InequalityTerms, Term};
use crate::moved::Moved;
use crate::passes::sum_of;
use crate::program::Program;
use crate::rows::ProgramRow;

/// Whose value is asked for: the multipliers of the last step proper, the best ones, or these in units of
/// a scale, rounded.
#[derive(Clone, Copy)]
enum MultiplierChoice {
    Next,
    Best,
    Rounded(u32),
}

impl MultiplierChoice {
    /// How many units of the multipliers make up one.
    fn unit(self) -> i128 {
        match self {
            MultiplierChoice::Rounded(scale) => i128::from(scale),
            _ => 1 << 20,
        }
    }

    /// An inequality's multiplier.
    fn multiplier(self, inequality: &InequalityTerms, moved: &Moved) -> i64 {
        match self {
            MultiplierChoice::Next => moved.next,
            MultiplierChoice::Best => inequality.best,
            MultiplierChoice::Rounded(scale) => inequality.rounded(scale),
        }
    }
}

/// The weights of rows in a unit.
fn weigh(rows: &[ProgramRow], weights: &mut [i128], unit: i128) {
    for (weight, row) in weights.iter_mut().zip(rows.iter()) {
        *weight = i128::from(row.weight).wrapping_mul(unit);
    }
}

/// Takes coefficients times a multiplier away from weights.
fn take(terms: &[Term], weights: &mut [i128], multiplier: i64) {
    for term in terms {
        if let Some(weight) = weights.get_mut(term.row as usize) {
            let part = i128::from(term.coefficient).wrapping_mul(i128::from(multiplier));
            *weight = weight.wrapping_sub(part);
        }
    }
}

/// What reduced weights below 0 take from the value: their rows' slacks may be as great as their spans.
fn loss(rows: &[ProgramRow], weights: &[i128]) -> i128 {
    let mut sum = 0i128;
    for (weight, row) in weights.iter().zip(rows.iter()) {
        if *weight < 0 {
            sum = sum.wrapping_add(weight.wrapping_mul(i128::from(row.span)));
        }
    }
    sum
}

impl Program {
    /// The value of multipliers.
    fn value(&mut self, asked: MultiplierChoice) -> i128 {
        weigh(&self.rows, &mut self.exact, asked.unit());
        let mut value = 0i128;
        for (inequality, moved) in self.inequalities.iter().zip(self.multipliers.iter()) {
            let multiplier = asked.multiplier(inequality, moved);
            if multiplier != 0 {
                take(inequality.terms(&self.terms), &mut self.exact, multiplier);
                let part = i128::from(inequality.least).wrapping_mul(i128::from(multiplier));
                value = value.wrapping_add(part);
            }
        }
        value.wrapping_add(loss(&self.rows, &self.exact))
    }

    /// The value of the best multipliers, in 1/2^20: no slacks that satisfy the inequalities cost less.
    pub fn best_value(&mut self) -> i128 {
        self.value(MultiplierChoice::Best)
    }

    /// The value of the best multipliers as they are told, in units of the scale.
    pub fn rounded_value(&mut self) -> i128 {
        self.value(MultiplierChoice::Rounded(self.scale))
    }

    /// An inequality's multiplier among the best ones as it is told: in units of the scale, rounded.
    pub fn rounded(&self, place: usize) -> i64 {
        match self.inequalities.get(place) {
            Some(inequality) => inequality.rounded(self.scale),
            None => 0,
        }
    }

    /// Keeps the multipliers of the last step proper where they are the best so far.
    pub(crate) fn look(&mut self) {
        let value = self.value(MultiplierChoice::Next);
        if value > self.best {
            self.best = value;
            for (inequality, moved) in self.inequalities.iter_mut().zip(self.multipliers.iter()) {
                inequality.best = moved.next;
            }
        }
    }

    /// What the slacks cost, in 1/65536.
    pub fn cost(&self) -> i128 {
        let mut cost = 0i128;
        for (slack, row) in self.slacks().iter().zip(self.rows.iter()) {
            let part = i128::from(*slack).wrapping_mul(i128::from(row.weight));
            cost = cost.wrapping_add(part);
        }
        cost
    }

    /// What the slacks cost, and multipliers times what the slacks miss, in 1/2^20: near the least cost where both are near
    /// the best ones, since its error is of second order. It bounds nothing.
    pub fn saddle(&self) -> i128 {
        let mut missing = 0i128;
        for (inequality, moved) in self.inequalities.iter().zip(self.multipliers.iter()) {
            let sum = sum_of(inequality.terms(&self.terms), self.slacks());
            let missed = (inequality.least << 16).wrapping_sub(sum);
            let part = i128::from(missed).wrapping_mul(i128::from(moved.at)) >> 16;
            missing = missing.wrapping_add(part);
        }
        self.cost().wrapping_shl(4).wrapping_add(missing)
    }
}
