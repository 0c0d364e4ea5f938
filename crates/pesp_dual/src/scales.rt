//! Scales of the two sides, by the coefficients (Pock and Chambolle 2011).

use crate::inequality::Term;
use crate::moved::Moved;
use crate::program::Program;
use crate::rows::ProgramRow;

/// The most that the square of a distance counts.
const MOST_NORM: u64 = 1 << 62;

/// The greatest amount of a coefficient, at least 1.
pub(crate) fn greatest(terms: &[Term]) -> u32 {
    let mut greatest = 1;
    for term in terms {
        greatest = greatest.max(term.coefficient.unsigned_abs());
    }
    greatest
}

/// The sum of the amounts of coefficients times the roots of spans, in 1/16.
fn extent(terms: &[Term], rows: &[ProgramRow]) -> u64 {
    let mut sum = 0u64;
    for term in terms {
        let amount = u64::from(term.coefficient.unsigned_abs());
        let root = rows.get(term.row as usize).map_or(4, |row| row.root);
        sum = sum.wrapping_add(amount.wrapping_mul(root));
    }
    sum
}

/// Adds a factor times the amounts of coefficients to sums.
fn gather(terms: &[Term], sums: &mut [i64], factor: u32) {
    for term in terms {
        if let Some(sum) = sums.get_mut(term.row as usize) {
            let amount = i64::from(term.coefficient.unsigned_abs());
            *sum = sum.wrapping_add(amount.wrapping_mul(i64::from(factor)));
        }
    }
}

/// What the square of a multiplier's distance counts.
fn norm_of(extent: u64, factor: u32) -> u64 {
    let scaled = u128::from(extent) << 32;
    let norm = scaled / u128::from(factor.max(1));
    u64::try_from(norm).unwrap_or(MOST_NORM).min(MOST_NORM)
}

/// Sets what squares of slacks' distances count, by the sums of scaled coefficients.
fn set_norms(points: &mut [Moved], rows: &[ProgramRow], sums: &[i64]) {
    for ((moved, row), sum) in points.iter_mut().zip(rows.iter()).zip(sums.iter()) {
        moved.norm = (sum.unsigned_abs() << 14) / row.root.max(1);
    }
}

impl Program {
    /// Scales the two sides by the coefficients.
    pub(crate) fn set_norms_of_all(&mut self) {
        self.weights.fill(0);
        for (inequality, moved) in self.inequalities.iter().zip(self.multipliers.iter_mut()) {
            let terms = inequality.terms(&self.terms);
            let factor = (1u32 << 20) / greatest(terms).max(1);
            moved.norm = norm_of(extent(terms, &self.rows), factor);
            gather(terms, &mut self.weights, factor);
        }
        set_norms(&mut self.points, &self.rows, &self.weights);
    }
}
