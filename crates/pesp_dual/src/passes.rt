//! Passes over the terms of inequalities.

use crate::inequality::{InequalityTerms, Term};
use crate::moved::Moved;
use crate::rows::ProgramRow;

/// The sum of coefficients times values.
pub(crate) fn sum_of(terms: &[Term], values: &[i64]) -> i64 {
    let mut sum = 0i64;
    for term in terms {
        let Term { row, coefficient } = *term;
        if let Some(value) = values.get(row as usize) {
            sum = sum.wrapping_add(i64::from(coefficient).wrapping_mul(*value));
        }
    }
    sum
}

/// Takes coefficients times a multiplier away from values.
fn take(terms: &[Term], values: &mut [i64], multiplier: i64) {
    for term in terms {
        let Term { row, coefficient } = *term;
        if let Some(value) = values.get_mut(row as usize) {
            let part = i64::from(coefficient).wrapping_mul(multiplier);
            *value = value.wrapping_sub(part);
        }
    }
}

/// The weights of rows, in 1/2^20.
fn weigh(rows: &[ProgramRow], weights: &mut [i64]) {
    for (weight, row) in weights.iter_mut().zip(rows.iter()) {
        *weight = row.weight << 20;
    }
}

/// The weights of rows less multipliers times coefficients, in 1/2^20.
pub(crate) fn reduce(
    rows: &[ProgramRow],
    inequalities: &[InequalityTerms],
    terms: &[Term],
    multipliers: &[Moved],
    weights: &mut [i64],
) {
    weigh(rows, weights);
    for (inequality, moved) in inequalities.iter().zip(multipliers.iter()) {
        if moved.at != 0 {
            take(inequality.terms(terms), weights, moved.at);
        }
    }
}

/// A step proper of all slacks against the reduced weights, in whose place comes as far again as it leads.
pub(crate) fn move_slacks(slacks: &mut [Moved], weights: &mut [i64]) {
    for (moved, weight) in slacks.iter_mut().zip(weights.iter_mut()) {
        let rise = i128::from(*weight).wrapping_mul(i128::from(moved.step)) >> 44;
        moved.go(rise.wrapping_neg());
        *weight = moved.beyond();
    }
}

/// A step proper of all multipliers by what slacks miss.
pub(crate) fn move_multipliers(
    inequalities: &[InequalityTerms],
    terms: &[Term],
    multipliers: &mut [Moved],
    slacks: &[i64],
) {
    for (inequality, moved) in inequalities.iter().zip(multipliers.iter_mut()) {
        let sum = sum_of(inequality.terms(terms), slacks);
        let missing = (inequality.least << 16).wrapping_sub(sum);
        moved.go(i128::from(missing).wrapping_mul(i128::from(moved.step)) >> 42);
    }
}
