//! The columns and the lines of a program.

use crate::fixed::{MOST, norm_of, parts, times, whole};
use pesp_dual::Term;
use pesp_network::NetRow;
use std::alloc::{AllocError, Global};

/// The coefficient of a slack in a line, named by its number.
#[derive(Clone, Copy)]
pub struct Coefficient {
    pub line: u32,
    pub coefficient: i32,
}

/// A slack: what a unit of it costs, how great it is at most, and its coefficients.
#[derive(Drop)]
pub struct Column {
    pub cost: i64,
    pub span: i64,
    pub entries: Vec<Coefficient>,
}

/// A line: its coefficients, what its sum is at least and at most, and one over the root of the squares of its coefficients.
#[derive(Drop)]
pub struct Constraint {
    pub terms: Vec<Term>,
    pub least: i64,
    pub most: i64,
    pub norm: i64,
}

impl Column {
    /// The column of a row's slack, whose weight is in units of which so many make up one.
    pub fn of(alloc: Global, row: &NetRow, unit: u32) -> Column {
        let weight = i64::try_from(row.weight).unwrap_or(0);
        Column {
            cost: parts(weight, i64::from(unit)),
            span: whole(i64::from(row.span)),
            entries: Vec::new(alloc),
        }
    }
}

/// What the slack at a place costs.
pub fn cost_at(columns: &[Column], place: usize) -> i64 {
    match columns.get(place) {
        Some(column) => column.cost,
        None => 0,
    }
}

/// How great the slack at a place is at most.
pub fn span_at(columns: &[Column], place: usize) -> i64 {
    match columns.get(place) {
        Some(column) => column.span,
        None => 0,
    }
}

/// How far the ends of a line are from each other; 0 where there is no such line.
pub fn range_at(lines: &[Constraint], number: u32) -> i64 {
    match lines.get(number as usize) {
        Some(line) => line.range(),
        None => 0,
    }
}

/// The columns have no coefficients.
fn clear_entries(columns: &mut [Column]) {
    for column in columns.iter_mut() {
        column.entries.clear();
    }
}

/// Puts the coefficients of a line in their columns.
pub fn enter(columns: &mut [Column], number: u32, terms: &[Term]) -> Result<(), AllocError> {
    for term in terms {
        if let Some(column) = columns.get_mut(term.row as usize) {
            column.entries.push(Coefficient {
                line: number,
                coefficient: term.coefficient,
            })?;
        }
    }
    Ok(())
}

/// Puts the coefficients of all lines in their columns, and no others.
pub fn enter_all(columns: &mut [Column], lines: &[Constraint]) -> Result<(), AllocError> {
    clear_entries(columns);
    let mut number = 0u32;
    for line in lines {
        enter(columns, number, &line.terms)?;
        number = number.wrapping_add(1);
    }
    Ok(())
}

/// The sum of squares of coefficients.
fn squares_of(terms: &[Term]) -> u64 {
    let mut sum = 0u64;
    for term in terms {
        let amount = u64::from(term.coefficient.unsigned_abs());
        sum = sum.saturating_add(amount.saturating_mul(amount));
    }
    sum
}

impl Constraint {
    /// The line of these coefficients, with a sum in this range.
    pub fn of(
        alloc: Global,
        terms: &[Term],
        least: i64,
        most: i64,
    ) -> Result<Constraint, AllocError> {
        Ok(Constraint {
            terms: Vec::from_slice(alloc, terms)?,
            least,
            most,
            norm: norm_of(squares_of(terms)),
        })
    }

    /// How far its ends are from each other; at least `MOST` where it has one.
    pub fn range(&self) -> i64 {
        self.most.saturating_sub(self.least)
    }

    /// What a multiplier of it shows; 0 where that has the wrong sign.
    pub fn worth(&self, multiplier: i64) -> i64 {
        if multiplier > 0 {
            times(multiplier, self.least)
        } else if multiplier < 0 && self.has_most() {
            times(multiplier, self.most)
        } else {
            0
        }
    }

    /// Whether its sum has a greatest value.
    pub fn has_most(&self) -> bool {
        self.most < MOST
    }
}
