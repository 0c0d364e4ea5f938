//! The fundamental cycles of one forest, whose offsets are branched on.

use crate::branch::{BoundSense, OffsetBound};
use crate::limit::UNIT;
use pesp_dual::Term;
use pesp_forest::Frame;
use pesp_inequalities::{Pass, walks_by};
use pesp_network::NetRow;
use std::alloc::{AllocError, Global};

/// The least and the greatest offset that are left to a cycle; none where the first is above the second.
#[derive(Clone, Copy)]
pub struct Range {
    pub least: i64,
    pub most: i64,
}

/// A cycle: the rows that it passes, the sum of their lower bounds along it, in the instance's unit of time, the offsets that
/// slacks leave it (Odijk 1996), and the whole weight of its row outside the forest.
#[derive(Drop)]
pub struct Cycle {
    pub passes: Vec<Pass>,
    pub range: Range,
    pub weight: u64,
    lower: i64,
}

/// The least and the greatest sum of durations along a cycle, and that of lower bounds, in the instance's unit of time.
#[derive(Clone, Copy)]
struct CycleSums {
    least: i64,
    greatest: i64,
    lower: i64,
}

/// The key by which a row is taken into the forest: the less, the smaller its span and the greater its weight, which is in
/// units of which so many make up one.
fn key_of(row: &NetRow, unit: u32) -> i64 {
    let span = (u128::from(row.span) << 20).saturating_mul(u128::from(unit));
    let weight = u128::from(row.weight).saturating_add(u128::from(unit));
    i64::try_from(span.checked_div(weight).unwrap_or(0)).unwrap_or(i64::MAX)
}

impl Range {
    /// The range that a bound on the offset leaves.
    pub fn narrowed(self, branch: OffsetBound) -> Range {
        let Range { least, most } = self;
        match branch.side {
            BoundSense::AtMost => Range {
                least,
                most: most.min(branch.offset),
            },
            BoundSense::AtLeast => Range {
                least: least.max(branch.offset),
                most,
            },
        }
    }

    /// How many offsets beyond the least one are left.
    pub fn width(self) -> i64 {
        self.most.saturating_sub(self.least)
    }
}

impl CycleSums {
    /// A pass of a row more.
    fn with(self, row: &NetRow, forwards: bool) -> CycleSums {
        let upper = row.lower.wrapping_add(i64::from(row.span));
        if forwards {
            CycleSums {
                least: self.least.wrapping_add(row.lower),
                greatest: self.greatest.wrapping_add(upper),
                lower: self.lower.wrapping_add(row.lower),
            }
        } else {
            CycleSums {
                least: self.least.wrapping_sub(upper),
                greatest: self.greatest.wrapping_sub(row.lower),
                lower: self.lower.wrapping_sub(row.lower),
            }
        }
    }

    /// The sums along a cycle; None where it passes a row that isn't there.
    fn along(frame: &Frame, passes: &[Pass]) -> Option<CycleSums> {
        let mut sums = CycleSums {
            least: 0,
            greatest: 0,
            lower: 0,
        };
        for pass in passes {
            sums = sums.with(frame.row(pass.row)?, pass.forwards);
        }
        Some(sums)
    }

    /// The offsets that they leave.
    fn range(self, period: i64) -> Option<Range> {
        let below = self.least.checked_neg()?.checked_div_euclid(period)?;
        Some(Range {
            least: below.checked_neg()?,
            most: self.greatest.checked_div_euclid(period)?,
        })
    }
}

impl Cycle {
    /// The cycle that passes these rows, the one outside the forest first; None where one isn't there.
    fn of(frame: &Frame, passes: Vec<Pass>, unit: u32) -> Option<Cycle> {
        let sums = CycleSums::along(frame, &passes)?;
        let range = sums.range(i64::from(frame.period()))?;
        let first = passes.first()?.row;
        let weight = frame.row(first)?.weight.checked_div(u64::from(unit))?;
        Some(Cycle {
            passes,
            range,
            weight,
            lower: sums.lower,
        })
    }

    /// A cycle that is given by the rows that it passes; one of one offset that passes none, where one isn't there.
    pub(crate) fn given(alloc: Global, frame: &Frame, passes: Vec<Pass>, unit: u32) -> Cycle {
        Cycle::of(frame, passes, unit).unwrap_or(Cycle {
            passes: Vec::new(alloc),
            range: Range { least: 0, most: 0 },
            weight: 0,
            lower: 0,
        })
    }

    /// The sum of durations along it at slacks in 1/65536, in the same unit.
    pub fn duration(&self, slacks: &[i64]) -> i64 {
        let mut sum = self.lower.wrapping_mul(UNIT);
        for pass in &self.passes {
            let slack = slacks.get(pass.row as usize).copied().unwrap_or(0);
            sum = if pass.forwards {
                sum.wrapping_add(slack)
            } else {
                sum.wrapping_sub(slack)
            };
        }
        sum
    }

    /// The coefficients of slacks in a bound on its offset.
    pub fn terms(&self, alloc: Global, side: BoundSense) -> Result<Vec<Term>, AllocError> {
        let mut terms = Vec::with_capacity(alloc, self.passes.len())?;
        for pass in &self.passes {
            let rises = pass.forwards == (side == BoundSense::AtLeast);
            terms.push(Term {
                row: pass.row,
                coefficient: if rises { 1 } else { -1 },
            })?;
        }
        Ok(terms)
    }

    /// What these terms are at least by a bound on its offset.
    pub fn least(&self, period: i64, branch: OffsetBound) -> i64 {
        let slack = period.wrapping_mul(branch.offset).wrapping_sub(self.lower);
        branch.side.signed(slack)
    }
}

/// The keys of all rows.
fn keys_of(alloc: Global, frame: &Frame, unit: u32) -> Result<Vec<i64>, AllocError> {
    let mut keys = Vec::with_capacity(alloc, frame.rows().len())?;
    for row in frame.rows() {
        keys.push(key_of(row, unit))?;
    }
    Ok(keys)
}

/// The cycles of the forest of rows of small span and great weight.
pub(crate) fn cycles_of(alloc: Global, frame: &Frame, unit: u32) -> Result<Vec<Cycle>, AllocError> {
    let keys = keys_of(alloc, frame, unit)?;
    let mut cycles = Vec::new(alloc);
    for passes in walks_by(alloc, frame, &keys)? {
        if let Some(cycle) = Cycle::of(frame, passes, unit) {
            cycles.push(cycle)?;
        }
    }
    Ok(cycles)
}
