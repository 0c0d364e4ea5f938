//! Cycle inequalities.

use crate::pass::Pass;
use pesp_dual::Term;
use pesp_forest::Frame;
use std::alloc::{AllocError, Global};

/// A cycle inequality (Nachtigall 1998; with flipped rows Lindner and others 2020): along a closed walk the sum of rate times
/// distance is at least `rest * (period - rest)`. The terms say the same of slacks, which are 0 to the span of each row: the
/// sum of coefficient times slack is at least `least`.
#[derive(Drop)]
pub struct Inequality {
    pub passes: Vec<Pass>,
    pub terms: Vec<Term>,
    pub least: i64,
}

/// The rates of distances: the period less the rest where the direction is plus, the rest where it is minus.
#[derive(Clone, Copy)]
struct DirectionRates {
    rising: i64,
    falling: i64,
}

/// What the durations along a walk lack at the ends from which slacks are measured, modulo the period; None where a row
/// isn't there.
fn rest_of(frame: &Frame, passes: &[Pass]) -> Option<i64> {
    let mut lack = 0i64;
    for pass in passes {
        let row = frame.row(pass.row)?;
        lack = lack.wrapping_sub(pass.base(row));
    }
    lack.checked_rem_euclid(i64::from(frame.period()))
}

impl DirectionRates {
    /// The rates of a walk with this rest.
    fn new(frame: &Frame, rest: i64) -> DirectionRates {
        DirectionRates {
            rising: i64::from(frame.period()).wrapping_sub(rest),
            falling: rest,
        }
    }

    /// The coefficient of the slack that a pass measures.
    fn coefficient(self, pass: Pass) -> i64 {
        let rate = if pass.rises() {
            self.rising
        } else {
            self.falling
        };
        if pass.flipped {
            rate.wrapping_neg()
        } else {
            rate
        }
    }

    /// The terms of a walk.
    fn terms(self, alloc: Global, passes: &[Pass]) -> Result<Vec<Term>, AllocError> {
        let mut terms = Vec::with_capacity(alloc, passes.len())?;
        for pass in passes {
            let coefficient = i32::try_from(self.coefficient(*pass)).unwrap_or(0);
            terms.push(Term {
                row: pass.row,
                coefficient,
            })?;
        }
        Ok(terms)
    }

    /// What the terms of a walk add up to at least: the product of the rates, less rate times span of each flipped row.
    fn least(self, frame: &Frame, passes: &[Pass]) -> i64 {
        let mut least = self.rising.wrapping_mul(self.falling);
        for pass in passes {
            if pass.flipped {
                let span = frame.row(pass.row).map_or(0, |row| row.span);
                let part = self.coefficient(*pass).wrapping_mul(i64::from(span));
                least = least.wrapping_add(part);
            }
        }
        least
    }
}

/// A number whose bits depend on all bits of another one (SplitMix: Steele and others 2014).
fn mixed(number: u64) -> u64 {
    let first = (number ^ (number >> 30)).wrapping_mul(0xbf58_476d_1ce4_e5b9);
    let second = (first ^ (first >> 27)).wrapping_mul(0x94d0_49bb_1331_11eb);
    second ^ (second >> 31)
}

/// A number without sign for each number.
fn unsigned(number: i64) -> u64 {
    if number < 0 {
        !number.unsigned_abs()
    } else {
        number.unsigned_abs()
    }
}

/// The part of a term in the key of an inequality.
fn key_of(term: &Term) -> u64 {
    let row = mixed(u64::from(term.row).wrapping_add(1));
    mixed(row.wrapping_add(unsigned(i64::from(term.coefficient))))
}

impl Inequality {
    /// The inequality of a closed walk; None where its rest is 0, since it says nothing then.
    pub fn of(
        alloc: Global,
        frame: &Frame,
        passes: Vec<Pass>,
    ) -> Result<Option<Inequality>, AllocError> {
        let rest = rest_of(frame, &passes).unwrap_or(0);
        if rest == 0 {
            return Ok(None);
        }
        let rates = DirectionRates::new(frame, rest);
        let terms = rates.terms(alloc, &passes)?;
        let least = rates.least(frame, &passes);
        Ok(Some(Inequality {
            passes,
            terms,
            least,
        }))
    }

    /// A number that is the same for the same terms in any order and the same `least`, and hardly ever for others.
    pub fn key(&self) -> u64 {
        let mut key = mixed(unsigned(self.least));
        for term in &self.terms {
            key = key.wrapping_add(key_of(term));
        }
        key
    }
}
