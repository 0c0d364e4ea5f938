//! The ratio test, in which slacks and lines may go to their other end.

use crate::simplex::Simplex;
use pesp_basis::{
    Column, Constraint, Entering, EnteringCandidate, First, Leaving, MOST, Member, State, amount,
    range_at, span_at, times,
};
use std::alloc::AllocError;

/// A coefficient below this doesn't count.
const LEAST_COEFFICIENT: i64 = 1 << 19;

/// What is left of a violation that counts as nothing.
const NOTHING_LEFT: i64 = 64;

/// A range that counts as without end.
const ENDLESS: i64 = MOST / 2;

/// What may enter: with its price, and how its coefficient counts towards what is missing.
fn candidate(member: Member, price: i64, rise: i64, is_up: bool) -> Option<EnteringCandidate> {
    let (size, price) = if is_up {
        (rise.wrapping_neg(), price.wrapping_neg())
    } else {
        (rise, price)
    };
    if size <= LEAST_COEFFICIENT {
        return None;
    }
    Some(EnteringCandidate {
        member,
        price: price.max(0),
        size,
    })
}

/// Puts the first of the candidates from a place on there.
fn put_first(candidates: &mut [EnteringCandidate], place: usize) -> Option<First> {
    let mut at = place;
    let mut first = candidates.get(place).copied()?.with_ratio();
    for (other, candidate) in candidates.iter().enumerate().skip(place) {
        if let Some(better) = first.before(candidate) {
            first = better;
            at = other;
        }
    }
    if place < candidates.len() && at < candidates.len() {
        candidates.swap(place, at);
    }
    Some(first)
}

/// A slack at an end as a candidate.
fn slack_candidate(
    state: &State,
    columns: &[Column],
    number: u32,
    rise: i64,
) -> Option<EnteringCandidate> {
    let slack = state.slacks.get(number as usize)?;
    if span_at(columns, number as usize) == 0 {
        return None;
    }
    candidate(Member::Slack(number), slack.price, rise, slack.is_up)
}

/// The tight line at a place as a candidate.
fn line_candidate(
    state: &State,
    lines: &[Constraint],
    place: u32,
    rise: i64,
) -> Option<EnteringCandidate> {
    let number = state.tight.get(place as usize).copied()?;
    let sum = state.sums.get(number as usize)?;
    if range_at(lines, number) <= 0 {
        return None;
    }
    candidate(Member::Line(number), sum.price, rise, sum.is_up)
}

impl Simplex {
    /// Lists the slacks that may enter.
    fn list_slacks(&mut self, leaving: Leaving) -> Result<(), AllocError> {
        self.candidates.clear();
        for number in self.alpha.places() {
            let rise = leaving.signed(self.alpha.get(*number));
            if let Some(found) = slack_candidate(&self.state, &self.columns, *number, rise) {
                self.candidates.push(found)?;
            }
        }
        Ok(())
    }

    /// Lists what may enter.
    pub(crate) fn list_candidates(&mut self, leaving: Leaving) -> Result<(), AllocError> {
        self.list_slacks(leaving)?;
        for (place, weight) in &self.listed {
            let rise = leaving.signed(*weight);
            if let Some(found) = line_candidate(&self.state, &self.lines, *place, rise) {
                self.candidates.push(found)?;
            }
        }
        Ok(())
    }

    /// How far the ends of a slack or of a line are from each other.
    pub(crate) fn range_of(&self, member: Member) -> i64 {
        match member {
            Member::Slack(number) => span_at(&self.columns, number as usize),
            Member::Line(number) => range_at(&self.lines, number),
        }
    }

    /// What enters: the candidates go to their other ends by rising ratio, as long as something of the violation is left. None
    /// where nothing enters.
    pub(crate) fn entering(&mut self, leaving: Leaving) -> Option<Entering> {
        let mut left = amount(leaving.missing);
        let mut gain = 0i64;
        let mut last = 0i64;
        for flips in 0..self.candidates.len() {
            let First { candidate, ratio } = put_first(&mut self.candidates, flips)?;
            let EnteringCandidate { member, size, .. } = candidate;
            gain = gain.wrapping_add(times(left, ratio.wrapping_sub(last)));
            last = ratio;
            let range = self.range_of(member);
            left = left.saturating_sub(times(size, range));
            if left <= NOTHING_LEFT || range >= ENDLESS {
                return Some(Entering {
                    member,
                    ratio,
                    flips,
                    gain,
                });
            }
        }
        None
    }
}
