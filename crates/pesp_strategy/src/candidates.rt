//! Which cuts are looked at.

use crate::experience::SideGains;
use pesp_forest::{Cycles, Frame};
use pesp_relaxation::Basis;
use std::alloc::{AllocError, Global};
use std::cmp::Ordering;

/// A cut of the offsets of a cycle, numbered from 1, into those up to `k` and those above; how far the prices are from either
/// side; and how well it is thought of.
#[derive(Clone, Copy)]
pub(crate) struct Candidate {
    pub(crate) cycle: u32,
    pub(crate) row: u32,
    pub(crate) k: i64,
    pub(crate) low: u64,
    pub(crate) high: u64,
    pub(crate) weight: u64,
    score: u128,
}

/// What cuts are judged by before they are looked at: what was gained on either side so far, and the cap beyond which a gain
/// doesn't count.
#[derive(Clone, Copy)]
pub(crate) struct Judges<'a> {
    pub(crate) low: &'a SideGains,
    pub(crate) high: &'a SideGains,
    pub(crate) cap: u64,
}

/// The best so many cuts of those that were taken in, beside a few more; no cut with a score up to the bar is one of them.
#[derive(Drop)]
struct Likeliest {
    found: Vec<Candidate>,
    most: usize,
    bar: u128,
}

impl Candidate {
    /// By falling score, then by rising cycle.
    fn order(&self, other: &Candidate) -> Ordering {
        other
            .score
            .cmp(&self.score)
            .then(self.cycle.cmp(&other.cycle))
    }

    /// How well a cut is thought of.
    fn rate(&mut self, judges: &Judges<'_>) {
        let low = judges.low.estimate(self.cycle, self.weight, self.low);
        let high = judges.high.estimate(self.cycle, self.weight, self.high);
        let below = u128::from(low.min(judges.cap)).saturating_add(1);
        let above = u128::from(high.min(judges.cap)).saturating_add(1);
        self.score = below.saturating_mul(above);
    }
}

impl Likeliest {
    /// Takes a cut in; those that are taken in later are of later cycles.
    fn take_in(&mut self, candidate: Candidate) -> Result<(), AllocError> {
        if candidate.score <= self.bar {
            return Ok(());
        }
        self.found.push(candidate)?;
        if self.found.len() > self.most.saturating_mul(2) {
            self.trim();
        }
        Ok(())
    }

    /// Keeps the best, the best first.
    fn trim(&mut self) {
        self.found.sort_unstable_by(|one, other| one.order(other));
        self.found.truncate(self.most);
        if self.found.len() >= self.most {
            let last = self.found.get(self.most.saturating_sub(1));
            self.bar = last.map_or(0, |last| last.score);
        }
    }
}

/// The cut between the offsets on either side of what the prices give a cycle; None where that is whole, or where not both
/// sides are left.
fn cut_at(
    frame: &Frame,
    basis: &Basis,
    cycle: u32,
    place: u32,
    slacks: &[(u32, u32)],
) -> Option<Candidate> {
    let slopes = basis.slopes(place)?;
    let rise = basis.rise(place)?;
    if rise <= slopes.below || rise >= slopes.between {
        return None;
    }
    let row = frame.row(place)?;
    let least = slacks.get(place as usize)?.0;
    let shifted = row.lower.checked_add(i64::from(least))?.checked_sub(rise)?;
    let period = i64::from(frame.period());
    let rest = shifted.checked_rem_euclid(period)?;
    if rest == 0 {
        return None;
    }
    Some(Candidate {
        cycle,
        row: place,
        k: shifted.checked_div_euclid(period)?,
        low: rest.unsigned_abs(),
        high: period.abs_diff(rest),
        weight: row.weight,
        score: 0,
    })
}

/// The best so many cuts where the prices give a cycle no whole offset, the best first.
pub(crate) fn candidates(
    alloc: Global,
    frame: &Frame,
    cycles: &Cycles,
    basis: &Basis,
    slacks: &[(u32, u32)],
    judges: &Judges<'_>,
    most: usize,
) -> Result<Vec<Candidate>, AllocError> {
    let mut likeliest = Likeliest {
        found: Vec::new(alloc),
        most,
        bar: 0,
    };
    for (number, row) in cycles.outside().iter().enumerate() {
        let cycle = u32::try_from(number).unwrap_or(0).saturating_add(1);
        if let Some(mut candidate) = cut_at(frame, basis, cycle, *row, slacks) {
            candidate.rate(judges);
            likeliest.take_in(candidate)?;
        }
    }
    likeliest.trim();
    let Likeliest { found, .. } = likeliest;
    Ok(found)
}
