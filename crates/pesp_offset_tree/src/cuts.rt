//! Which cuts are tried.

use crate::experience::PseudoCosts;
use pesp_sharp_nodes::{Cycle, OffsetCut, Range, Setting, UNIT};
use std::alloc::{AllocError, Global};
use std::cmp::Reverse;

/// How far from whole numbers offsets are, in 1/65536, that are tried.
const FAR: i64 = UNIT / 50;

/// How far they are where none is as far as that.
const NEAR: i64 = UNIT / 1000;

/// How far they are at least where exchanges found the slacks.
const NEARLY_WHOLE: i64 = UNIT / 8192;

/// How many cuts are tried.
const MOST_TRIED: usize = 4;

/// A cut of the offsets that are left to a cycle: by what fraction, in 1/65536, the offset at the point is above the lower
/// part, how many offsets there are beyond the least one, and how well it is thought of.
#[derive(Clone, Copy)]
pub struct Candidate {
    pub cut: OffsetCut,
    pub fraction: i64,
    width: i64,
    pub score: u128,
}

impl Candidate {
    /// A cut at such a fraction, of which nothing else is known.
    pub fn of(cut: OffsetCut, fraction: i64) -> Candidate {
        Candidate {
            cut,
            fraction,
            width: 0,
            score: 0,
        }
    }

    /// How far the offset is from both parts, in 1/65536.
    fn distance(&self) -> i64 {
        self.fraction.min(UNIT.saturating_sub(self.fraction))
    }
}

/// The cut at a point of the offsets that are left to a cycle, which are two at least; None where it can't be said.
fn cut_at(
    period: i64,
    number: u32,
    cycle: &Cycle,
    range: Range,
    slacks: &[i64],
) -> Option<Candidate> {
    let duration = cycle.duration(slacks);
    let turn = period.checked_mul(UNIT)?;
    let below = range.most.checked_sub(1)?;
    let most = duration
        .checked_div_euclid(turn)?
        .max(range.least)
        .min(below);
    let above = duration.checked_sub(most.checked_mul(turn)?)?;
    let fraction = above.checked_div_euclid(period)?.max(0).min(UNIT);
    Some(Candidate {
        cut: OffsetCut {
            cycle: number,
            most,
        },
        fraction,
        width: range.width(),
        score: 0,
    })
}

/// For each cycle to which two offsets are left at least its cut at a point.
pub fn candidates(
    alloc: Global,
    setting: &Setting,
    experience: &PseudoCosts,
    ranges: &[Range],
    slacks: &[i64],
) -> Result<Vec<Candidate>, AllocError> {
    let period = setting.period();
    let mut list = Vec::new(alloc);
    for (place, (cycle, range)) in setting.cycles.iter().zip(ranges.iter()).enumerate() {
        let number = u32::try_from(place).unwrap_or(u32::MAX);
        if range.width() < 1 {
            continue;
        }
        if let Some(mut found) = cut_at(period, number, cycle, *range, slacks) {
            found.score = experience.score(number, cycle.weight, found.fraction);
            list.push(found)?;
        }
    }
    Ok(list)
}

/// Those whose offsets are further than this from both parts.
fn further(alloc: Global, list: &[Candidate], distance: i64) -> Result<Vec<Candidate>, AllocError> {
    let mut found = Vec::new(alloc);
    for candidate in list {
        if candidate.distance() > distance {
            found.push(*candidate)?;
        }
    }
    Ok(found)
}

/// The cuts that are tried, the best of them first; none where all offsets look whole.
pub fn tried(alloc: Global, list: &[Candidate]) -> Result<Vec<Candidate>, AllocError> {
    let mut found = further(alloc, list, FAR)?;
    if found.is_empty() {
        found = further(alloc, list, NEAR)?;
    }
    found.sort_unstable_by_key(|candidate| (Reverse(candidate.score), candidate.cut.cycle));
    found.truncate(MOST_TRIED);
    Ok(found)
}

/// The cut where the offset is furthest from whole, and of these the one of most offsets: what is cut where all look whole.
pub fn widest(list: &[Candidate]) -> Option<Candidate> {
    list.iter()
        .copied()
        .max_by_key(|candidate| (candidate.distance(), candidate.width))
}

/// The cuts whose offsets aren't whole at a point, the best of them first, by what cuts of their cycles gained; at most so many.
pub fn worth_trying(
    alloc: Global,
    setting: &Setting,
    experience: &PseudoCosts,
    ranges: &[Range],
    slacks: &[i64],
    most: usize,
) -> Result<Vec<Candidate>, AllocError> {
    let list = candidates(alloc, setting, experience, ranges, slacks)?;
    let mut found = further(alloc, &list, NEARLY_WHOLE)?;
    for candidate in found.iter_mut() {
        let weight = setting.cycle(candidate.cut.cycle).map_or(0, |it| it.weight);
        let OffsetCut { cycle, .. } = candidate.cut;
        candidate.score = experience.expected_score(cycle, weight, candidate.fraction);
    }
    found.sort_unstable_by_key(|candidate| (Reverse(candidate.score), candidate.cut.cycle));
    found.truncate(most);
    Ok(found)
}

/// A cut in the middle of the first range that leaves two offsets at least; None where no range does.
pub fn open_cut(ranges: &[Range]) -> Option<OffsetCut> {
    let place = ranges.iter().position(|range| range.width() > 0)?;
    let range = ranges.get(place).copied()?;
    Some(OffsetCut {
        cycle: u32::try_from(place).ok()?,
        most: range.least.saturating_add(range.width() / 2),
    })
}
