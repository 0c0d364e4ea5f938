//! Which cut a node is split by: trials of a few exchanges in both parts (Applegate et al. 1995), and what cuts gained so far
//! (pseudo-costs: Bénichou et al. 1971).

use crate::shared::Shared;
use pesp_offset_tree::{Candidate, PseudoCosts, worth_trying};
use pesp_sharp_nodes::{BoundSense, Limit, Setting, UNIT};
use std::alloc::AllocError;

/// How many exchanges a trial has in each part.
const EXCHANGES: u32 = 30;

/// From which depth on fewer cuts are looked at.
const DEEP: u32 = 8;

/// How many cuts are looked at above that depth, and below it.
const MANY: usize = 8;

const FEW: usize = 4;

/// How often a cycle's cuts are tried before what they gained is trusted.
const TRUSTED: u64 = 2;

/// After how many cuts in a row that are no better the rest isn't tried.
const NO_BETTER: u32 = 4;

/// What is added to each gain before they are multiplied, in 1/2^20.
const LEAST_GAIN: i128 = 1 << 10;

impl Shared {
    /// What a part gains in a few exchanges, in 1/2^20, which is noted.
    fn gain(
        &mut self,
        setting: &Setting,
        experience: &mut PseudoCosts,
        candidate: Candidate,
        side: BoundSense,
        limit: Limit,
    ) -> Result<i128, AllocError> {
        let before = self.value();
        let Candidate { cut, .. } = candidate;
        let Some(old) = self.enter_part(setting, cut, side)? else {
            return Ok(0);
        };
        let end = self.solve(limit, EXCHANGES)?;
        let gain = self.gain_since(before, end, limit);
        note(setting, experience, candidate, side, gain);
        self.leave_part(setting, cut, old)?;
        Ok(gain)
    }

    /// How good a cut is: the product of what both parts gain, or are expected to gain.
    fn score(
        &mut self,
        setting: &Setting,
        experience: &mut PseudoCosts,
        candidate: Candidate,
        limit: Limit,
    ) -> Result<u128, AllocError> {
        if experience.times_tried(candidate.cut.cycle) >= TRUSTED {
            return Ok(candidate.score.saturating_mul(1 << 8));
        }
        let low = self.gain(setting, experience, candidate, BoundSense::AtMost, limit)?;
        let high = self.gain(setting, experience, candidate, BoundSense::AtLeast, limit)?;
        let below = low.saturating_add(LEAST_GAIN);
        let product = below.saturating_mul(high.saturating_add(LEAST_GAIN));
        Ok(u128::try_from(product).unwrap_or(0))
    }

    /// The best of some cuts.
    fn best_of(
        &mut self,
        setting: &Setting,
        experience: &mut PseudoCosts,
        list: &[Candidate],
        limit: Limit,
    ) -> Result<Option<Candidate>, AllocError> {
        let mut best = None;
        let mut most = 0u128;
        let mut no_better = 0u32;
        for candidate in list {
            let score = self.score(setting, experience, *candidate, limit)?;
            if best.is_none() || score > most {
                best = Some(*candidate);
                most = score;
                no_better = 0;
            } else {
                no_better = no_better.saturating_add(1);
            }
            if no_better >= NO_BETTER {
                break;
            }
        }
        Ok(best)
    }

    /// Keeps the node, with lines for the cycles of some cuts.
    fn keep_for(&mut self, setting: &Setting, list: &[Candidate]) -> Result<(), AllocError> {
        for candidate in list {
            self.keep_line(setting, candidate.cut.cycle)?;
        }
        self.keep_here()
    }

    /// The cut by which the node is split; None where all offsets look whole.
    pub fn choose(
        &mut self,
        setting: &Setting,
        experience: &mut PseudoCosts,
        depth: u32,
        limit: Limit,
    ) -> Result<Option<Candidate>, AllocError> {
        self.read_slacks(setting)?;
        let most = if depth < DEEP { MANY } else { FEW };
        let ranges = &self.ranges;
        let list = worth_trying(self.alloc, setting, experience, ranges, &self.slacks, most)?;
        self.keep_for(setting, &list)?;
        if list.len() < 2 {
            return Ok(list.first().copied());
        }
        self.best_of(setting, experience, &list, limit)
    }
}

/// Notes what a part of a cut gained.
pub fn note(
    setting: &Setting,
    experience: &mut PseudoCosts,
    candidate: Candidate,
    side: BoundSense,
    gain: i128,
) {
    let Candidate { cut, fraction, .. } = candidate;
    let outside = match side {
        BoundSense::AtMost => fraction,
        BoundSense::AtLeast => UNIT.saturating_sub(fraction),
    };
    let weight = setting.cycle(cut.cycle).map_or(0, |it| it.weight);
    experience.note(cut.cycle, side, gain, outside);
    experience.note_by_weight(gain, outside, weight);
}
