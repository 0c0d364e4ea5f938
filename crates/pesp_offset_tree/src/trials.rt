//! Trials of cuts: a few steps in both parts (strong branching: Applegate et al. 1995).

use crate::cuts::Candidate;
use crate::experience::PseudoCosts;
use pesp_dual::Save;
use pesp_sharp_nodes::{BoundSense, Limit, NO_MULTIPLIER, NodeProgram, OffsetCut, Setting, UNIT};
use std::alloc::{AllocError, Global};

/// How many steps a trial has in each part.
const STEPS: u32 = 30;

/// After how many cuts in a row that are no better the rest isn't tried.
const NO_BETTER: u32 = 2;

/// What is added to each gain before they are multiplied, in 1/2^20.
const LEAST_GAIN: i128 = 1 << 16;

/// What trials of a leaf share: the multipliers and the point to which its program is brought back, the value of these, in
/// 1/2^20, and the limit.
#[derive(Clone, Copy)]
struct LeafTrial<'a> {
    setting: &'a Setting,
    save: &'a Save,
    value: i128,
    limit: Limit,
}

impl LeafTrial<'_> {
    /// What a part gains in a few steps, in 1/2^20: by an estimate whose error is of second order, since the value itself
    /// grows too late.
    fn gain(
        &self,
        alloc: Global,
        relaxation: &mut NodeProgram,
        cut: OffsetCut,
        side: BoundSense,
    ) -> Result<i128, AllocError> {
        relaxation.add_offset(alloc, self.setting, cut.part(side), NO_MULTIPLIER)?;
        let value = relaxation.program.run(STEPS, self.limit.value);
        let estimate = value.max(relaxation.program.saddle());
        relaxation.pop();
        relaxation.program.restore(self.save);
        let reached = estimate.min(self.limit.value);
        Ok(reached.saturating_sub(self.value).max(0))
    }

    /// The product of what both parts gain; what each gains is noted.
    fn score(
        &self,
        alloc: Global,
        relaxation: &mut NodeProgram,
        experience: &mut PseudoCosts,
        candidate: Candidate,
    ) -> Result<i128, AllocError> {
        let Candidate { cut, fraction, .. } = candidate;
        let low = self.gain(alloc, relaxation, cut, BoundSense::AtMost)?;
        experience.note(cut.cycle, BoundSense::AtMost, low, fraction);
        let high = self.gain(alloc, relaxation, cut, BoundSense::AtLeast)?;
        let rest = UNIT.saturating_sub(fraction);
        experience.note(cut.cycle, BoundSense::AtLeast, high, rest);
        let below = low.saturating_add(LEAST_GAIN);
        Ok(below.saturating_mul(high.saturating_add(LEAST_GAIN)))
    }

    /// The best of some cuts; None where there are none.
    fn best(
        &self,
        alloc: Global,
        relaxation: &mut NodeProgram,
        experience: &mut PseudoCosts,
        list: &[Candidate],
    ) -> Result<Option<OffsetCut>, AllocError> {
        let mut best = None;
        let mut most = -1i128;
        let mut no_better = 0u32;
        for candidate in list {
            let score = self.score(alloc, relaxation, experience, *candidate)?;
            if score > most {
                most = score;
                best = Some(candidate.cut);
                no_better = 0;
            } else {
                no_better = no_better.saturating_add(1);
            }
            if no_better >= NO_BETTER {
                break;
            }
        }
        Ok(best)
    }
}

/// The best of some cuts of a leaf, by trials where there are several; None where there are none.
pub fn best_cut(
    alloc: Global,
    setting: &Setting,
    relaxation: &mut NodeProgram,
    experience: &mut PseudoCosts,
    list: &[Candidate],
    limit: Limit,
) -> Result<Option<OffsetCut>, AllocError> {
    if list.len() < 2 {
        return Ok(list.first().map(|candidate| candidate.cut));
    }
    let save = relaxation.program.save(alloc)?;
    let trial = LeafTrial {
        setting,
        save: &save,
        value: relaxation.program.best_value(),
        limit,
    };
    trial.best(alloc, relaxation, experience, list)
}
