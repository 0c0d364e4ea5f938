//! A walk whose passes are flipped one by one, with what its inequality is judged by.

use crate::efficacy::{EfficacyMeasure, NO_SUMS, Sums, WHOLE};
use crate::pass::Pass;
use pesp_forest::Frame;
use pesp_network::NetRow;
use std::alloc::{AllocError, Global};

/// What a pass adds to a walk's sums: whether its direction is plus, how far its slack is from the end from which it is measured
/// and from the other one, in 1/65536, and what flipping it adds to the rest.
#[derive(Clone, Copy)]
struct PassTerms {
    rises: bool,
    distance: i64,
    opposite: i64,
    turn: i64,
}

/// Which ends slacks are measured from: the nearer ones, or such that all directions are plus, or minus (Odijk 1996).
#[derive(Clone, Copy)]
pub(crate) enum DistanceOrigin {
    Nearer,
    Rising,
    Falling,
}

/// A walk with what its passes add, and the sums.
#[derive(Drop)]
pub(crate) struct Marking {
    passes: Vec<Pass>,
    steps: Vec<PassTerms>,
    sums: Sums,
}

/// A rest that is off by less than a period.
fn within(rest: i64, period: i64) -> i64 {
    if rest < 0 {
        rest.wrapping_add(period)
    } else if rest >= period {
        rest.wrapping_sub(period)
    } else {
        rest
    }
}

impl PassTerms {
    /// The step of a plain pass of a row at a slack.
    fn new(row: &NetRow, pass: Pass, slack: i64) -> PassTerms {
        let span = i64::from(row.span);
        PassTerms {
            rises: pass.rises(),
            distance: slack,
            opposite: span.wrapping_mul(WHOLE).wrapping_sub(slack),
            turn: if pass.forwards {
                span.wrapping_neg()
            } else {
                span
            },
        }
    }

    /// Sums of a walk with this step more.
    fn added_to(&self, sums: Sums) -> Sums {
        let Sums {
            rest,
            rising,
            falling,
        } = sums;
        if self.rises {
            Sums {
                rest,
                rising: rising.with(self.distance),
                falling,
            }
        } else {
            Sums {
                rest,
                rising,
                falling: falling.with(self.distance),
            }
        }
    }

    /// What the sums of its walk are once the pass is flipped.
    fn flipped_in(&self, sums: Sums, period: i64) -> Sums {
        let rest = within(sums.rest.wrapping_add(self.turn), period);
        if self.rises {
            Sums {
                rest,
                rising: sums.rising.without(self.distance),
                falling: sums.falling.with(self.opposite),
            }
        } else {
            Sums {
                rest,
                rising: sums.rising.with(self.opposite),
                falling: sums.falling.without(self.distance),
            }
        }
    }

    /// Flips the pass.
    fn flip(&mut self) {
        let distance = self.distance;
        self.rises = !self.rises;
        self.distance = self.opposite;
        self.opposite = distance;
        self.turn = self.turn.wrapping_neg();
    }
}

impl DistanceOrigin {
    /// Whether a step has to be flipped.
    fn turns(self, step: &PassTerms) -> bool {
        match self {
            DistanceOrigin::Nearer => step.distance > step.opposite,
            DistanceOrigin::Rising => !step.rises,
            DistanceOrigin::Falling => step.rises,
        }
    }

    /// How far the slack of a step is from its end.
    fn distance(self, step: &PassTerms) -> i64 {
        if self.turns(step) {
            step.opposite
        } else {
            step.distance
        }
    }
}

impl Marking {
    /// No walk.
    pub(crate) fn new(alloc: Global) -> Marking {
        Marking {
            passes: Vec::new(alloc),
            steps: Vec::new(alloc),
            sums: NO_SUMS,
        }
    }

    /// The passes as they are flipped now.
    pub(crate) fn passes(&self) -> &[Pass] {
        &self.passes
    }

    /// How much the inequality is violated as passes are flipped now.
    pub(crate) fn efficacy(&self, judge: EfficacyMeasure) -> u64 {
        judge.efficacy(&self.sums)
    }

    /// Takes a walk of plain passes; false where none of its inequalities is violated at these slacks.
    pub(crate) fn load(
        &mut self,
        frame: &Frame,
        judge: EfficacyMeasure,
        slacks: &[i64],
        walk: &[Pass],
    ) -> Result<bool, AllocError> {
        self.passes.clear();
        self.steps.clear();
        self.sums = NO_SUMS;
        let mut nearest = 0i64;
        for pass in walk {
            let Some(row) = frame.row(pass.row) else {
                return Ok(false);
            };
            let slack = slacks.get(pass.row as usize).copied().unwrap_or(0);
            let step = PassTerms::new(row, *pass, slack);
            nearest = nearest.wrapping_add(step.distance.min(step.opposite));
            if nearest >= judge.bound() {
                return Ok(false);
            }
            self.sums = step.added_to(self.sums);
            self.sums.rest = self.sums.rest.wrapping_sub(pass.base(row));
            self.steps.push(step)?;
        }
        self.passes.extend_from_slice(walk)?;
        let rest = self.sums.rest.checked_rem_euclid(judge.period());
        self.sums.rest = rest.unwrap_or(0);
        Ok(true)
    }

    /// Whether the inequality with all slacks measured from these ends may be violated.
    pub(crate) fn is_near(&self, judge: EfficacyMeasure, ends: DistanceOrigin) -> bool {
        let mut distance = 0i64;
        for step in &self.steps {
            distance = distance.wrapping_add(ends.distance(step));
            if distance >= judge.bound() {
                return false;
            }
        }
        true
    }

    /// Measures all slacks from these ends.
    pub(crate) fn turn_to(&mut self, judge: EfficacyMeasure, ends: DistanceOrigin) {
        let mut sums = self.sums;
        for (step, pass) in self.steps.iter_mut().zip(self.passes.iter_mut()) {
            if ends.turns(step) {
                sums = step.flipped_in(sums, judge.period());
                step.flip();
                pass.flipped = !pass.flipped;
            }
        }
        self.sums = sums;
    }

    /// The place of the pass whose flip makes the inequality the most violated; None where no flip makes it more so.
    fn best_flip(&self, judge: EfficacyMeasure) -> Option<usize> {
        let mut best = self.efficacy(judge);
        let mut found = None;
        for (place, step) in self.steps.iter().enumerate() {
            let sums = step.flipped_in(self.sums, judge.period());
            if judge.exceeds(&sums, best) {
                best = judge.efficacy(&sums);
                found = Some(place);
            }
        }
        found
    }

    /// Flips the pass that makes the inequality the most violated; None where no flip makes it more so.
    pub(crate) fn improve(&mut self, judge: EfficacyMeasure) -> Option<()> {
        let place = self.best_flip(judge)?;
        let step = self.steps.get_mut(place)?;
        let pass = self.passes.get_mut(place)?;
        self.sums = step.flipped_in(self.sums, judge.period());
        step.flip();
        pass.flipped = !pass.flipped;
        Some(())
    }
}
