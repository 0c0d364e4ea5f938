//! The dual simplex.

use crate::simplex::Simplex;
use pesp_basis::{Entering, Leaving, Member, ONE};
use std::alloc::AllocError;

/// After how many exchanges the inverse is built anew.
const REBUILT_AFTER: u32 = 600;

/// Up to how many exchanges it is trusted where nothing is within all lines. That is looked at again in whole numbers.
const TRUSTED_FOR: u32 = 150;

/// How many changes of the inverse are still to be made at most.
const MOST_UPDATES: usize = 64;

/// How a call came to its end: nothing is outside its range; the value has reached what was asked for; nothing is within all
/// lines, which `ray` shows; or all exchanges were made.
#[derive(Clone, Copy, PartialEq, Eq)]
pub enum SolveStatus {
    Best,
    Stopped,
    Ray,
    Limit,
}

/// What a turn did.
#[derive(Clone, Copy)]
enum SolveTurn {
    Best,
    Made,
    Stuck(Leaving),
}

impl Simplex {
    /// Makes an exchange.
    fn make(&mut self, leaving: Leaving, entering: Entering) -> Result<(), AllocError> {
        self.pivots = self.pivots.wrapping_add(1);
        self.state.since = self.state.since.saturating_add(1);
        self.move_slacks(leaving, entering)?;
        self.move_prices(leaving, entering);
        self.exchange(leaving, entering)
    }

    /// Makes an exchange, where something is outside its range and something may enter.
    fn turn(&mut self) -> Result<SolveTurn, AllocError> {
        let Some(leaving) = self.state.leaving(&self.columns, &self.lines) else {
            return Ok(SolveTurn::Best);
        };
        self.weigh(leaving.member)?;
        self.list_candidates(leaving)?;
        let candidates = self.candidates.len() as u64;
        self.work = self.work.wrapping_add(candidates);
        match self.entering(leaving) {
            Some(entering) => {
                self.make(leaving, entering)?;
                Ok(SolveTurn::Made)
            }
            None => Ok(SolveTurn::Stuck(leaving)),
        }
    }

    /// Keeps the multipliers that show that nothing is within all lines.
    fn keep_ray(&mut self, leaving: Leaving) -> Result<(), AllocError> {
        self.ray.clear();
        for (place, weight) in &self.listed {
            if let Some(number) = self.state.tight.get(*place as usize).copied() {
                let multiplier = leaving.signed(*weight).wrapping_neg();
                self.ray.push((number, multiplier))?;
            }
        }
        if let Member::Line(number) = leaving.member {
            self.ray.push((number, leaving.signed(ONE)))?;
        }
        Ok(())
    }

    /// Whether the value has reached a number, as the multipliers are.
    fn reaches(&mut self, stop: i64) -> bool {
        if self.state.value < stop {
            return false;
        }
        self.state.value = self.state.value_shown(&self.columns, &self.lines);
        self.state.value >= stop
    }

    /// Makes exchanges until nothing is outside its range, the value reaches `stop`, or so many were made.
    pub fn solve(&mut self, stop: i64, most: u32) -> Result<SolveStatus, AllocError> {
        let mut was_stuck = false;
        for _ in 0..most {
            if self.reaches(stop) {
                return Ok(SolveStatus::Stopped);
            }
            if self.state.since >= REBUILT_AFTER {
                self.rebuild()?;
            } else {
                self.settle(MOST_UPDATES)?;
            }
            match self.turn()? {
                SolveTurn::Best => return Ok(SolveStatus::Best),
                SolveTurn::Made => {}
                SolveTurn::Stuck(leaving) => {
                    if was_stuck || self.state.since <= TRUSTED_FOR {
                        self.keep_ray(leaving)?;
                        return Ok(SolveStatus::Ray);
                    }
                    was_stuck = true;
                    self.rebuild()?;
                }
            }
        }
        Ok(SolveStatus::Limit)
    }
}
