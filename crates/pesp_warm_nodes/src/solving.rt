//! Solves, within a limit.

use crate::shared::Shared;
use pesp_basis::{ONE, parts, rounded, whole};
use pesp_dual_simplex::SolveStatus;
use pesp_sharp_nodes::{Limit, Setting};
use std::alloc::AllocError;

/// How many exchanges a node has at most.
const MOST_EXCHANGES: u32 = 20_000;

/// How many a part has at once; the others follow when it is its turn.
const FEW_EXCHANGES: u32 = 40;

/// How many are made before an inverse is looked at, and how often at most.
const FIRST_EXCHANGES: u32 = 100;

const MOST_LOOKS: u32 = 30;

/// The share of numbers of an inverse that aren't 0, in 1/1024, up to which it counts as sparse.
const SPARSE: u64 = 512;

/// By how much the value passes the limit where costs aren't whole.
const BEYOND: i64 = ONE / 64;

/// The value at which a leaf is closed, where so many units of a cost make up one.
fn stop_at(limit: Limit, unit: u32) -> i64 {
    let cost = i64::try_from(limit.cost).unwrap_or(i64::MAX);
    if unit > 1 {
        return parts(cost, i64::from(unit)).saturating_add(BEYOND);
    }
    let below = whole(cost.saturating_sub(1));
    below.saturating_add(ONE / 10 * 3)
}

impl Shared {
    /// The value at which a leaf is closed.
    fn stop_at(&self, limit: Limit) -> i64 {
        stop_at(limit, self.unit)
    }

    /// Makes at most so many exchanges.
    pub(crate) fn solve(&mut self, limit: Limit, most: u32) -> Result<SolveStatus, AllocError> {
        self.solves = self.solves.saturating_add(1);
        let stop = self.stop_at(limit);
        self.simplex.solve(stop, most)
    }

    /// Whether what was found doesn't hold in whole numbers.
    fn is_off(&mut self, setting: &Setting, end: SolveStatus) -> Result<bool, AllocError> {
        if end == SolveStatus::Ray {
            return Ok(self.ray_value(setting)? <= 0);
        }
        let unit = i64::from(self.unit);
        let off = unit.saturating_mul(2);
        let cost = rounded(self.simplex.value(), unit).saturating_sub(off);
        let shown = i64::try_from(self.cost_shown(setting)?).unwrap_or(i64::MAX);
        Ok(shown < cost)
    }

    /// Solves a node; from nothing where what was found doesn't hold in whole numbers.
    pub fn solve_out(
        &mut self,
        setting: &Setting,
        limit: Limit,
    ) -> Result<SolveStatus, AllocError> {
        let end = self.solve(limit, MOST_EXCHANGES)?;
        if !self.is_off(setting, end)? {
            return Ok(end);
        }
        self.simplex.reset()?;
        self.solve(limit, MOST_EXCHANGES)
    }

    /// Solves a part as far as a few exchanges go.
    pub fn solve_part(&mut self, limit: Limit) -> Result<SolveStatus, AllocError> {
        self.solve(limit, FEW_EXCHANGES)
    }

    /// Solves the root; whether exchanges are for it: it is solved by not too many, and the inverse stays sparse.
    pub fn suits(&mut self, limit: Limit) -> Result<bool, AllocError> {
        for _ in 0..MOST_LOOKS {
            let end = self.solve(limit, FIRST_EXCHANGES)?;
            self.simplex.settle(1)?;
            if self.simplex.density() > SPARSE {
                return Ok(false);
            }
            if end != SolveStatus::Limit {
                return Ok(true);
            }
        }
        Ok(false)
    }

    /// Solves the root of a part of an instance; whether exchanges are for it: it is solved by not too many, and the inverse is
    /// sparse in the end.
    pub fn suits_in_the_end(&mut self, limit: Limit) -> Result<bool, AllocError> {
        let most = FIRST_EXCHANGES.saturating_mul(MOST_LOOKS);
        let end = self.solve(limit, most)?;
        self.simplex.settle(1)?;
        Ok(end != SolveStatus::Limit && self.simplex.density() <= SPARSE)
    }

    /// Solves the node from an inverse that is built anew.
    pub fn solve_anew(
        &mut self,
        setting: &Setting,
        limit: Limit,
    ) -> Result<SolveStatus, AllocError> {
        self.simplex.rebuild()?;
        self.solve_out(setting, limit)
    }

    /// What was gained since a value, in 1/2^20; where nothing is left, all up to the limit, or as much again.
    pub fn gain_since(&self, before: i64, end: SolveStatus, limit: Limit) -> i128 {
        let stop = self.stop_at(limit);
        let reached = if end == SolveStatus::Ray {
            stop.min(before.saturating_mul(2))
        } else {
            self.simplex.value().min(stop)
        };
        i128::from(reached.saturating_sub(before).max(0) >> 16)
    }

    /// The value, in fixed point.
    pub fn value(&self) -> i64 {
        self.simplex.value()
    }

    /// By how much the limit is above the value.
    pub(crate) fn left(&self, limit: Limit) -> i64 {
        let stop = self.stop_at(limit).min(whole(1 << 26));
        stop.saturating_sub(self.simplex.value())
    }
}
