//! Violated inequalities at the slacks of a node, and those that go.

use crate::basis::LineName;
use crate::shared::Shared;
use pesp_basis::{ONE, rounded};
use pesp_dual_simplex::SolveStatus;
use pesp_sharp_nodes::{Limit, NodeSharpener, Pool, Setting, UNIT};
use std::alloc::AllocError;

/// How many rounds the root has at most.
const ROOT_ROUNDS: u32 = 12;

/// How many rounds a node has near it.
const ROUNDS: u32 = 3;

/// How many inequalities such a round takes in at most.
const MOST: usize = 20;

/// For how many solves an inequality of the root may not be tight.
const ROOT_AGE: u64 = 3;

/// For how many solves it may not be below the root.
const AGE: u64 = 60;

impl Shared {
    /// Reads the slacks, in 1/65536.
    pub fn read_slacks(&mut self, setting: &Setting) -> Result<(), AllocError> {
        self.slacks.clear();
        for (place, row) in setting.frame.rows().iter().enumerate() {
            let slack = rounded(self.simplex.slack(place), UNIT);
            let span = i64::from(row.span).wrapping_mul(UNIT);
            self.slacks.push(slack.max(0).min(span))?;
        }
        Ok(())
    }

    /// Takes in inequalities that the slacks violate; whether there are any.
    fn find(&mut self, sharpener: &mut NodeSharpener, most: usize) -> Result<bool, AllocError> {
        self.read_slacks(&sharpener.setting)?;
        let found = sharpener.find(&self.slacks, most, &mut self.seen)?;
        for number in &found {
            self.add_pooled(&mut sharpener.pool, *number)?;
        }
        Ok(!found.is_empty())
    }

    /// Which lines stay.
    fn marks(&self, age: u64) -> Result<Vec<bool>, AllocError> {
        let mut marks = Vec::with_capacity(self.alloc, self.names.len())?;
        for (name, tight_at) in self.names.iter().zip(self.tight_at.iter()) {
            let is_young = tight_at.saturating_add(age) > self.solves;
            marks.push(is_young || matches!(name, LineName::Offset(_)))?;
        }
        Ok(marks)
    }

    /// Lets an inequality go.
    fn let_go(&mut self, pool: &mut Pool, number: u32) -> Result<(), AllocError> {
        if let Some(slot) = self.pooled.get_mut(number as usize) {
            *slot = None;
        }
        if let Some(key) = pool.key(number) {
            self.seen.remove(key);
        }
        pool.leave(number);
        pool.sweep(self.alloc, number)
    }

    /// A line has a new number, or goes.
    fn renumber(
        &mut self,
        pool: &mut Pool,
        name: LineName,
        line: Option<u32>,
    ) -> Result<(), AllocError> {
        match (name, line) {
            (LineName::Pooled(number), None) => self.let_go(pool, number)?,
            (LineName::Pooled(number), Some(_)) => {
                if let Some(slot) = self.pooled.get_mut(number as usize) {
                    *slot = line;
                }
            }
            (LineName::Offset(number), _) => {
                if let Some(slot) = self.offsets.get_mut(number as usize) {
                    *slot = line;
                }
            }
        }
        Ok(())
    }

    /// Lines go to their new numbers.
    fn renumber_all(&mut self, pool: &mut Pool, numbers: &[Option<u32>]) -> Result<(), AllocError> {
        let mut kept = 0usize;
        for place in 0..numbers.len() {
            let (Some(name), Some(tight_at)) = (
                self.names.get(place).copied(),
                self.tight_at.get(place).copied(),
            ) else {
                break;
            };
            let line = numbers.get(place).copied().unwrap_or(None);
            self.renumber(pool, name, line)?;
            if line.is_some() {
                if let Some(slot) = self.names.get_mut(kept) {
                    *slot = name;
                }
                if let Some(slot) = self.tight_at.get_mut(kept) {
                    *slot = tight_at;
                }
                kept = kept.wrapping_add(1);
            }
        }
        self.names.truncate(kept);
        self.tight_at.truncate(kept);
        Ok(())
    }

    /// Inequalities go that weren't tight for so many solves.
    fn drop_older(&mut self, pool: &mut Pool, age: u64) -> Result<(), AllocError> {
        let marks = self.marks(age)?;
        let numbers = self.simplex.keep(&marks)?;
        self.renumber_all(pool, &numbers)
    }

    /// Every so many solves inequalities go that weren't tight for as many.
    pub fn drop_old(&mut self, pool: &mut Pool) -> Result<(), AllocError> {
        if self.solves < self.dropped_at.saturating_add(AGE) {
            return Ok(());
        }
        self.dropped_at = self.solves;
        self.drop_older(pool, AGE)
    }

    /// Rounds of inequalities at the root.
    pub fn look_at_root(
        &mut self,
        sharpener: &mut NodeSharpener,
        limit: Limit,
    ) -> Result<(), AllocError> {
        let most = (sharpener.setting.frame.rows().len() / 4).max(40);
        let mut last = 0i64;
        let mut quiet = 0u32;
        for _ in 0..ROOT_ROUNDS {
            if self.solve_out(&sharpener.setting, limit)? != SolveStatus::Best {
                return Ok(());
            }
            let value = self.value();
            let is_quiet = value.saturating_sub(last) < value / 5000;
            quiet = if is_quiet { quiet.saturating_add(1) } else { 0 };
            last = value;
            if quiet >= 5 || !self.find(sharpener, most)? {
                return Ok(());
            }
            self.note_tight();
            self.drop_older(&mut sharpener.pool, ROOT_AGE)?;
        }
        self.solve_out(&sharpener.setting, limit)?;
        Ok(())
    }

    /// A few rounds at a node, as long as each brings a hundredth of what is left to the limit.
    pub fn sharpen(
        &mut self,
        sharpener: &mut NodeSharpener,
        limit: Limit,
    ) -> Result<SolveStatus, AllocError> {
        let mut end = SolveStatus::Best;
        for _ in 0..ROUNDS {
            let before = self.value();
            let least = self.left(limit) / 100;
            if !self.find(sharpener, MOST)? {
                return Ok(end);
            }
            end = self.solve_out(&sharpener.setting, limit)?;
            let is_little = self.value().saturating_sub(before) < least.min(ONE << 20);
            if end != SolveStatus::Best || is_little {
                return Ok(end);
            }
        }
        Ok(end)
    }
}
