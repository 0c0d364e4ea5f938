//! The inequalities that nodes and leaves share.

use indexmap::IndexMap;
use pesp_dual::Term;
use pesp_inequalities::{Inequality, Pass};
use std::alloc::{AllocError, Global};
use std::mem::swap;

/// An inequality with its key, how many nodes keep it, and how many leaves have a multiplier of it.
#[derive(Drop)]
struct PoolEntry {
    inequality: Inequality,
    key: u64,
    kept: u32,
    told: u32,
}

/// Inequalities by their numbers from 0, each once; the numbers that are free; the number for each key; and how many
/// inequalities leaves have multipliers of, with how many passes.
#[derive(Drop)]
pub struct Pool {
    entries: Vec<PoolEntry>,
    free: Vec<u32>,
    places: IndexMap<u64, u32>,
    told: usize,
    told_passes: usize,
}

/// An entry without an inequality.
fn empty_entry(alloc: Global) -> PoolEntry {
    PoolEntry {
        inequality: Inequality {
            passes: Vec::new(alloc),
            terms: Vec::new(alloc),
            least: 0,
        },
        key: 0,
        kept: 0,
        told: 0,
    }
}

impl Pool {
    /// No inequality.
    pub(crate) fn new(alloc: Global) -> Pool {
        Pool {
            entries: Vec::new(alloc),
            free: Vec::new(alloc),
            places: IndexMap::new(alloc),
            told: 0,
            told_passes: 0,
        }
    }

    /// The number of the next entry.
    fn free_number(&mut self, alloc: Global) -> Result<u32, AllocError> {
        if let Some(number) = self.free.pop() {
            return Ok(number);
        }
        let number = u32::try_from(self.entries.len()).unwrap_or(u32::MAX);
        self.entries.push(empty_entry(alloc))?;
        Ok(number)
    }

    /// Takes an inequality in, which nobody keeps yet; its number.
    pub(crate) fn put(&mut self, alloc: Global, inequality: Inequality) -> Result<u32, AllocError> {
        let key = inequality.key();
        if let Some(number) = self.places.get(&key) {
            return Ok(*number);
        }
        let number = self.free_number(alloc)?;
        if let Some(entry) = self.entries.get_mut(number as usize) {
            entry.inequality = inequality;
            entry.key = key;
        }
        self.places.insert(key, number)?;
        Ok(number)
    }

    /// The entry of a number.
    fn entry(&self, number: u32) -> Option<&PoolEntry> {
        self.entries.get(number as usize)
    }

    /// The key of an inequality.
    pub fn key(&self, number: u32) -> Option<u64> {
        Some(self.entry(number)?.key)
    }

    /// The terms of an inequality.
    pub fn terms(&self, number: u32) -> &[Term] {
        match self.entry(number) {
            Some(entry) => entry.inequality.terms.as_slice(),
            None => &[],
        }
    }

    /// What the terms of an inequality are at least.
    pub fn least(&self, number: u32) -> i64 {
        self.entry(number).map_or(0, |entry| entry.inequality.least)
    }

    /// A node keeps an inequality.
    pub fn keep(&mut self, number: u32) {
        if let Some(entry) = self.entries.get_mut(number as usize) {
            entry.kept = entry.kept.saturating_add(1);
        }
    }

    /// A node keeps an inequality no longer.
    pub fn leave(&mut self, number: u32) {
        if let Some(entry) = self.entries.get_mut(number as usize) {
            entry.kept = entry.kept.saturating_sub(1);
        }
    }

    /// A leaf has a multiplier of an inequality.
    pub fn tell(&mut self, number: u32) {
        let Some(entry) = self.entries.get_mut(number as usize) else {
            return;
        };
        if entry.told == 0 {
            let passes = entry.inequality.passes.len();
            self.told = self.told.saturating_add(1);
            self.told_passes = self.told_passes.saturating_add(passes);
        }
        entry.told = entry.told.saturating_add(1);
    }

    /// A leaf that had a multiplier of an inequality is no longer there.
    pub fn untell(&mut self, number: u32) {
        let Some(entry) = self.entries.get_mut(number as usize) else {
            return;
        };
        if entry.told == 1 {
            let passes = entry.inequality.passes.len();
            self.told = self.told.saturating_sub(1);
            self.told_passes = self.told_passes.saturating_sub(passes);
        }
        entry.told = entry.told.saturating_sub(1);
    }

    /// Drops an inequality that no node keeps and of which no leaf has a multiplier.
    pub fn sweep(&mut self, alloc: Global, number: u32) -> Result<(), AllocError> {
        let Some(entry) = self.entries.get_mut(number as usize) else {
            return Ok(());
        };
        if entry.kept > 0 || entry.told > 0 || entry.inequality.terms.is_empty() {
            return Ok(());
        }
        let mut emptied = empty_entry(alloc);
        swap(entry, &mut emptied);
        self.places.swap_remove(&emptied.key);
        self.free.push(number)?;
        Ok(())
    }

    /// How many inequalities leaves have multipliers of.
    pub fn told(&self) -> usize {
        self.told
    }

    /// How many passes the walks of these have.
    pub fn told_passes(&self) -> usize {
        self.told_passes
    }

    /// For each inequality its place among those of which leaves have multipliers.
    pub fn numbers(&self, alloc: Global) -> Result<Vec<u32>, AllocError> {
        let mut numbers = Vec::with_capacity(alloc, self.entries.len())?;
        let mut next = 0u32;
        for entry in &self.entries {
            numbers.push(next)?;
            if entry.told > 0 {
                next = next.wrapping_add(1);
            }
        }
        Ok(numbers)
    }

    /// The walks of the inequalities of which leaves have multipliers, in order.
    pub fn walks(&self, alloc: Global) -> Result<Vec<Vec<Pass>>, AllocError> {
        let mut walks = Vec::with_capacity(alloc, self.told)?;
        for entry in &self.entries {
            if entry.told > 0 {
                walks.push(Vec::from_slice(alloc, &entry.inequality.passes)?)?;
            }
        }
        Ok(walks)
    }
}
