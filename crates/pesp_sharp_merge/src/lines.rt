//! Lines by other numbers.

use pesp_problem::{Memory, Pair, Pairs};
use pesp_truth::TreeLine;
use std::alloc::Global;

/// How the lines of a tree are told again: how many cycles it has; that the first so many numbers stay, and what the new numbers of
/// the others are, behind so many; and by what the multipliers of leaves grow that name more than cycles.
#[derive(Clone, Copy)]
pub(crate) struct Retelling<'a> {
    pub(crate) cycles: usize,
    pub(crate) first: u32,
    pub(crate) behind: u32,
    pub(crate) numbers: &'a [u32],
    pub(crate) factor: i64,
}

impl Retelling<'_> {
    /// The new number.
    fn number(&self, number: u32) -> Option<u32> {
        if number <= self.first {
            return Some(number);
        }
        let place = number.wrapping_sub(self.first).wrapping_sub(1);
        let told = self.numbers.get(place as usize).copied()?;
        told.checked_add(self.behind)
    }

    /// A pair whose multiplier grows.
    fn pair(&self, pair: &Pair, factor: i64) -> Option<Pair> {
        Some(Pair {
            cycle: self.number(pair.cycle)?,
            mult: pair.mult.checked_mul(factor)?,
        })
    }

    /// The pairs in the order of their new numbers; None where one has no number or too great a multiplier.
    pub(crate) fn pairs(&self, alloc: Global, pairs: &[Pair]) -> Result<Option<Pairs>, Memory> {
        let has_scale = pairs.iter().any(|pair| pair.cycle as usize > self.cycles);
        let factor = if has_scale { self.factor } else { 1 };
        let mut told = Vec::with_capacity(alloc, pairs.len())?;
        for pair in pairs {
            match self.pair(pair, factor) {
                Some(pair) => told.push(pair)?,
                None => return Ok(None),
            }
        }
        told.sort_unstable_by_key(|pair| pair.cycle);
        Ok(Some(Pairs::new(told)))
    }

    /// The line; None where it can't be told.
    pub(crate) fn line(&self, alloc: Global, line: &TreeLine) -> Result<Option<TreeLine>, Memory> {
        match line {
            TreeLine::Slack { row, k } => Ok(Some(TreeLine::Slack { row: *row, k: *k })),
            TreeLine::Offset { cycle, k } => {
                let cycle = self.number(*cycle);
                Ok(cycle.map(|cycle| TreeLine::Offset { cycle, k: *k }))
            }
            TreeLine::Bound(pairs) => {
                let pairs = self.pairs(alloc, pairs.as_slice())?;
                Ok(pairs.map(|pairs| TreeLine::Bound(pairs)))
            }
            TreeLine::Nothing(pairs) => {
                let pairs = self.pairs(alloc, pairs.as_slice())?;
                Ok(pairs.map(|pairs| TreeLine::Nothing(pairs)))
            }
            TreeLine::Gap(cycle) => {
                let cycle = self.number(*cycle);
                Ok(cycle.map(|cycle| TreeLine::Gap(cycle)))
            }
            TreeLine::Propagated => Ok(Some(TreeLine::Propagated)),
        }
    }
}
