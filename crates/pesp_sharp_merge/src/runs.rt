//! Two trees, walked through together.

use crate::shape::{Shape, is_branch};
use pesp_problem::Memory;
use pesp_truth::TreeLine;
use std::alloc::Global;

/// Lines of one of the trees that follow each other: so many from a place on.
#[derive(Clone, Copy)]
pub(crate) struct Run {
    pub(crate) is_other: bool,
    pub(crate) first: usize,
    pub(crate) count: usize,
}

/// Two trees over the same instance, with the places of the other one's cycles among those of the first, and the best cost.
#[derive(Clone, Copy)]
pub(crate) struct Trees<'a> {
    pub(crate) own: &'a [TreeLine],
    pub(crate) own_shape: &'a Shape,
    pub(crate) other: &'a [TreeLine],
    pub(crate) other_shape: &'a Shape,
    pub(crate) cycles: &'a [Option<u32>],
    pub(crate) cost: u64,
}

impl<'a> Trees<'a> {
    /// The number among the first tree's cycles of one of the other tree's; None where it isn't one of them.
    fn number(&self, cycle: u32) -> Option<u32> {
        let place = (cycle as usize).checked_sub(1)?;
        let matched = self.cycles.get(place).copied()?;
        matched?.checked_add(1)
    }

    /// Whether two lines are the same branch.
    fn is_same_branch(&self, own: &TreeLine, other: &TreeLine) -> bool {
        match (own, other) {
            (TreeLine::Slack { row, k }, TreeLine::Slack { row: row2, k: k2 }) => {
                row == row2 && k == k2
            }
            (
                TreeLine::Offset { cycle, k },
                TreeLine::Offset {
                    cycle: cycle2,
                    k: k2,
                },
            ) => { self.number(*cycle2) == Some(*cycle) && k == k2 }
            _ => false,
        }
    }

    /// Whether the other tree's subtree shows more, or as much by a branch where the first tree has an open leaf.
    fn shows_more(&self, own: usize, other: usize) -> bool {
        let shown = self.own_shape.least(own).min(self.cost);
        let others = self.other_shape.least(other).min(self.cost);
        if shown != others {
            return others > shown;
        }
        let goes_on = match (self.own.get(own), self.other.get(other)) {
            (Some(own), Some(other)) => !is_branch(own) && is_branch(other),
            _ => false,
        };
        shown < self.cost && goes_on
    }

    /// The subtree that is taken, of two that part.
    fn run(&self, own: usize, other: usize) -> Run {
        if self.shows_more(own, other) {
            Run {
                is_other: true,
                first: other,
                count: self.other_shape.size(other),
            }
        } else {
            Run {
                is_other: false,
                first: own,
                count: self.own_shape.size(own),
            }
        }
    }

    /// Whether both trees have the same branch at these places.
    fn go_on_alike(&self, own: usize, other: usize) -> bool {
        match (self.own.get(own), self.other.get(other)) {
            (Some(own), Some(other)) => self.is_same_branch(own, other),
            _ => false,
        }
    }

    /// The lines of the tree that comes of both.
    pub(crate) fn runs(&self, alloc: Global) -> Result<Vec<Run>, Memory> {
        let mut runs = Vec::new(alloc);
        let mut waiting = Vec::new(alloc);
        waiting.push((0usize, 0usize))?;
        for _ in 0..self.own.len().saturating_mul(2) {
            let Some((own, other)) = waiting.pop() else {
                return Ok(runs);
            };
            if self.go_on_alike(own, other) {
                runs.push(Run {
                    is_other: false,
                    first: own,
                    count: 1,
                })?;
                waiting.push((self.own_shape.second(own), self.other_shape.second(other)))?;
                waiting.push((own.saturating_add(1), other.saturating_add(1)))?;
            } else {
                runs.push(self.run(own, other))?;
            }
        }
        Ok(runs)
    }

    /// The lines of a run.
    pub(crate) fn lines(&self, run: &Run) -> &'a [TreeLine] {
        let lines = if run.is_other { self.other } else { self.own };
        let end = run.first.saturating_add(run.count);
        lines.get(run.first..end).unwrap_or(&[])
    }

    /// The least cost that a run's bound leaves show.
    fn least(&self, run: &Run) -> u64 {
        if run.is_other {
            self.other_shape.least(run.first)
        } else if run.count > 1 || !self.own.get(run.first).is_some_and(|line| is_branch(line)) {
            self.own_shape.least(run.first)
        } else {
            u64::MAX
        }
    }

    /// The least cost that the bound leaves of all runs show, `u64::MAX` where there is none.
    pub(crate) fn bound(&self, runs: &[Run]) -> u64 {
        let mut least = u64::MAX;
        for run in runs {
            least = least.min(self.least(run));
        }
        least
    }
}
