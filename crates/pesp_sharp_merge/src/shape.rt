//! The shape of a tree whose lines stand in preorder, and what its subtrees show.

use pesp_problem::Memory;
use pesp_truth::TreeLine;
use std::alloc::Global;

/// For each line how many lines its subtree has, and the least cost that a bound leaf of it shows, `u64::MAX` where it has none.
#[derive(Drop)]
pub(crate) struct Shape {
    sizes: Vec<usize>,
    least: Vec<u64>,
}

/// Whether a line is a branch.
pub(crate) fn is_branch(line: &TreeLine) -> bool {
    matches!(line, TreeLine::Slack { .. } | TreeLine::Offset { .. })
}

/// What a line shows that is no branch.
fn cost_shown(line: &TreeLine, shown: Option<u64>) -> u64 {
    match line {
        TreeLine::Bound(_) => shown.unwrap_or(0),
        _ => u64::MAX,
    }
}

impl Shape {
    /// The shape of lines, of which each bound leaf shows so much.
    pub(crate) fn of(
        alloc: Global,
        lines: &[TreeLine],
        shown: &[Option<u64>],
    ) -> Result<Shape, Memory> {
        let mut shape = Shape {
            sizes: vec![in alloc; 1usize; lines.len()]?,
            least: vec![in alloc; u64::MAX; lines.len()]?,
        };
        for (place, line) in lines.iter().enumerate().rev() {
            if is_branch(line) {
                shape.join(place);
            } else {
                let cost = shown.get(place).copied().unwrap_or(None);
                shape.set_least(place, cost_shown(line, cost));
            }
        }
        Ok(shape)
    }

    /// How many lines the subtree at a place has.
    pub(crate) fn size(&self, place: usize) -> usize {
        self.sizes.get(place).copied().unwrap_or(0)
    }

    /// What the subtree at a place shows.
    pub(crate) fn least(&self, place: usize) -> u64 {
        self.least.get(place).copied().unwrap_or(0)
    }

    /// The place of the second part of a branch.
    pub(crate) fn second(&self, place: usize) -> usize {
        let first = place.saturating_add(1);
        first.saturating_add(self.size(first))
    }

    fn set_least(&mut self, place: usize, cost: u64) {
        if let Some(slot) = self.least.get_mut(place) {
            *slot = cost;
        }
    }

    /// Joins the parts of a branch.
    fn join(&mut self, place: usize) {
        let first = place.saturating_add(1);
        let second = self.second(place);
        let parts = self.size(first).saturating_add(self.size(second));
        if let Some(slot) = self.sizes.get_mut(place) {
            *slot = parts.saturating_add(1);
        }
        let least = self.least(first).min(self.least(second));
        self.set_least(place, least);
    }
}
