//! Bases by the names of inequalities and of cycles.

use pesp_sharp_nodes::{OffsetBound, Pool, Range};
use std::alloc::{AllocError, Global};

/// What a line of the program is: an inequality of the pool, or the offset of a cycle.
#[derive(Clone, Copy, PartialEq, Eq)]
pub(crate) enum LineName {
    Pooled(u32),
    Offset(u32),
}

/// A cycle with the offsets that are left to it.
#[derive(Clone, Copy)]
pub(crate) struct NarrowedCycle {
    pub(crate) cycle: u32,
    pub(crate) range: Range,
}

/// What an open leaf goes on from: the basic slacks, the tight lines, each with whether it is at its greatest value, the slacks at
/// their span, the cycles whose offsets are bounded, and how many branches lead to it. A leaf that was given has no names yet, but
/// a number of multipliers: it goes on from wherever the program stands, since each basis is dual feasible at each node.
#[derive(Drop)]
pub struct NodeBasis {
    pub(crate) basic: Vec<u32>,
    pub(crate) tight: Vec<(LineName, bool)>,
    pub(crate) up: Vec<u32>,
    pub(crate) narrowed: Vec<NarrowedCycle>,
    given: Option<usize>,
    pub depth: u32,
    pub is_solved_out: bool,
}

/// The cycles of branches, each once, with the offsets that are left to them.
fn narrowed_by(
    alloc: Global,
    ranges: &[Range],
    path: &[OffsetBound],
) -> Result<Vec<NarrowedCycle>, AllocError> {
    let mut narrowed: Vec<NarrowedCycle> = Vec::new(alloc);
    for branch in path {
        let cycle = branch.cycle;
        let is_there = narrowed.iter().any(|it| it.cycle == cycle);
        if let Some(range) = ranges.get(cycle as usize).copied()
            && !is_there
        {
            narrowed.push(NarrowedCycle { cycle, range })?;
        }
    }
    Ok(narrowed)
}

impl NodeBasis {
    /// No basis.
    pub(crate) fn new(alloc: Global) -> NodeBasis {
        NodeBasis {
            basic: Vec::new(alloc),
            tight: Vec::new(alloc),
            up: Vec::new(alloc),
            narrowed: Vec::new(alloc),
            given: None,
            depth: 0,
            is_solved_out: false,
        }
    }

    /// What a leaf goes on from that was given with so many multipliers, below these branches, where offsets have these ranges.
    pub fn given(
        alloc: Global,
        ranges: &[Range],
        path: &[OffsetBound],
        multipliers: usize,
    ) -> Result<NodeBasis, AllocError> {
        let narrowed = narrowed_by(alloc, ranges, path)?;
        let mut basis = NodeBasis::new(alloc);
        basis.narrowed = narrowed;
        basis.given = Some(multipliers);
        basis.depth = u32::try_from(path.len()).unwrap_or(u32::MAX);
        Ok(basis)
    }

    /// Whether the leaf was given, and has no names yet.
    pub fn is_given(&self) -> bool {
        self.given.is_some()
    }

    /// How many lines are tight, or how many multipliers a leaf has that was given.
    pub fn count(&self) -> usize {
        self.given.unwrap_or(self.tight.len())
    }

    /// The inequalities of the pool that are tight.
    pub fn pooled(&self, alloc: Global) -> Result<Vec<u32>, AllocError> {
        let mut numbers = Vec::new(alloc);
        for (name, _) in &self.tight {
            if let LineName::Pooled(number) = *name {
                numbers.push(number)?;
            }
        }
        Ok(numbers)
    }

    /// The leaf keeps its inequalities in the pool.
    pub fn keep_in(&self, pool: &mut Pool) {
        for (name, _) in &self.tight {
            if let LineName::Pooled(number) = *name {
                pool.keep(number);
            }
        }
    }

    /// The leaf keeps them no longer.
    pub fn leave(&self, alloc: Global, pool: &mut Pool) -> Result<(), AllocError> {
        for (name, _) in &self.tight {
            if let LineName::Pooled(number) = *name {
                pool.leave(number);
                pool.sweep(alloc, number)?;
            }
        }
        Ok(())
    }
}
