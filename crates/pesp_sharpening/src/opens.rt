//! Leaves that may be split.

use pesp_sharp_nodes::{Pool, ProgramNode};
use pesp_warm_nodes::NodeBasis;
use std::alloc::{AllocError, Global};

/// What goes on from a leaf: primal-dual steps over its own program, or exchanges over the one that all share.
#[derive(Drop)]
pub(crate) enum LeafStart {
    Steps(ProgramNode),
    Exchanges(NodeBasis),
}

/// A leaf that may be split: its place in the tree, what it shows, and what goes on from it.
#[derive(Drop)]
pub(crate) struct Open {
    pub(crate) place: u32,
    pub(crate) bound: u64,
    pub(crate) start: LeafStart,
}

impl Open {
    /// Whether its slacks are still to be found.
    pub(crate) fn is_cold(&self) -> bool {
        match &self.start {
            LeafStart::Steps(node) => node.is_cold,
            LeafStart::Exchanges(_) => false,
        }
    }

    /// How many inequalities it has.
    pub(crate) fn count(&self) -> usize {
        match &self.start {
            LeafStart::Steps(node) => node.count(),
            LeafStart::Exchanges(basis) => basis.count(),
        }
    }

    /// The inequalities of the pool that it has.
    pub(crate) fn pooled(&self, alloc: Global) -> Result<Vec<u32>, AllocError> {
        match &self.start {
            LeafStart::Steps(node) => node.pooled(alloc),
            LeafStart::Exchanges(basis) => basis.pooled(alloc),
        }
    }

    /// It keeps its inequalities no longer.
    pub(crate) fn leave(&self, alloc: Global, pool: &mut Pool) -> Result<(), AllocError> {
        match &self.start {
            LeafStart::Steps(node) => node.leave(alloc, pool),
            LeafStart::Exchanges(basis) => basis.leave(alloc, pool),
        }
    }
}
