//! The rows outside a forest: each closes one cycle.

use crate::forest::RowForest;
use std::alloc::{AllocError, Global};

/// A spanning forest as leaves read it: the rows outside it by rising place, one for each cycle, all rows with those of the
/// forest first, and the events, each before those below it.
#[derive(Drop)]
pub struct Cycles {
    forest: RowForest,
    outside: Vec<u32>,
    order: Vec<u32>,
    downwards: Vec<u32>,
}

impl Cycles {
    /// The cycles that a forest leaves.
    pub fn new(alloc: Global, forest: RowForest) -> Result<Cycles, AllocError> {
        let outside = forest.rows(alloc, false)?;
        let mut order = forest.rows(alloc, true)?;
        order.extend_from_slice(outside.as_slice())?;
        let downwards = forest.downwards(alloc)?;
        Ok(Cycles {
            forest,
            outside,
            order,
            downwards,
        })
    }

    /// How many cycles there are.
    pub fn count(&self) -> usize {
        self.outside.len()
    }

    /// The row outside the forest that closes a cycle, numbered from 1.
    pub fn row(&self, cycle: u32) -> Option<u32> {
        let place = (cycle as usize).checked_sub(1)?;
        self.outside.get(place).copied()
    }

    /// The forest.
    pub fn forest(&self) -> &RowForest {
        &self.forest
    }

    /// The rows outside the forest, each of which closes a cycle, in the order of the cycles.
    pub fn outside(&self) -> &[u32] {
        &self.outside
    }

    /// All rows, those of the forest first.
    pub fn order(&self) -> &[u32] {
        &self.order
    }

    /// All events, each before those below it.
    pub fn downwards(&self) -> &[u32] {
        &self.downwards
    }

    /// The forest alone.
    pub fn into_forest(self) -> RowForest {
        let Cycles { forest, .. } = self;
        forest
    }
}
