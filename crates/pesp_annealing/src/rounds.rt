//! Rounds of shifts.

use crate::heat::Heat;
use crate::slacks::Slacks;
use crate::trees::ClusterTrees;
use pesp_clusters::{Bent, Clusters, DrawnForest, ForestCuts};
use std::alloc::{AllocError, Global};

/// The slacks that are being changed, and what rounds are made with.
#[derive(Drop)]
pub(crate) struct Rounds {
    pub(crate) slacks: Slacks,
    events: u32,
    forest: DrawnForest,
    cuts: ForestCuts,
    clusters: Clusters,
    trees: ClusterTrees,
}

impl Rounds {
    /// Room for rounds over these slacks of a network with so many events.
    pub(crate) fn new(alloc: Global, events: u32, slacks: Slacks) -> Result<Rounds, AllocError> {
        let rows = slacks.rows().len();
        Ok(Rounds {
            slacks,
            events,
            forest: DrawnForest::new(alloc, events, rows)?,
            cuts: ForestCuts::new(alloc, events)?,
            clusters: Clusters::new(alloc, events, rows)?,
            trees: ClusterTrees::new(alloc, events, rows)?,
        })
    }

    /// How many events there are.
    pub(crate) fn events(&self) -> u32 {
        self.events
    }

    /// Draws a forest.
    fn draw_forest(&mut self) -> Option<()> {
        let (rows, random) = self.slacks.rows_and_random();
        self.forest.draw(rows, Bent::Balanced, random)
    }

    /// Draws a forest and roots it.
    fn root_forest(&mut self) -> Option<()> {
        self.draw_forest()?;
        self.cuts.root(self.slacks.rows(), self.forest.rows())?;
        self.cuts.shuffle(self.slacks.random());
        Some(())
    }

    /// Shifts one side of each cut, in order.
    fn sweep(&mut self, heat: Option<Heat>) -> Option<()> {
        for place in self.cuts.order() {
            let crossings = self.cuts.of(*place)?;
            if !crossings.is_empty() {
                self.slacks.shift_side(crossings, heat)?;
            }
        }
        Some(())
    }

    /// Shifts one side of each cut of a random forest.
    pub(crate) fn shift_cuts(&mut self, heat: Option<Heat>) -> Result<Option<()>, AllocError> {
        if self.root_forest().is_none() {
            return Ok(None);
        }
        if self.cuts.list(self.slacks.rows())?.is_none() {
            return Ok(None);
        }
        Ok(self.sweep(heat))
    }

    /// Joins events by so many rows of the forest, and lists the rows between the clusters.
    fn gather(&mut self, most: usize) -> Option<()> {
        let rows = self.slacks.rows();
        self.clusters.join(rows, self.forest.rows(), most)?;
        self.clusters.list(rows)
    }

    /// Shifts the clusters of induced forests, for clusters that become half as many from each to the next.
    pub(crate) fn shift_clusters(&mut self, heat: Option<Heat>) -> Result<Option<()>, AllocError> {
        if self.draw_forest().is_none() {
            return Ok(None);
        }
        self.clusters.part();
        let taken = self.forest.rows().len();
        let events = self.events as usize;
        let least = events.saturating_sub(taken).saturating_add(1);
        let mut count = events;
        for _ in 0..32 {
            let most = events.saturating_sub(count).min(taken);
            if self.gather(most).is_none() {
                return Ok(None);
            }
            if self
                .trees
                .shift(&self.clusters, &mut self.slacks, heat)?
                .is_none()
            {
                return Ok(None);
            }
            if count <= least {
                break;
            }
            count = (count / 2).max(least);
        }
        Ok(Some(()))
    }

    /// A round over the cuts of a forest, and one over clusters.
    pub(crate) fn make(&mut self, heat: Option<Heat>) -> Result<(), AllocError> {
        self.shift_cuts(heat)?;
        self.shift_clusters(heat)?;
        Ok(())
    }
}
