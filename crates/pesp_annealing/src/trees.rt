//! Shifts that are drawn for all clusters of an induced forest at once.

use crate::choices::Choices;
use crate::heat::Heat;
use crate::node::ClusterTable;
use crate::slacks::Slacks;
use crate::steps::Steps;
use pesp_clusters::{Clusters, Induced, NONE, Placed};
use pesp_forest::guarded::{fill, number, set_number};
use std::alloc::{AllocError, Global};

/// An induced forest with the tables of its clusters, the places of the shifts that are drawn for these, and the amount by
/// which each cluster is shifted.
#[derive(Drop)]
pub(crate) struct ClusterTrees {
    induced: Induced,
    nodes: Vec<ClusterTable>,
    backwards: Choices,
    message: [u64; 64],
    drawn: Vec<u32>,
    amounts: Vec<u32>,
}

impl ClusterTrees {
    /// Room for forests of so many clusters, with so many rows.
    pub(crate) fn new(
        alloc: Global,
        clusters: u32,
        rows: usize,
    ) -> Result<ClusterTrees, AllocError> {
        Ok(ClusterTrees {
            induced: Induced::new(alloc, clusters, rows)?,
            nodes: Vec::new(alloc),
            backwards: Choices::none(),
            message: [0; 64],
            drawn: vec![in alloc; NONE; clusters as usize]?,
            amounts: vec![in alloc; 0u32; clusters as usize]?,
        })
    }

    /// Makes room for the tables of the forest.
    fn make_room(&mut self) -> Result<(), AllocError> {
        for _ in self.nodes.len()..self.induced.placed().len() {
            self.nodes.push(ClusterTable::empty())?;
        }
        Ok(())
    }

    /// Makes the tables of the cluster at a place.
    fn weigh(
        &mut self,
        clusters: &Clusters,
        slacks: &mut Slacks,
        steps: &Steps,
        placed: &Placed,
        place: usize,
        heat: Option<Heat>,
    ) -> Option<()> {
        self.induced.sort(clusters, placed)?;
        let node = self.nodes.get_mut(place)?;
        let choices = slacks.choices(steps, self.induced.outside())?;
        node.set_shifts(choices, heat);
        if placed.above == NONE {
            return Some(());
        }
        let upwards = self.induced.upwards();
        if steps.are_all() {
            let choices = slacks.choices(steps, upwards)?;
            return node.set_all_pairs(choices, steps.count(), heat);
        }
        self.backwards
            .find(&steps.backwards(), slacks.rows(), upwards)?;
        let forwards = slacks.choices(&steps.forwards(), upwards)?;
        node.set_pairs(&self.backwards, forwards, heat);
        Some(())
    }

    /// Makes the tables of all clusters of the forest.
    fn weigh_all(
        &mut self,
        clusters: &Clusters,
        slacks: &mut Slacks,
        steps: &Steps,
        heat: Option<Heat>,
    ) -> Option<()> {
        for place in 0..self.induced.placed().len() {
            let placed = *self.induced.placed().get(place)?;
            self.weigh(clusters, slacks, steps, &placed, place, heat)?;
        }
        Some(())
    }

    /// Lets each cluster tell the one above it, from the leaves up.
    fn tell_all(&mut self, heat: Option<Heat>) -> Option<()> {
        for (place, placed) in self.induced.placed().iter().enumerate().rev() {
            if placed.above != NONE {
                let wanted = self.nodes.get(placed.above as usize)?.allowed;
                self.nodes.get(place)?.tell(heat, wanted, &mut self.message);
                let above = self.nodes.get_mut(placed.above as usize)?;
                above.hear(heat, &mut self.message);
            }
        }
        Some(())
    }

    /// Draws the shifts of all clusters from the roots down; a tree for whose root none is left stays.
    fn draw_all(&mut self, slacks: &mut Slacks, heat: Option<Heat>) -> Option<()> {
        for (place, placed) in self.induced.placed().iter().enumerate() {
            let node = self.nodes.get(place)?;
            let random = slacks.random();
            let shift = if placed.above == NONE {
                node.begin(heat, random)
            } else {
                let above = number(&self.drawn, placed.above)?;
                if above == NONE {
                    None
                } else {
                    node.answer(heat, above, random)
                }
            };
            *self.drawn.get_mut(place)? = shift.unwrap_or(NONE);
        }
        Some(())
    }

    /// The amounts by which the clusters are shifted.
    fn set_amounts(&mut self, steps: &Steps) -> Option<()> {
        fill(&mut self.amounts, 0);
        for (placed, shift) in self.induced.placed().iter().zip(self.drawn.iter()) {
            if *shift != NONE {
                set_number(&mut self.amounts, placed.cluster, steps.amount(*shift))?;
            }
        }
        Some(())
    }

    /// Draws a forest of clusters and shifts for all of these, by weight or the cheapest, and makes them.
    pub(crate) fn shift(
        &mut self,
        clusters: &Clusters,
        slacks: &mut Slacks,
        heat: Option<Heat>,
    ) -> Result<Option<()>, AllocError> {
        if self.induced.draw(clusters, slacks.random()).is_none() {
            return Ok(None);
        }
        self.make_room()?;
        let steps = slacks.draw_steps();
        Ok(self.shift_by(clusters, slacks, &steps, heat))
    }

    /// Draws the shifts of the forest's clusters and makes them.
    fn shift_by(
        &mut self,
        clusters: &Clusters,
        slacks: &mut Slacks,
        steps: &Steps,
        heat: Option<Heat>,
    ) -> Option<()> {
        self.weigh_all(clusters, slacks, steps, heat)?;
        self.tell_all(heat)?;
        self.draw_all(slacks, heat)?;
        self.set_amounts(steps)?;
        slacks.shift_all(clusters.ends(), &self.amounts)
    }
}
