//! Merges: what timetables have in common is contracted.

use crate::clusters::{EventClusters, common_clusters};
use crate::contraction::ClusterContraction;
use pesp_network::Network;
use pesp_problem::Memory;
use pesp_timetables::{Found, cost_of};
use std::alloc::Global;

/// A merge: the network between clusters, its cheapest slacks so far, and what they cost.
#[derive(Drop)]
pub struct Merge {
    pub contraction: ClusterContraction,
    pub slacks: Vec<u32>,
    cost: u64,
}

/// The clusters of what timetables have in common.
fn clusters_of(alloc: Global, network: &Network, pool: &[Found]) -> Result<EventClusters, Memory> {
    let mut slacks = Vec::with_capacity(alloc, pool.len())?;
    for found in pool {
        slacks.push(found.slacks.as_slice())?;
    }
    Ok(common_clusters(alloc, network, &slacks)?)
}

impl Merge {
    /// The network between clusters of a pool, with the slacks of its cheapest timetable; None where there is nothing to search.
    pub fn of(alloc: Global, network: &Network, pool: &[Found]) -> Result<Option<Merge>, Memory> {
        let Some(first) = pool.first() else {
            return Ok(None);
        };
        let clusters = clusters_of(alloc, network, pool)?;
        if clusters.count <= 1 {
            return Ok(None);
        }
        let made = ClusterContraction::new(alloc, network, &first.slacks, &clusters)?;
        let Some(contraction) = made else {
            return Ok(None);
        };
        Ok(Some(Merge {
            slacks: contraction.taken_from(alloc, &first.slacks)?,
            cost: contraction.cost,
            contraction,
        }))
    }

    /// Keeps slacks if they are cheaper.
    pub fn note(&mut self, cost: u64, slacks: &[u32]) {
        if cost < self.cost && slacks.len() == self.slacks.len() {
            self.cost = cost;
            self.slacks.copy_from_slice(slacks);
        }
    }

    /// Puts what was found into the timetable that it was opened with, if it is cheaper.
    pub fn put_into(&self, network: &Network, first: &mut Found) {
        if self.cost < self.contraction.cost {
            self.contraction.put_into(&mut first.slacks, &self.slacks);
            first.cost = cost_of(network, &first.slacks);
        }
    }
}
