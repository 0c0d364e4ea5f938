//! Networks between clusters of events.

use crate::clusters::EventClusters;
use pesp_forest::guarded::number;
use pesp_network::{NetRefusal, NetRow, Network};
use pesp_problem::Memory;
use std::alloc::{AllocError, Global};

/// A network between clusters, in which the times that are 0 for each cluster give the slacks of a timetable; the rows of the
/// whole network that its rows stand for; and what that timetable costs in them.
#[derive(Drop)]
pub struct ClusterContraction {
    pub network: Network,
    pub cost: u64,
    rows: Vec<u32>,
}

/// A row between its clusters, with a slack of a timetable; None where both ends are in one.
fn row_between(row: &NetRow, clusters: &EventClusters, slack: u32) -> Option<NetRow> {
    let tail = number(&clusters.of, row.tail)?;
    let head = number(&clusters.of, row.head)?;
    if tail == head {
        return None;
    }
    Some(NetRow {
        tail,
        head,
        lower: i64::from(slack).checked_neg()?,
        ..*row
    })
}

impl ClusterContraction {
    /// The network between clusters by a timetable's slacks.
    pub fn new(
        alloc: Global,
        network: &Network,
        slacks: &[u32],
        clusters: &EventClusters,
    ) -> Result<Option<ClusterContraction>, Memory> {
        let mut between = Vec::new(alloc);
        let mut rows = Vec::new(alloc);
        let mut cost = 0u64;
        for (place, row) in network.rows().iter().enumerate() {
            let slack = slacks.get(place).copied().unwrap_or(0);
            if let Some(kept) = row_between(row, clusters, slack) {
                cost = cost.saturating_add(row.weight.saturating_mul(u64::from(slack)));
                between.push(kept)?;
                rows.push(u32::try_from(place).unwrap_or(u32::MAX))?;
            }
        }
        match Network::new(alloc, network.period(), clusters.count, between) {
            Ok(network) => Ok(Some(ClusterContraction {
                network,
                cost,
                rows,
            })),
            Err(NetRefusal::Memory) => Err(Memory),
            Err(_) => Ok(None),
        }
    }

    /// The slacks of the rows between clusters, of those of all rows.
    pub fn taken_from(&self, alloc: Global, slacks: &[u32]) -> Result<Vec<u32>, AllocError> {
        let mut taken = Vec::with_capacity(alloc, self.rows.len())?;
        for row in &self.rows {
            taken.push(number(slacks, *row).unwrap_or(0))?;
        }
        Ok(taken)
    }

    /// Puts slacks of the rows between clusters into those of all rows.
    pub fn put_into(&self, slacks: &mut [u32], found: &[u32]) {
        for (row, slack) in self.rows.iter().zip(found.iter()) {
            if let Some(slot) = slacks.get_mut(*row as usize) {
                *slot = *slack;
            }
        }
    }
}
