//! Events in clusters that are shifted as a whole.

use crate::activity::{Activity, SlackCrossing};
use crate::lists::Lists;
use pesp_forest::Groups;
use pesp_forest::guarded::{number, set_number};
use std::alloc::{AllocError, Global};

/// The clusters of a row's tail and head.
#[derive(Clone, Copy)]
pub struct Ends {
    pub tail: u32,
    pub head: u32,
}

/// Clusters, into which the first rows of a forest join events: how many of these rows, how many clusters, the cluster of
/// each event, those of each row's ends, and the rows between two clusters at each of the two.
#[derive(Drop)]
pub struct Clusters {
    groups: Groups,
    joined: usize,
    count: u32,
    cluster: Vec<u32>,
    ends: Vec<Ends>,
    star: Lists,
}

impl Clusters {
    /// Room for clusters of so many events, and for so many rows.
    pub fn new(alloc: Global, events: u32, rows: usize) -> Result<Clusters, AllocError> {
        let nowhere = Ends { tail: 0, head: 0 };
        Ok(Clusters {
            groups: Groups::apart(alloc, events)?,
            joined: 0,
            count: 0,
            cluster: vec![in alloc; 0u32; events as usize]?,
            ends: vec![in alloc; nowhere; rows]?,
            star: Lists::new(alloc, events as usize, rows.saturating_mul(2))?,
        })
    }

    /// How many clusters there are.
    pub fn count(&self) -> u32 {
        self.count
    }

    /// The clusters of the rows' ends.
    pub fn ends(&self) -> &[Ends] {
        &self.ends
    }

    /// The rows between a cluster and others.
    pub fn star(&self, cluster: u32) -> Option<&[SlackCrossing]> {
        self.star.of(cluster)
    }

    /// The cluster at the other end of a row, seen from one of the two.
    pub fn beyond(&self, crossing: &SlackCrossing) -> Option<u32> {
        let ends = self.ends.get(crossing.row as usize)?;
        Some(if crossing.grows { ends.tail } else { ends.head })
    }

    /// Makes a cluster of each event.
    pub fn part(&mut self) {
        self.groups.part();
        self.joined = 0;
    }

    /// Joins by the first rows of a forest, so many of them.
    pub fn join(&mut self, rows: &[Activity], forest: &[u32], most: usize) -> Option<()> {
        for place in forest.get(self.joined..most)? {
            let row = rows.get(*place as usize)?;
            self.groups.join(row.tail, row.head)?;
        }
        self.joined = most;
        Some(())
    }

    /// Numbers the clusters by their last events.
    fn number_last(&mut self) -> Option<()> {
        self.count = 0;
        for event in 0..self.cluster.len() {
            let event = u32::try_from(event).ok()?;
            if self.groups.last_of(event)? == event {
                set_number(&mut self.cluster, event, self.count)?;
                self.count = self.count.wrapping_add(1);
            }
        }
        Some(())
    }

    /// Numbers the clusters and gives each event its cluster's number.
    fn number(&mut self) -> Option<()> {
        self.number_last()?;
        for event in 0..self.cluster.len() {
            let event = u32::try_from(event).ok()?;
            let last = self.groups.last_of(event)?;
            let cluster = number(&self.cluster, last)?;
            set_number(&mut self.cluster, event, cluster)?;
        }
        Some(())
    }

    /// Counts the rows between two clusters.
    fn count_rows(&mut self, rows: &[Activity]) -> Option<()> {
        self.star.clear();
        for (ends, row) in self.ends.iter_mut().zip(rows.iter()) {
            let tail = number(&self.cluster, row.tail)?;
            let head = number(&self.cluster, row.head)?;
            *ends = Ends { tail, head };
            if tail != head {
                self.star.count(tail)?;
                self.star.count(head)?;
            }
        }
        self.star.lay_out();
        Some(())
    }

    /// Numbers the clusters and lists the rows between them.
    pub fn list(&mut self, rows: &[Activity]) -> Option<()> {
        self.number()?;
        self.count_rows(rows)?;
        let mut row = 0u32;
        for ends in self.ends.iter() {
            if ends.tail != ends.head {
                self.star.put(ends.tail, row, false)?;
                self.star.put(ends.head, row, true)?;
            }
            row = row.wrapping_add(1);
        }
        Some(())
    }
}
