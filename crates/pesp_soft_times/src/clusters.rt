//! Clusters of events that are moved together.

use pesp_forest::Groups;
use pesp_forest::guarded::{number, set_number};
use pesp_network::Network;
use std::alloc::{AllocError, Global};

/// The cluster of each event, from 0, and how many clusters there are.
#[derive(Drop)]
pub struct EventClusters {
    pub(crate) of: Vec<u32>,
    pub(crate) count: u32,
}

/// No cluster yet.
const NONE: u32 = u32::MAX;

impl EventClusters {
    /// Each event by itself.
    pub(crate) fn apart(alloc: Global, events: u32) -> Result<EventClusters, AllocError> {
        Ok(EventClusters {
            of: (0..events).collect(alloc)?,
            count: events,
        })
    }

    /// The number of a group by its last event; a new one where it has none.
    fn number_of(&mut self, numbers: &mut [u32], last: u32) -> Option<u32> {
        let known = number(numbers, last)?;
        if known != NONE {
            return Some(known);
        }
        let new = self.count;
        set_number(numbers, last, new)?;
        self.count = new.checked_add(1)?;
        Some(new)
    }

    /// Events of a group in one cluster.
    fn of_groups(
        alloc: Global,
        groups: &mut Groups,
        events: u32,
    ) -> Result<EventClusters, AllocError> {
        let mut numbers = vec![in alloc; NONE; events as usize]?;
        let mut clusters = EventClusters {
            of: Vec::with_capacity(alloc, events as usize)?,
            count: 0,
        };
        for event in 0..events {
            let last = groups.last_of(event).unwrap_or(event);
            let cluster = clusters.number_of(&mut numbers, last).unwrap_or(0);
            clusters.of.push(cluster)?;
        }
        Ok(clusters)
    }
}

/// Whether a row has one slack in all of these timetables.
fn is_common(pool: &[&[u32]], place: usize) -> bool {
    let mut slacks = pool.iter().map(|slacks| slacks.get(place).copied());
    let Some(first) = slacks.next() else {
        return true;
    };
    slacks.all(|slack| slack == first)
}

/// The events that rows with one slack in all of these timetables join are in one cluster.
pub(crate) fn common_clusters(
    alloc: Global,
    network: &Network,
    pool: &[&[u32]],
) -> Result<EventClusters, AllocError> {
    let mut groups = Groups::apart(alloc, network.events())?;
    for (place, row) in network.rows().iter().enumerate() {
        if is_common(pool, place) {
            groups.join(row.tail, row.head);
        }
    }
    EventClusters::of_groups(alloc, &mut groups, network.events())
}
