//! The search for timetables of one network, by a copy of it.

use crate::search::TimetableSearch;
use pesp_clusters::Ordered;
use pesp_network::Network;
use pesp_problem::Memory;
use std::alloc::Global;

/// The search for timetables of one network. It goes by a copy of it; where there are not few rows, events and rows have one order
/// there, so that what it finds doesn't depend on theirs.
#[derive(Drop)]
pub(crate) struct Looking {
    alloc: Global,
    pub(crate) ordered: Ordered,
    pub(crate) search: Box<TimetableSearch>,
}

impl Looking {
    /// A search that has found nothing yet.
    pub(crate) fn at(alloc: Global, network: &Network) -> Result<Looking, Memory> {
        let ordered = Ordered::of(alloc, network)?;
        match TimetableSearch::boxed(alloc, &ordered.network) {
            Ok(search) => Ok(Looking {
                alloc,
                ordered,
                search,
            }),
            Err(refused) => {
                drop(ordered);
                Err(refused)
            }
        }
    }

    /// Takes times that were met elsewhere.
    pub(crate) fn take(&mut self, times: Vec<u32>) -> Result<(), Memory> {
        let placed = self.ordered.to_places(self.alloc, &times)?;
        self.search.take(&self.ordered.network, placed)
    }

    /// The cheapest times that were found.
    pub(crate) fn best(&self) -> Result<Option<Vec<u32>>, Memory> {
        let Some((times, _)) = self.search.best() else {
            return Ok(None);
        };
        Ok(Some(self.ordered.from_places(self.alloc, times)?))
    }
}
