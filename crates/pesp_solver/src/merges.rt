//! Merges: what timetables have in common is contracted, and the rest is searched anew.

use crate::batch_work::{MOST_DIVED, is_near};
use crate::search::TimetableSearch;
use pesp_annealing::Annealer;
use pesp_network::Network;
use pesp_problem::Memory;
use pesp_soft_times::Merge;
use pesp_timetables::{Found, Keys, Relaxation};

/// How many timetables of the pool are annealed between clusters, and how many dives of the relaxation there.
const TRIES: usize = 2;

/// How many timetables of a pool, the cheapest in front, are near the first.
fn count_near(rows: usize, pool: &[Found]) -> usize {
    let least = pool.first().map_or(0, |found| found.cost);
    pool.iter()
        .filter(|found| is_near(rows, found.cost, least))
        .count()
}

impl TimetableSearch {
    /// The heat at which an anneal between clusters begins.
    fn heat(&self) -> u64 {
        self.mean.saturating_mul(2).max(1)
    }

    /// Anneals timetables of the pool between clusters.
    fn anneal_pool(
        &mut self,
        merge: &mut Merge,
        pool: &[Found],
        rounds: u32,
    ) -> Result<(), Memory> {
        for found in pool.iter().take(TRIES) {
            let slacks = merge.contraction.taken_from(self.alloc, &found.slacks)?;
            let network = &merge.contraction.network;
            if let Some(annealer) = self.descended(network, slacks, 0)? {
                self.anneal_between(merge, annealer, rounds)?;
            }
        }
        Ok(())
    }

    /// Anneals, and notes what is found.
    fn anneal_between(
        &mut self,
        merge: &mut Merge,
        mut annealer: Annealer,
        rounds: u32,
    ) -> Result<(), Memory> {
        let annealed = annealer.anneal(&merge.contraction.network, rounds, self.heat());
        merge.note(annealer.cost(), annealer.slacks());
        drop(annealer);
        annealed
    }

    /// Dives into a relaxation, and anneals what is found.
    fn dive_often(
        &mut self,
        merge: &mut Merge,
        relaxation: &mut Relaxation,
        rounds: u32,
    ) -> Result<(), Memory> {
        for _ in 0..TRIES {
            if let Some(annealer) = self.dived(&merge.contraction.network, relaxation)? {
                self.anneal_between(merge, annealer, rounds)?;
            }
        }
        Ok(())
    }

    /// Dives into the relaxation of the network between clusters, and anneals what is found.
    fn dive_between(&mut self, merge: &mut Merge, rounds: u32) -> Result<(), Memory> {
        let network = &merge.contraction.network;
        let found = Relaxation::new(self.alloc, network, Keys::Plain, &mut self.random)?;
        let Some(mut relaxation) = found else {
            return Ok(());
        };
        relaxation.is_drawn = true;
        let done = self.dive_often(merge, &mut relaxation, rounds);
        drop(relaxation);
        done
    }

    /// Searches between the clusters of a merge.
    fn search_between(
        &mut self,
        merge: &mut Merge,
        pool: &[Found],
        rounds: u32,
    ) -> Result<(), Memory> {
        self.anneal_pool(merge, pool, rounds)?;
        if merge.contraction.network.rows().len() <= MOST_DIVED {
            self.dive_between(merge, rounds)?;
        }
        Ok(())
    }

    /// Has a cheaper timetable that agrees with all of a pool, where one is found, in the place of the first.
    fn merge_into_first(
        &mut self,
        network: &Network,
        pool: &mut [Found],
        rounds: u32,
    ) -> Result<(), Memory> {
        let Some(mut merge) = Merge::of(self.alloc, network, pool)? else {
            return Ok(());
        };
        let searched = self.search_between(&mut merge, pool, rounds);
        if let Some(first) = pool.first_mut() {
            merge.put_into(network, first);
        }
        drop(merge);
        searched
    }

    /// The cheapest timetable of a pool, or a cheaper one that agrees with all of it where they agree.
    pub(crate) fn merged(
        &mut self,
        network: &Network,
        mut pool: Vec<Found>,
        rounds: u32,
    ) -> Result<Option<Found>, Memory> {
        pool.sort_unstable_by_key(|found| found.cost);
        pool.truncate(count_near(network.rows().len(), &pool));
        let merged = self.merge_into_first(network, &mut pool, rounds);
        pool.truncate(1);
        let best = pool.pop();
        drop(pool);
        merged?;
        let Some(best) = best else {
            return Ok(None);
        };
        self.note(network, &best)?;
        Ok(Some(best))
    }
}
