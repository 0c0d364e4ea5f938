//! New timetables: dives of several kinds, and anneals behind them.

use crate::batch_work::{FEW, GREEDY, MOST_DIVED};
use crate::search::{Prepared, TimetableSearch};
use pesp_annealing::Annealer;
use pesp_network::Network;
use pesp_problem::Memory;
use pesp_propagate::{dive, dive_to};
use pesp_soft_times::{Start, is_dense};
use pesp_timetables::{Found, Keys, Relaxation, slacks_of};
use std::mem::replace;

/// How many tries a dive to the root's prices has.
const TRIES_NEAR: u32 = 50;

/// Up to how many rows an individual has several dives, however many events there are.
const MOST_DIVED_OFTEN: usize = 400;

/// How many tries a plain dive has on a network of so many rows.
fn tries_for(rows: usize) -> u32 {
    if rows > 20_000 { 1 } else { 100 }
}

/// How many dives of the relaxation an individual has, of which the best is annealed. In a dense network a dive has many offsets to
/// fix.
fn dives_for(network: &Network) -> u32 {
    let rows = network.rows().len();
    if rows <= MOST_DIVED_OFTEN || (rows <= FEW && !is_dense(network)) {
        3
    } else {
        1
    }
}

/// Whether an annealer is cheaper than another one, or there is no other.
fn is_cheaper(one: &Annealer, other: &Option<Annealer>) -> bool {
    match other {
        Some(other) => one.cost() < other.cost(),
        None => true,
    }
}

/// Keeps an annealer where it is cheaper than the one that was kept.
fn keep_cheaper(kept: &mut Option<Annealer>, annealer: Annealer) {
    if is_cheaper(&annealer, kept) {
        drop(replace(kept, Some(annealer)));
    } else {
        drop(annealer);
    }
}

impl TimetableSearch {
    /// A seed.
    pub(crate) fn seed(&mut self) -> u64 {
        self.random.next() >> 40
    }

    /// An annealer from these slacks, after so many greedy rounds.
    pub(crate) fn descended(
        &mut self,
        network: &Network,
        slacks: Vec<u32>,
        rounds: u32,
    ) -> Result<Option<Annealer>, Memory> {
        let seed = self.seed();
        let Some(mut annealer) = Annealer::new(self.alloc, network, slacks, seed)? else {
            return Ok(None);
        };
        match annealer.descend(network, rounds) {
            Ok(()) => Ok(Some(annealer)),
            Err(refused) => {
                drop(annealer);
                Err(refused)
            }
        }
    }

    /// An annealer from these times, after greedy rounds.
    fn started(&mut self, network: &Network, times: &[u32]) -> Result<Option<Annealer>, Memory> {
        let slacks = slacks_of(self.alloc, network, times)?;
        self.descended(network, slacks, GREEDY)
    }

    /// The timetable of an annealer, made cheaper under its offsets where there are few rows.
    fn found_by(&mut self, network: &Network, annealer: &Annealer) -> Result<Found, Memory> {
        let slacks = Vec::from_slice(self.alloc, annealer.slacks())?;
        let found = Found::of_slacks(network, slacks);
        if network.rows().len() > FEW {
            self.note(network, &found)?;
            return Ok(found);
        }
        self.reoptimised(network, found)
    }

    /// The mean cost of a row of the first individual; that of an annealer.
    fn mean_of(&mut self, network: &Network, annealer: &Annealer) -> u64 {
        let rows = u64::try_from(network.rows().len()).unwrap_or(1).max(1);
        let mean = (annealer.cost() / rows).max(1);
        if self.mean == 0 {
            self.mean = mean;
        }
        mean
    }

    /// Times that a dive finds without prices; it is made once.
    pub(crate) fn plain_times(&mut self, network: &Network) -> Result<Option<Vec<u32>>, Memory> {
        if let Prepared::NotYet = self.plain {
            let tries = tries_for(network.rows().len());
            self.plain = Prepared::Sought(dive(self.alloc, network, tries)?);
        }
        match &self.plain {
            Prepared::Sought(Some(times)) => Ok(Some(Vec::from_slice(self.alloc, times)?)),
            _ => Ok(None),
        }
    }

    /// An annealer from the times to which a dive of a relaxation leads, after greedy rounds.
    pub(crate) fn dived(
        &mut self,
        network: &Network,
        relaxation: &mut Relaxation,
    ) -> Result<Option<Annealer>, Memory> {
        match relaxation.times(self.alloc, network, &mut self.random)? {
            Some(times) => self.started(network, &times),
            None => Ok(None),
        }
    }

    /// Dives into a relaxation some times, and keeps the best.
    fn dive_into(
        &mut self,
        network: &Network,
        relaxation: &mut Relaxation,
        best: &mut Option<Annealer>,
    ) -> Result<(), Memory> {
        for _ in 0..dives_for(network) {
            if let Some(annealer) = self.dived(network, relaxation)? {
                keep_cheaper(best, annealer);
            }
        }
        Ok(())
    }

    /// The best of some dives of a relaxation.
    fn best_dived(
        &mut self,
        network: &Network,
        relaxation: &mut Relaxation,
    ) -> Result<Option<Annealer>, Memory> {
        let mut best = None;
        match self.dive_into(network, relaxation, &mut best) {
            Ok(()) => Ok(best),
            Err(refused) => {
                drop(best);
                Err(refused)
            }
        }
    }

    /// The relaxation of the root, which is made once and to be put back; None where there is none.
    fn take_root(&mut self, network: &Network) -> Result<Option<Box<Relaxation>>, Memory> {
        match replace(&mut self.root, Prepared::NotYet) {
            Prepared::Sought(found) => Ok(found),
            Prepared::NotYet => self.new_root(network),
        }
    }

    /// The relaxation of the root; None where there is none.
    fn new_root(&mut self, network: &Network) -> Result<Option<Box<Relaxation>>, Memory> {
        match Relaxation::new(self.alloc, network, Keys::Plain, &mut self.random)? {
            Some(relaxation) => Ok(Some(Box::new(self.alloc, relaxation)?)),
            None => Ok(None),
        }
    }

    /// Puts the relaxation of the root back.
    fn put_root(&mut self, root: Option<Box<Relaxation>>) {
        drop(replace(&mut self.root, Prepared::Sought(root)));
    }

    /// An annealer from times near the prices of a root, after greedy rounds.
    fn near(&mut self, network: &Network, root: &Relaxation) -> Result<Option<Annealer>, Memory> {
        match dive_to(self.alloc, network, root.best.prices(), TRIES_NEAR)? {
            Some(times) => self.started(network, &times),
            None => Ok(None),
        }
    }

    /// The best of some dives of the root's relaxation, or an annealer from times near its prices.
    fn by_root(&mut self, network: &Network, start: Start) -> Result<Option<Annealer>, Memory> {
        let Some(mut root) = self.take_root(network)? else {
            self.put_root(None);
            return Ok(None);
        };
        let found = if start == Start::Relaxed {
            self.best_dived(network, &mut root)
        } else {
            self.near(network, &root)
        };
        self.put_root(Some(root));
        found
    }

    /// The best of some dives of the relaxation over a forest that is drawn.
    fn elsewhere(&mut self, network: &Network) -> Result<Option<Annealer>, Memory> {
        match Relaxation::new(self.alloc, network, Keys::Drawn, &mut self.random)? {
            Some(mut relaxation) => {
                let best = self.best_dived(network, &mut relaxation);
                drop(relaxation);
                best
            }
            None => Ok(None),
        }
    }

    /// A low anneal behind a dive that knew prices.
    fn warmed(
        &mut self,
        network: &Network,
        annealer: &mut Annealer,
        rounds: u32,
    ) -> Result<Found, Memory> {
        let mean = self.mean_of(network, annealer);
        annealer.anneal(network, rounds, mean.saturating_mul(2))?;
        self.found_by(network, annealer)
    }

    /// A hot anneal and a low one behind a dive that knew no prices; the low one alone where there are many rows.
    fn melted(
        &mut self,
        network: &Network,
        annealer: &mut Annealer,
        rounds: u32,
    ) -> Result<Found, Memory> {
        if network.rows().len() > MOST_DIVED {
            return self.warmed(network, annealer, rounds);
        }
        let mean = self.mean_of(network, annealer);
        annealer.anneal(network, rounds, mean.saturating_mul(32))?;
        annealer.anneal(network, rounds / 2, mean.saturating_mul(2))?;
        self.found_by(network, annealer)
    }

    /// Where an individual of a kind begins, after greedy rounds.
    fn begun(&mut self, network: &Network, start: Start) -> Result<Option<Annealer>, Memory> {
        if network.rows().len() > MOST_DIVED {
            return Ok(None);
        }
        match start {
            Start::Relaxed | Start::NearPrices => self.by_root(network, start),
            Start::Elsewhere => self.elsewhere(network),
            Start::Plain => Ok(None),
        }
    }

    /// Where an individual of a plain dive begins, after greedy rounds.
    fn begun_plainly(&mut self, network: &Network) -> Result<Option<Annealer>, Memory> {
        match self.plain_times(network)? {
            Some(times) => self.started(network, &times),
            None => Ok(None),
        }
    }

    /// A new individual of a plain dive.
    fn plain_individual(
        &mut self,
        network: &Network,
        rounds: u32,
    ) -> Result<Option<Found>, Memory> {
        let Some(mut annealer) = self.begun_plainly(network)? else {
            return Ok(None);
        };
        let found = self.melted(network, &mut annealer, rounds);
        drop(annealer);
        let found = found?;
        self.kinds.note(Start::Plain, found.cost);
        Ok(Some(found))
    }

    /// A new individual of a kind, with anneals of so many rounds; one of a plain dive where that kind finds none.
    pub(crate) fn individual(
        &mut self,
        network: &Network,
        start: Start,
        rounds: u32,
    ) -> Result<Option<Found>, Memory> {
        let Some(mut annealer) = self.begun(network, start)? else {
            return self.plain_individual(network, rounds);
        };
        let found = self.warmed(network, &mut annealer, rounds);
        drop(annealer);
        let found = found?;
        self.kinds.note(start, found.cost);
        Ok(Some(found))
    }

    /// A timetable that was met elsewhere, annealed.
    pub(crate) fn adopted(
        &mut self,
        network: &Network,
        met: Found,
        rounds: u32,
    ) -> Result<Option<Found>, Memory> {
        let Some(mut annealer) = self.descended(network, met.slacks, GREEDY)? else {
            return Ok(None);
        };
        let found = self.warmed(network, &mut annealer, rounds);
        drop(annealer);
        Ok(Some(found?))
    }
}
