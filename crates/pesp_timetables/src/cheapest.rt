//! The cheapest timetable that was met.

use crate::found::{Found, times_of};
use pesp_network::Network;
use pesp_problem::Memory;
use std::alloc::Global;

/// The times of a timetable, its slacks, and what it costs.
#[derive(Drop)]
struct BestSlacks {
    times: Vec<u32>,
    found: Found,
}

/// The cheapest timetable that was met, where there is one.
#[derive(Drop)]
pub struct Cheapest {
    best: Option<BestSlacks>,
}

impl Cheapest {
    /// None was met.
    pub fn none() -> Cheapest {
        Cheapest { best: None }
    }

    /// The timetable.
    pub fn found(&self) -> Option<&Found> {
        Some(&self.best.as_ref()?.found)
    }

    /// What it costs.
    pub fn cost(&self) -> Option<u64> {
        Some(self.found()?.cost)
    }

    /// Its times, and what it costs.
    pub fn times(&self) -> Option<(&[u32], u64)> {
        let best = self.best.as_ref()?;
        Some((&best.times, best.found.cost))
    }

    /// Whether it is dearer than another one, or there is none.
    pub fn is_dearer(&self, cost: u64) -> bool {
        match self.cost() {
            Some(least) => least > cost,
            None => true,
        }
    }

    /// Keeps a timetable if it is the cheapest so far.
    pub fn note(&mut self, alloc: Global, network: &Network, found: &Found) -> Result<(), Memory> {
        if !self.is_dearer(found.cost) {
            return Ok(());
        }
        let Some(times) = times_of(alloc, network, &found.slacks)? else {
            return Ok(());
        };
        if network.is_timetable(&times) && network.cost_of(&times) == found.cost {
            let found = found.copy(alloc)?;
            self.best = Some(BestSlacks { times, found });
        }
        Ok(())
    }
}
