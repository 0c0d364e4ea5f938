//! Slacks that are made cheaper.

use crate::heat::Heat;
use crate::rounds::Rounds;
use crate::slacks::Slacks;
use pesp_network::Network;
use pesp_problem::Memory;
use std::alloc::Global;

/// How many rounds in turn may find nothing before a descent ends.
const QUIET: u32 = 2;

/// Slacks that are being made cheaper: the best ones that were met, what they cost, and the ones that are in use.
#[derive(Drop)]
pub struct Annealer {
    slacks: Vec<u32>,
    cost: u64,
    rounds: Rounds,
}

/// Whether there is one slack within its span for each row of a network.
fn are_slacks(network: &Network, slacks: &[u32]) -> bool {
    network.rows().len() == slacks.len()
        && network
            .rows()
            .iter()
            .zip(slacks.iter())
            .all(|(row, slack)| *slack <= row.span)
}

impl Annealer {
    /// Slacks of a timetable of a network, one a row; None where there isn't one slack within its span for each row.
    pub fn new(
        alloc: Global,
        network: &Network,
        slacks: Vec<u32>,
        seed: u64,
    ) -> Result<Option<Annealer>, Memory> {
        if !are_slacks(network, &slacks) {
            return Ok(None);
        }
        let moving = Slacks::new(alloc, network, &slacks, seed)?;
        Ok(Some(Annealer {
            slacks,
            cost: moving.cost(),
            rounds: Rounds::new(alloc, network.events(), moving)?,
        }))
    }

    /// Whether a network may be the one whose slacks these are.
    fn fits(&self, network: &Network) -> bool {
        network.period() == self.rounds.slacks.period()
            && network.events() == self.rounds.events()
            && network.rows().len() == self.slacks.len()
    }

    /// Takes the slacks in use for the best where they are cheaper.
    fn keep(&mut self) {
        let cost = self.rounds.slacks.cost();
        if cost < self.cost {
            self.cost = cost;
            self.rounds.slacks.write(&mut self.slacks);
        }
    }

    /// Makes a round and keeps what is cheaper than the best; whether the slacks in use became cheaper.
    fn make(&mut self, heat: Option<Heat>) -> Result<bool, Memory> {
        let before = self.rounds.slacks.cost();
        self.rounds.make(heat)?;
        self.keep();
        Ok(self.rounds.slacks.cost() < before)
    }

    /// Makes rounds from the slacks in use in which only shifts that cost no more are made: at most so many, and none after
    /// two in turn found nothing.
    fn cool(&mut self, rounds: u32) -> Result<(), Memory> {
        let mut quiet = 0u32;
        for _ in 0..rounds {
            quiet = if self.make(None)? {
                0
            } else {
                quiet.wrapping_add(1)
            };
            if quiet >= QUIET {
                break;
            }
        }
        Ok(())
    }

    /// Rounds in which only shifts that cost no more are made: at most so many, and none after two in turn found nothing.
    pub fn descend(&mut self, network: &Network, rounds: u32) -> Result<(), Memory> {
        if !self.fits(network) {
            return Ok(());
        }
        self.rounds.slacks.read(&self.slacks);
        self.cool(rounds)
    }

    /// So many rounds in which dearer shifts are made too, the less likely the dearer they are: one is half as likely as one
    /// that is cheaper by `heat`, which is halved through five octaves. Then rounds follow in which only shifts that cost no
    /// more are made, until two in turn find nothing: at most 8, or 4 where there are more than 30,000 rows. They go on from
    /// the last slacks, and where these don't become the best that were met, as many more from the best.
    pub fn anneal(&mut self, network: &Network, rounds: u32, heat: u64) -> Result<(), Memory> {
        if !self.fits(network) {
            return Ok(());
        }
        self.rounds.slacks.read(&self.slacks);
        for round in 0..rounds {
            self.make(Some(Heat::in_round(heat, round, rounds)))?;
        }
        let last = if self.slacks.len() > 30_000 { 4 } else { 8 };
        self.cool(last)?;
        if self.cost < self.rounds.slacks.cost() {
            self.descend(network, last)?;
        }
        Ok(())
    }

    /// What the slacks cost: the sum of weight times slack.
    pub fn cost(&self) -> u64 {
        self.cost
    }

    /// The slacks, one a row.
    pub fn slacks(&self) -> &[u32] {
        &self.slacks
    }
}
