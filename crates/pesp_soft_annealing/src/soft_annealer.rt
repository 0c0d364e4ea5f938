//! Slacks that are made cheaper, softly and then hard.

use crate::components::Components;
use crate::moving::Moving;
use crate::plan::{AnnealPlan, Cooling};
use crate::settings::{
    LAST_FORESTS, LAST_SWEEPS, MENDING_SWEEPS, MENDING_SWEEPS_OF_A_FOREST, SWEEPS_OF_A_FOREST,
    SWEEPS_OF_A_HEAT,
};
use pesp_annealing::Heat;
use pesp_clusters::{Bent, DrawnForest};
use pesp_network::Network;
use pesp_problem::Memory;
use std::alloc::{AllocError, Global};

/// Slacks that are being made cheaper: those that stand, what they cost, and those that are being changed.
#[derive(Drop)]
pub struct SoftAnnealer {
    slacks: Vec<u32>,
    cost: u64,
    moving: Moving,
    forest: DrawnForest,
    components: Components,
}

/// Whether there is one slack below the period for each row of a network.
fn are_slacks(network: &Network, slacks: &[u32]) -> bool {
    network.rows().len() == slacks.len() && slacks.iter().all(|slack| *slack < network.period())
}

impl SoftAnnealer {
    /// Slacks of times of a network, one a row; None where there isn't one below the period for each row.
    pub fn new(
        alloc: Global,
        network: &Network,
        slacks: &[u32],
        seed: u64,
    ) -> Result<Option<SoftAnnealer>, Memory> {
        if !are_slacks(network, slacks) {
            return Ok(None);
        }
        let moving = Moving::new(alloc, network, slacks, seed)?;
        let events = network.events();
        let rows = slacks.len();
        Ok(Some(SoftAnnealer {
            slacks: Vec::from_slice(alloc, slacks)?,
            cost: moving.cost(),
            components: Components::new(alloc, moving.rows(), network.period(), events)?,
            forest: DrawnForest::new(alloc, events, rows)?,
            moving,
        }))
    }

    /// Goes on from other slacks, if there are as many.
    pub fn set(&mut self, slacks: &[u32]) {
        if slacks.len() == self.slacks.len() {
            self.moving.read(slacks);
            self.keep();
        }
    }

    /// Takes the slacks in use.
    fn keep(&mut self) {
        self.moving.write(&mut self.slacks);
        self.cost = self.moving.cost();
    }

    /// Draws a forest of a bent that is drawn, and lists its components.
    fn draw_forest(&mut self) -> Result<(), AllocError> {
        let (rows, random) = self.moving.rows_and_random();
        let bent = match random.below(3) {
            0 => Bent::Balanced,
            1 => Bent::Span,
            _ => Bent::Slack,
        };
        self.forest.draw(rows, bent, random);
        self.components
            .list(self.moving.rows(), self.forest.rows())?;
        self.components.shuffle(self.moving.random());
        Ok(())
    }

    /// Visits all components softly.
    fn sweep_softly(&mut self) {
        self.moving.begin_softly();
        for part in self.components.parts() {
            if let Some(crossings) = self.components.of(part) {
                self.moving.visit_softly(crossings, part.falling());
            }
        }
        self.moving.end_softly();
    }

    /// Visits all components, with spans held.
    fn sweep_hard(&mut self, heat: Option<Heat>) {
        for part in self.components.parts() {
            if let Some(crossings) = self.components.of(part) {
                self.moving.visit_hard(crossings, heat);
            }
        }
    }

    /// The sweeps of an anneal in which rows may be broken from one number to another. `mean` is the mean cost of a row.
    pub fn soften(
        &mut self,
        mean: u64,
        plan: &AnnealPlan,
        from: u32,
        to: u32,
    ) -> Result<(), Memory> {
        for sweep in from..to {
            if sweep % SWEEPS_OF_A_FOREST == 0 {
                self.draw_forest()?;
            }
            if sweep % SWEEPS_OF_A_HEAT == 0 {
                let heat = plan.soft.heat(mean, sweep);
                self.moving.set_heat(heat, plan.price(mean, sweep));
            }
            self.sweep_softly();
        }
        Ok(())
    }

    /// Sweeps until no row is broken, at prices that are doubled for those that are; whether no row stays broken.
    pub fn mend(&mut self) -> Result<bool, Memory> {
        for sweep in 0..MENDING_SWEEPS {
            if !self.moving.double_broken() {
                break;
            }
            if sweep % MENDING_SWEEPS_OF_A_FOREST == 0 {
                self.draw_forest()?;
            }
            self.sweep_softly();
        }
        self.moving.count_cost();
        self.keep();
        Ok(self.moving.is_whole())
    }

    /// Takes the slacks in use where they are cheaper.
    fn keep_cheaper(&mut self) {
        if self.moving.cost() < self.cost {
            self.keep();
        }
    }

    /// Sweeps in which only shifts that cost no more are made.
    pub fn descend(&mut self) -> Result<(), Memory> {
        for sweep in 0..LAST_FORESTS.saturating_mul(LAST_SWEEPS) {
            if sweep % LAST_SWEEPS == 0 {
                self.draw_forest()?;
            }
            self.sweep_hard(None);
        }
        self.keep_cheaper();
        Ok(())
    }

    /// The sweeps of an anneal in which spans hold from one number to another. The cheapest slacks of the last quarter or of the end
    /// stand.
    pub fn harden(
        &mut self,
        mean: u64,
        cooling: &Cooling,
        from: u32,
        to: u32,
    ) -> Result<(), Memory> {
        for sweep in from..to {
            if sweep % SWEEPS_OF_A_FOREST == 0 {
                self.draw_forest()?;
            }
            self.sweep_hard(Some(Heat::of(cooling.heat(mean, sweep))));
            if sweep >= cooling.sweeps - cooling.sweeps / 4 {
                self.keep_cheaper();
            }
        }
        Ok(())
    }

    /// What the slacks cost: the sum of weight times slack.
    pub fn cost(&self) -> u64 {
        self.cost
    }

    /// The slacks, one a row.
    pub fn slacks(&self) -> &[u32] {
        &self.slacks
    }
}
