//! The slacks that are being changed.

use crate::choices::Choices;
use crate::heat::Heat;
use crate::steps::Steps;
use pesp_clusters::{Activity, Ends, SlackCrossing, difference_within};
use pesp_forest::Random;
use pesp_forest::guarded::number;
use pesp_network::Network;
use std::alloc::{AllocError, Global};

/// The rows with their slacks, what these cost, and what shifts are chosen with.
#[derive(Drop)]
pub(crate) struct Slacks {
    period: u32,
    rows: Vec<Activity>,
    cost: i64,
    random: Random,
    choices: Choices,
}

impl Slacks {
    /// The rows of a network with these slacks, one for each.
    pub(crate) fn new(
        alloc: Global,
        network: &Network,
        slacks: &[u32],
        seed: u64,
    ) -> Result<Slacks, AllocError> {
        let mut rows = Vec::with_capacity(alloc, slacks.len())?;
        for (row, slack) in network.rows().iter().zip(slacks.iter()) {
            rows.push(Activity::of(row, *slack))?;
        }
        let mut made = Slacks {
            period: network.period(),
            rows,
            cost: 0,
            random: Random::new(seed),
            choices: Choices::none(),
        };
        made.count_cost();
        Ok(made)
    }

    /// Adds up what the slacks cost.
    fn count_cost(&mut self) {
        self.cost = 0;
        for row in self.rows.iter() {
            self.cost = self.cost.wrapping_add(row.cost());
        }
    }

    /// The period.
    pub(crate) fn period(&self) -> u32 {
        self.period
    }

    /// The rows.
    pub(crate) fn rows(&self) -> &[Activity] {
        &self.rows
    }

    /// What the slacks cost.
    pub(crate) fn cost(&self) -> u64 {
        u64::try_from(self.cost).unwrap_or(u64::MAX)
    }

    /// The random numbers.
    pub(crate) fn random(&mut self) -> &mut Random {
        &mut self.random
    }

    /// The rows and the random numbers.
    pub(crate) fn rows_and_random(&mut self) -> (&[Activity], &mut Random) {
        (&self.rows, &mut self.random)
    }

    /// The shifts that are looked at together.
    pub(crate) fn draw_steps(&mut self) -> Steps {
        Steps::draw(self.period, &mut self.random)
    }

    /// Which shifts these rows allow, and what they cost.
    pub(crate) fn choices(
        &mut self,
        steps: &Steps,
        crossings: &[SlackCrossing],
    ) -> Option<&Choices> {
        self.choices.find(steps, &self.rows, crossings)?;
        Some(&self.choices)
    }

    /// Shifts one side of a cut that these rows cross: drawn by weight, or the cheapest.
    pub(crate) fn shift_side(
        &mut self,
        crossings: &[SlackCrossing],
        heat: Option<Heat>,
    ) -> Option<()> {
        let steps = self.draw_steps();
        self.choices.find(&steps, &self.rows, crossings)?;
        let place = match heat {
            Some(heat) => self.choices.drawn(&steps, &heat, &mut self.random),
            None => self.choices.cheapest(&steps),
        };
        if place == steps.idle() {
            return Some(());
        }
        self.cost = self.cost.wrapping_add(self.choices.cost(place));
        let amount = steps.amount(place);
        for crossing in crossings {
            let row = self.rows.get_mut(crossing.row as usize)?;
            row.slack = row.shifted(self.period, amount, crossing.grows);
        }
        Some(())
    }

    /// Shifts all clusters, each by its amount.
    pub(crate) fn shift_all(&mut self, ends: &[Ends], amounts: &[u32]) -> Option<()> {
        for (row, ends) in self.rows.iter_mut().zip(ends.iter()) {
            let head = number(amounts, ends.head)?;
            let tail = number(amounts, ends.tail)?;
            let amount = difference_within(self.period, head, tail);
            row.slack = row.shifted(self.period, amount, true);
        }
        self.count_cost();
        Some(())
    }

    /// Writes the slacks.
    pub(crate) fn write(&self, slacks: &mut [u32]) {
        for (slack, row) in slacks.iter_mut().zip(self.rows.iter()) {
            *slack = row.slack;
        }
    }

    /// Reads the slacks.
    pub(crate) fn read(&mut self, slacks: &[u32]) {
        for (slack, row) in slacks.iter().zip(self.rows.iter_mut()) {
            row.slack = *slack;
        }
        self.count_cost();
    }
}
