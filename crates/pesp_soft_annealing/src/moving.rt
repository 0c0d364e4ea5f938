//! The slacks that are being changed.

use crate::charts::Charts;
use crate::curve::Curve;
use crate::scale::Scale;
use crate::shifts::{CostlyShifts, in_units};
use crate::tent::Tent;
use pesp_annealing::{Choices, Heat, Steps};
use pesp_clusters::{Activity, SlackCrossing, difference_within, sum_within};
use pesp_forest::Random;
use pesp_network::Network;
use std::alloc::{AllocError, Global};

/// The rows with their slacks and tents, what the slacks cost while none is above its span, and what shifts are chosen with.
#[derive(Drop)]
pub(crate) struct Moving {
    period: u32,
    rows: Vec<Activity>,
    slacks: Vec<u32>,
    tents: Vec<Tent>,
    scale: Scale,
    charts: Charts,
    cost: i64,
    random: Random,
    choices: Choices,
    curve: Curve,
    shifts: CostlyShifts,
}

impl Moving {
    /// The rows of a network with these slacks, one for each.
    pub(crate) fn new(
        alloc: Global,
        network: &Network,
        slacks: &[u32],
        seed: u64,
    ) -> Result<Moving, AllocError> {
        let period = network.period();
        let charts = Charts::new(alloc, period, slacks.len())?;
        let mut rows = Vec::with_capacity(alloc, slacks.len())?;
        let mut tents = Vec::with_capacity(alloc, slacks.len())?;
        for (row, slack) in network.rows().iter().zip(slacks.iter()) {
            let row = Activity::of(row, *slack);
            rows.push(row)?;
            tents.push(Tent::of(period, &row))?;
        }
        let mut made = Moving {
            period,
            rows,
            slacks: Vec::from_slice(alloc, slacks)?,
            tents,
            scale: Scale::of(1),
            charts,
            cost: 0,
            random: Random::new(seed),
            choices: Choices::none(),
            curve: Curve::new(period),
            shifts: CostlyShifts::new(period),
        };
        made.count_cost();
        Ok(made)
    }

    /// Adds up what the slacks cost.
    pub(crate) fn count_cost(&mut self) {
        self.cost = 0;
        for row in self.rows.iter() {
            self.cost = self.cost.wrapping_add(row.cost());
        }
    }

    /// What the slacks cost.
    pub(crate) fn cost(&self) -> u64 {
        u64::try_from(self.cost).unwrap_or(u64::MAX)
    }

    /// The rows.
    pub(crate) fn rows(&self) -> &[Activity] {
        &self.rows
    }

    /// The random numbers.
    pub(crate) fn random(&mut self) -> &mut Random {
        &mut self.random
    }

    /// The rows and the random numbers.
    pub(crate) fn rows_and_random(&mut self) -> (&[Activity], &mut Random) {
        (&self.rows, &mut self.random)
    }

    /// Makes a shift of what these rows cross.
    fn make(&mut self, crossings: &[SlackCrossing], steps: &Steps, place: u32) -> Option<()> {
        if place == steps.idle() {
            return Some(());
        }
        let amount = steps.amount(place);
        for crossing in crossings {
            let row = self.rows.get_mut(crossing.row as usize)?;
            row.slack = row.shifted(self.period, amount, crossing.grows);
        }
        Some(())
    }

    /// Draws one of all shifts in a long period, by weight.
    fn visit_long(&mut self, crossings: &[SlackCrossing]) -> Option<()> {
        let steps = Steps::draw(self.period, &mut self.random);
        let mut costs = [0i64; 64];
        self.curve.find(&steps, &self.rows, &self.tents, crossings)?;
        self.curve.write(&mut costs);
        let units = in_units(&costs, &self.scale);
        let place = self.shifts.draw(units, &mut self.random)?;
        self.make(crossings, &steps, place)
    }

    /// Shifts slacks of a short period by an amount.
    fn shift(&mut self, crossings: &[SlackCrossing], amount: u32) -> Option<()> {
        for crossing in crossings {
            let slack = self.slacks.get_mut(crossing.row as usize)?;
            *slack = if crossing.grows {
                sum_within(self.period, *slack, amount)
            } else {
                difference_within(self.period, *slack, amount)
            };
        }
        Some(())
    }

    /// Draws one of all shifts, by weight. The rows between two places fall, the others grow.
    pub(crate) fn visit_softly(
        &mut self,
        crossings: &[SlackCrossing],
        falling: (u32, u32),
    ) -> Option<()> {
        if self.period > 64 {
            return self.visit_long(crossings);
        }
        let costs = self
            .shifts
            .find(&self.charts, &self.slacks, crossings, falling);
        let place = self.shifts.draw(costs, &mut self.random)?;
        let amount = sum_within(self.period, 0, place);
        if amount == 0 || amount >= self.period {
            return Some(());
        }
        self.shift(crossings, amount)
    }

    /// Begins soft visits: slacks of a short period stand in a list of their own for them.
    pub(crate) fn begin_softly(&mut self) {
        for (slack, row) in self.slacks.iter_mut().zip(self.rows.iter()) {
            *slack = row.slack;
        }
    }

    /// Ends soft visits.
    pub(crate) fn end_softly(&mut self) {
        if self.period > 64 {
            return;
        }
        for (slack, row) in self.slacks.iter().zip(self.rows.iter_mut()) {
            row.slack = *slack;
        }
    }

    /// Draws one of the shifts that keep all spans, by weight, or takes the cheapest.
    pub(crate) fn visit_hard(
        &mut self,
        crossings: &[SlackCrossing],
        heat: Option<Heat>,
    ) -> Option<()> {
        let steps = Steps::draw(self.period, &mut self.random);
        self.choices.find(&steps, &self.rows, crossings)?;
        if !self.choices.are_several(&steps) {
            return Some(());
        }
        let place = match heat {
            Some(heat) => self.choices.drawn(&steps, &heat, &mut self.random),
            None => self.choices.cheapest(&steps),
        };
        self.cost = self.cost.wrapping_add(self.choices.cost(place));
        self.make(crossings, &steps, place)
    }

    /// Sets the heat, and the price of all rows.
    pub(crate) fn set_heat(&mut self, heat: u64, price: u64) {
        self.scale = Scale::of(heat);
        let mut place = 0u32;
        for (row, tent) in self.rows.iter().zip(self.tents.iter_mut()) {
            tent.set_price(price);
            self.charts.set(place, row, tent, &self.scale);
            place = place.wrapping_add(1);
        }
    }

    /// Doubles the prices of the rows that are broken; whether there are some.
    pub(crate) fn double_broken(&mut self) -> bool {
        let mut are_broken = false;
        let mut place = 0u32;
        for (row, tent) in self.rows.iter().zip(self.tents.iter_mut()) {
            if row.slack > row.span {
                tent.double_price();
                self.charts.set(place, row, tent, &self.scale);
                are_broken = true;
            }
            place = place.wrapping_add(1);
        }
        are_broken
    }

    /// Whether no row is broken.
    pub(crate) fn is_whole(&self) -> bool {
        self.rows.iter().all(|row| row.slack <= row.span)
    }

    /// Writes the slacks.
    pub(crate) fn write(&self, slacks: &mut [u32]) {
        for (slack, row) in slacks.iter_mut().zip(self.rows.iter()) {
            *slack = row.slack;
        }
    }

    /// Reads the slacks.
    pub(crate) fn read(&mut self, slacks: &[u32]) {
        for (slack, row) in slacks.iter().zip(self.rows.iter_mut()) {
            row.slack = *slack;
        }
        self.count_cost();
    }
}
