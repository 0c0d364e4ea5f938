//! How multipliers and slacks move at an exchange.

use crate::simplex::Simplex;
use pesp_basis::{
    Column, Entering, Leaving, Member, ONE, Sparse, Standing, State, VACANT, by_whole,
    list_numbers, make_zeros, over, products, times,
};
use std::alloc::AllocError;

/// Adds to the number at a place.
fn add_at(numbers: &mut [i64], place: u32, number: i64) {
    if let Some(slot) = numbers.get_mut(place as usize) {
        *slot = slot.wrapping_add(number);
    }
}

/// Takes what a slack that moves adds to tight lines away from what these have to be made up for.
fn spread(column: &Column, sums: &[Standing], needs: &mut [i64], step: i64) {
    for entry in &column.entries {
        if let Some(sum) = sums.get(entry.line as usize)
            && let Some(place) = sum.place
        {
            add_at(
                needs,
                place,
                by_whole(step, entry.coefficient).wrapping_neg(),
            );
        }
    }
}

/// Reduced costs fall by a step times the row of the tableau.
fn move_reduced(state: &mut State, alpha: &Sparse, step: i64) {
    for number in alpha.places() {
        let part = times(step, alpha.get(*number));
        if let Some(slack) = state.slacks.get_mut(*number as usize) {
            slack.price = slack.price.wrapping_sub(part);
        }
    }
}

/// Multipliers fall by a step times the row of the tableau.
fn move_multipliers(state: &mut State, weights: &[(u32, i64)], step: i64) {
    for (place, weight) in weights {
        if let Some(number) = state.tight.get(*place as usize)
            && let Some(sum) = state.sums.get_mut(*number as usize)
        {
            sum.price = sum.price.wrapping_sub(times(step, *weight));
        }
    }
}

/// A slack moves, and all sums that it is in.
fn move_slack(state: &mut State, column: &Column, number: u32, step: i64) {
    if let Some(slack) = state.slacks.get_mut(number as usize) {
        slack.value = slack.value.wrapping_add(step);
    }
    for entry in &column.entries {
        if let Some(sum) = state.sums.get_mut(entry.line as usize) {
            sum.value = sum.value.wrapping_add(by_whole(step, entry.coefficient));
        }
    }
}

impl Simplex {
    /// The coefficient of a slack at an end, or of a tight line, in the row of the tableau.
    pub(crate) fn coefficient_of(&self, member: Member) -> i64 {
        match member {
            Member::Slack(number) => self.alpha.get(number),
            Member::Line(_) => match self.state.place_of(member) {
                Some(place) => self.weights.get(place as usize).copied().unwrap_or(0),
                None => 0,
            },
        }
    }

    /// Multipliers and reduced costs move until that of what enters is 0.
    pub(crate) fn move_prices(&mut self, leaving: Leaving, entering: Entering) {
        let step = leaving.signed(entering.ratio);
        move_reduced(&mut self.state, &self.alpha, step);
        move_multipliers(&mut self.state, &self.listed, step);
        self.state.set_price(leaving.member, step);
        self.state.set_price(entering.member, 0);
        self.state.value = self.state.value.saturating_add(entering.gain);
    }

    /// Moves a slack at an end, or the bound of a tight line.
    fn push_member(&mut self, member: Member, step: i64) -> Result<(), AllocError> {
        match member {
            Member::Slack(number) => {
                self.moves.add(number, step)?;
                if let Some(column) = self.columns.get(number as usize) {
                    spread(column, &self.state.sums, &mut self.numbers, step);
                }
            }
            Member::Line(_) => {
                if let Some(place) = self.state.place_of(member) {
                    add_at(&mut self.numbers, place, step);
                }
            }
        }
        Ok(())
    }

    /// A candidate goes to its other end; what that adds to what leaves.
    fn flip(&mut self, at: usize) -> Result<i64, AllocError> {
        let Some(candidate) = self.candidates.get(at).copied() else {
            return Ok(0);
        };
        let member = candidate.member;
        let is_up = self.state.is_up(member);
        let range = self.range_of(member);
        let step = if is_up { range.wrapping_neg() } else { range };
        self.state.set_end(member, !is_up);
        self.push_member(member, step)?;
        Ok(times(self.coefficient_of(member), step))
    }

    /// The inverse times the numbers, into `factors`.
    pub(crate) fn multiply(&mut self) -> Result<(), AllocError> {
        list_numbers(&mut self.numbers, &mut self.others)?;
        products(&self.inverse, &self.others, &mut self.factors)?;
        self.factors.resize(self.state.basic.len(), 0)?;
        let rows = self.inverse.len() as u64;
        self.work = self
            .work
            .wrapping_add(rows.wrapping_mul(self.others.len() as u64));
        self.change_factors();
        Ok(())
    }

    /// Moves the basic slacks by a step times the factors.
    fn move_basic(&mut self, step: i64) -> Result<(), AllocError> {
        self.moves.add_times(&self.state.basic, &self.factors, step)
    }

    /// Candidates go to their other end, and basic slacks move so that tight lines stay tight; what that adds to what leaves.
    fn flip_all(&mut self, count: usize) -> Result<i64, AllocError> {
        if count == 0 {
            return Ok(0);
        }
        make_zeros(&mut self.numbers, self.state.tight.len())?;
        let mut sum = 0i64;
        for at in 0..count {
            sum = sum.wrapping_add(self.flip(at)?);
        }
        self.multiply()?;
        self.move_basic(ONE)?;
        Ok(sum)
    }

    /// What enters moves, and the basic slacks so that tight lines stay tight; its column is in `factors` then.
    fn move_entering(&mut self, member: Member, step: i64) -> Result<(), AllocError> {
        match member {
            Member::Slack(number) => {
                self.read_slack(number)?;
                self.moves.add(number, step)?;
                self.move_basic(step.wrapping_neg())
            }
            Member::Line(_) => {
                let place = self.state.place_of(member);
                self.read_line(place.unwrap_or(VACANT))?;
                self.move_basic(step)
            }
        }
    }

    /// Slacks move as they are listed.
    fn move_listed(&mut self) {
        for number in self.moves.places() {
            let step = self.moves.get(*number);
            if let Some(column) = self.columns.get(*number as usize) {
                move_slack(&mut self.state, column, *number, step);
                self.work = self.work.wrapping_add(column.entries.len() as u64);
            }
        }
        self.moves.clear();
    }

    /// Slacks move: those that go to their other end, what enters, whose column is in `factors` then, and the basic ones.
    pub(crate) fn move_slacks(
        &mut self,
        leaving: Leaving,
        entering: Entering,
    ) -> Result<(), AllocError> {
        self.moves.clear();
        let flipped = self.flip_all(entering.flips)?;
        let need = leaving.missing.wrapping_sub(flipped);
        let step = over(need, self.coefficient_of(entering.member));
        self.move_entering(entering.member, step)?;
        self.move_listed();
        Ok(())
    }
}
