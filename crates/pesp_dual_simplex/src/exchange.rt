//! The four cases of an exchange: how the inverse changes, each time by a column times a row. What comes in has a new place, and
//! what goes leaves its own vacant, so that nothing is lost by rounding.

use crate::bordering::turn;
use crate::simplex::Simplex;
use pesp_basis::{Entering, Leaving, Member, ONE, Update, over, read_column, scale_all, set_at};
use std::alloc::AllocError;

/// The number at a place; 0 where there is none.
fn number_at(numbers: &[i64], place: u32) -> i64 {
    numbers.get(place as usize).copied().unwrap_or(0)
}

impl Simplex {
    /// The column of the inverse of a tight line, into `factors`.
    pub(crate) fn read_line(&mut self, place: u32) -> Result<(), AllocError> {
        read_column(&self.inverse, place, &mut self.factors)?;
        self.factors.resize(self.state.basic.len(), 0)?;
        self.others.clear();
        self.others.push((place, ONE))?;
        self.change_factors();
        Ok(())
    }

    /// Puts the factors times the weights among the changes of the inverse.
    fn put_update(&mut self) -> Result<(), AllocError> {
        let update = Update::of(self.alloc, &self.factors, &self.weights)?;
        self.work = self.work.wrapping_add(update.size());
        self.state.updates.push(update)?;
        Ok(())
    }

    /// A line becomes tight, and a slack of which it has this coefficient basic.
    fn grow(&mut self, line: u32, slack: u32, coefficient: i64) -> Result<(), AllocError> {
        let inverse = over(ONE, coefficient);
        turn(&mut self.factors, inverse);
        self.factors.push(inverse)?;
        self.weights.push(-ONE)?;
        self.put_update()?;
        self.state.push_slack(slack)?;
        self.state.push_line(line)
    }

    /// A line becomes tight, and another one no longer is.
    fn change_lines(&mut self, line: u32, other: u32) -> Result<(), AllocError> {
        let Some(place) = self.state.place_of(Member::Line(other)) else {
            return Ok(());
        };
        let inverse = over(ONE, number_at(&self.weights, place));
        scale_all(&mut self.factors, inverse);
        self.weights.push(-ONE)?;
        self.put_update()?;
        self.state.vacate(Member::Line(other));
        self.state.push_line(line)
    }

    /// A slack becomes basic, and another one no longer is.
    fn change_slacks(&mut self, slack: u32, other: u32) -> Result<(), AllocError> {
        let Some(place) = self.state.place_of(Member::Slack(other)) else {
            return Ok(());
        };
        let inverse = over(ONE, number_at(&self.factors, place));
        scale_all(&mut self.weights, inverse);
        self.factors.push(-ONE)?;
        self.put_update()?;
        self.state.vacate(Member::Slack(other));
        self.state.push_slack(slack)
    }

    /// A line is tight no longer, nor a slack basic.
    fn shrink(&mut self, slack: u32, line: u32) -> Result<(), AllocError> {
        let Some(row) = self.state.place_of(Member::Slack(slack)) else {
            return Ok(());
        };
        let inverse = over(ONE, number_at(&self.factors, row));
        scale_all(&mut self.factors, inverse);
        set_at(&mut self.factors, row, ONE);
        self.put_update()?;
        self.state.vacate(Member::Slack(slack));
        self.state.vacate(Member::Line(line));
        Ok(())
    }

    /// What leaves and what enters, whose column is in `factors`, change places.
    pub(crate) fn exchange(
        &mut self,
        leaving: Leaving,
        entering: Entering,
    ) -> Result<(), AllocError> {
        let is_up = leaving.missing < 0;
        self.state.set_end(leaving.member, is_up);
        match (leaving.member, entering.member) {
            (Member::Line(line), Member::Slack(slack)) => {
                let coefficient = self.alpha.get(slack);
                self.grow(line, slack, coefficient)
            }
            (Member::Line(line), Member::Line(other)) => self.change_lines(line, other),
            (Member::Slack(other), Member::Slack(slack)) => self.change_slacks(slack, other),
            (Member::Slack(slack), Member::Line(line)) => self.shrink(slack, line),
        }
    }
}
