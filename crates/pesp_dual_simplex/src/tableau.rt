//! The row of the tableau of what leaves.

use crate::simplex::Simplex;
use pesp_basis::{Member, ONE, add_row, by_whole, change_row, list_numbers, make_zeros, whole};
use pesp_dual::Term;
use std::alloc::AllocError;

impl Simplex {
    /// Adds a coefficient: the row of the inverse of a basic slack, which is listed, or the slack itself.
    fn add_term(&mut self, term: Term) -> Result<(), AllocError> {
        let Some(slack) = self.state.slacks.get(term.row as usize) else {
            return Ok(());
        };
        let number = whole(i64::from(term.coefficient));
        let Some(place) = slack.place else {
            self.alpha.gather(term.row, number);
            return Ok(());
        };
        self.others.push((place, number))?;
        if let Some(row) = self.inverse.get(place as usize) {
            add_row(&mut self.weights, row, term.coefficient);
            self.work = self.work.wrapping_add(row.len() as u64);
        }
        Ok(())
    }

    /// The weights of the coefficients of a line.
    fn weigh_line(&mut self, number: u32) -> Result<(), AllocError> {
        let count = self.terms(number).len();
        for place in 0..count {
            let term = self.terms(number).get(place).copied();
            if let Some(term) = term {
                self.add_term(term)?;
            }
        }
        Ok(())
    }

    /// The weights of a basic slack: its row of the inverse, which is listed.
    fn weigh_slack(&mut self, number: u32) -> Result<(), AllocError> {
        let Some(place) = self.state.place_of(Member::Slack(number)) else {
            return Ok(());
        };
        if let Some(row) = self.inverse.get(place as usize) {
            add_row(&mut self.weights, row, 1);
        }
        self.others.push((place, ONE))?;
        Ok(())
    }

    /// What changes of the inverse take from the weights.
    fn change_weights(&mut self) {
        let work = change_row(&self.state.updates, &self.others, &mut self.weights);
        self.work = self.work.wrapping_add(work);
    }

    /// Takes all tight lines with their weights away.
    fn take_lines(&mut self) {
        for (place, weight) in &self.listed {
            if let Some(number) = self.state.tight.get(*place as usize)
                && let Some(line) = self.lines.get(*number as usize)
            {
                self.alpha.take(&line.terms, *weight);
                self.work = self.work.wrapping_add(line.terms.len() as u64);
            }
        }
    }

    /// The row of the tableau of what leaves: by tight line and by slack at an end.
    pub(crate) fn weigh(&mut self, member: Member) -> Result<(), AllocError> {
        self.weigh_tight(member)?;
        self.take_lines();
        self.alpha.list(&self.state.slacks)
    }

    /// The row of what leaves by tight line alone.
    pub(crate) fn weigh_tight(&mut self, member: Member) -> Result<(), AllocError> {
        make_zeros(&mut self.weights, self.state.tight.len())?;
        self.alpha.wipe();
        self.others.clear();
        match member {
            Member::Slack(number) => self.weigh_slack(number)?,
            Member::Line(number) => self.weigh_line(number)?,
        }
        self.change_weights();
        list_numbers(&mut self.weights, &mut self.listed)
    }

    /// The coefficient of a slack in the row of what was weighed by tight line alone.
    pub(crate) fn coefficient_beside(&self, slack: u32) -> i64 {
        let mut sum = self.alpha.get(slack);
        let Some(column) = self.columns.get(slack as usize) else {
            return sum;
        };
        for entry in &column.entries {
            if let Some(place) = self.state.place_of(Member::Line(entry.line)) {
                let weight = self.weights.get(place as usize).copied().unwrap_or(0);
                sum = sum.wrapping_sub(by_whole(weight, entry.coefficient));
            }
        }
        sum
    }
}
