//! The values and the prices of slacks and of lines.

use crate::fixed::{ONE, by_whole, times};
use crate::lines::{Column, Constraint, cost_at, span_at};
use crate::state::{Standing, State};
use pesp_dual::Term;
use std::alloc::AllocError;

/// A multiplier of the wrong sign that shows that an inverse is bad.
const BAD: i64 = ONE / 10_000;

/// The sum of coefficients times slacks.
pub fn sum_along(terms: &[Term], slacks: &[Standing]) -> i64 {
    let mut sum = 0i64;
    for term in terms {
        if let Some(slack) = slacks.get(term.row as usize) {
            sum = sum.wrapping_add(by_whole(slack.value, term.coefficient));
        }
    }
    sum
}

/// Takes a line times its multiplier away from reduced costs.
fn reduce(slacks: &mut [Standing], terms: &[Term], multiplier: i64) {
    for term in terms {
        if let Some(slack) = slacks.get_mut(term.row as usize) {
            let part = by_whole(multiplier, term.coefficient);
            slack.price = slack.price.wrapping_sub(part);
        }
    }
}

/// The price at a place.
pub fn price_at(standings: &[Standing], place: u32) -> i64 {
    match standings.get(place as usize) {
        Some(standing) => standing.price,
        None => 0,
    }
}

impl State {
    /// No line has a multiplier.
    fn clear_multipliers(&mut self) {
        for sum in self.sums.iter_mut() {
            sum.price = 0;
        }
    }

    /// Sets the multipliers of tight lines, by their places.
    pub fn set_multipliers(&mut self, multipliers: &[i64]) {
        self.clear_multipliers();
        for (place, number) in self.tight.iter().enumerate() {
            let multiplier = multipliers.get(place).copied().unwrap_or(0);
            if let Some(sum) = self.sums.get_mut(*number as usize) {
                sum.price = multiplier;
            }
        }
    }

    /// Reduced costs are what slacks cost.
    fn begin_reduced(&mut self, columns: &[Column]) {
        for (place, slack) in self.slacks.iter_mut().enumerate() {
            slack.price = cost_at(columns, place);
        }
    }

    /// Reduced costs by the multipliers.
    pub fn reduce_all(&mut self, columns: &[Column], lines: &[Constraint]) {
        self.begin_reduced(columns);
        for number in &self.tight {
            if let Some(line) = lines.get(*number as usize) {
                let multiplier = price_at(&self.sums, *number);
                reduce(&mut self.slacks, &line.terms, multiplier);
            }
        }
    }

    /// Each slack that isn't basic goes to the end that its reduced cost wants.
    pub fn set_slacks(&mut self, columns: &[Column]) {
        for (place, slack) in self.slacks.iter_mut().enumerate() {
            if slack.place.is_some() {
                slack.price = 0;
                slack.value = 0;
            } else {
                slack.choose_end(true);
                slack.value = if slack.is_up {
                    span_at(columns, place)
                } else {
                    0
                };
            }
        }
    }

    /// Each tight line goes to the end that its multiplier wants.
    pub fn set_ends(&mut self, lines: &[Constraint]) {
        for (place, sum) in self.sums.iter_mut().enumerate() {
            if sum.place.is_some()
                && let Some(line) = lines.get(place)
            {
                sum.choose_end(line.has_most());
            }
        }
    }

    /// What basic slacks have to make up for in a tight line.
    fn need_of(&self, lines: &[Constraint], number: u32) -> i64 {
        let (Some(line), Some(sum)) = (lines.get(number as usize), self.sums.get(number as usize))
        else {
            return 0;
        };
        let end = if sum.is_up { line.most } else { line.least };
        end.wrapping_sub(sum_along(&line.terms, &self.slacks))
    }

    /// Lists what they have to make up for in each tight line.
    pub fn list_needs(&self, lines: &[Constraint], needs: &mut Vec<i64>) -> Result<(), AllocError> {
        needs.clear();
        for number in &self.tight {
            needs.push(self.need_of(lines, *number))?;
        }
        Ok(())
    }

    /// Sets the values of basic slacks, by their places.
    pub fn set_basic(&mut self, values: &[i64]) {
        for (place, number) in self.basic.iter().enumerate() {
            let value = values.get(place).copied().unwrap_or(0);
            if let Some(slack) = self.slacks.get_mut(*number as usize) {
                slack.value = value;
            }
        }
    }

    /// Sets the sums of all lines.
    pub fn set_sums(&mut self, lines: &[Constraint]) {
        for (place, sum) in self.sums.iter_mut().enumerate() {
            sum.value = match lines.get(place) {
                Some(line) => sum_along(&line.terms, &self.slacks),
                None => 0,
            };
        }
    }

    /// What the slacks cost.
    pub fn cost(&self, columns: &[Column]) -> i64 {
        let mut cost = 0i64;
        for (place, slack) in self.slacks.iter().enumerate() {
            cost = cost.saturating_add(times(slack.value, cost_at(columns, place)));
        }
        cost
    }

    /// Whether the multiplier of a tight line without a greatest value is below 0.
    pub fn is_bad(&self, lines: &[Constraint]) -> bool {
        for number in &self.tight {
            if let Some(line) = lines.get(*number as usize)
                && !line.has_most()
                && price_at(&self.sums, *number) < -BAD
            {
                return true;
            }
        }
        false
    }

    /// What the multipliers are worth as they are; those of the wrong sign count as 0.
    fn worth_of_lines(&self, lines: &[Constraint]) -> i64 {
        let mut worth = 0i64;
        for (place, sum) in self.sums.iter().enumerate() {
            if let Some(line) = lines.get(place) {
                worth = worth.saturating_add(line.worth(sum.price));
            }
        }
        worth
    }

    /// The value of the multipliers as they are; those of the wrong sign count as 0.
    pub fn value_shown(&self, columns: &[Column], lines: &[Constraint]) -> i64 {
        let mut value = self.worth_of_lines(lines);
        for (place, slack) in self.slacks.iter().enumerate() {
            if slack.price < 0 {
                value = value.saturating_add(times(slack.price, span_at(columns, place)));
            }
        }
        value
    }
}
