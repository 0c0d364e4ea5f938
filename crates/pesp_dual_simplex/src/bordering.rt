//! How a line and a slack come into a basis together.

use crate::simplex::Simplex;
use pesp_basis::{
    ONE, by_whole, change_column, is_nothing, make_zeros, over, set_at, take_outer, times, whole,
    write_column,
};
use std::alloc::AllocError;

/// Writes the listed numbers times a factor into a row that was 0.
fn write_row(row: &mut [i64], list: &[(u32, i64)], factor: i64) {
    for (place, number) in list {
        if let Some(slot) = row.get_mut(*place as usize) {
            *slot = times(*number, factor);
        }
    }
}

/// Negates numbers and multiplies them by a factor.
pub(crate) fn turn(numbers: &mut [i64], factor: i64) {
    for number in numbers.iter_mut() {
        if !is_nothing(*number) {
            *number = times(*number, factor.wrapping_neg());
        } else {
            *number = 0;
        }
    }
}

/// Adds a column times a whole factor to numbers, by row.
fn add_column(numbers: &mut [i64], rows: &[Vec<i64>], place: u32, factor: i32) {
    for (number, row) in numbers.iter_mut().zip(rows.iter()) {
        let value = row.get(place as usize).copied().unwrap_or(0);
        *number = number.wrapping_add(by_whole(value, factor));
    }
}

impl Simplex {
    /// Adds up the columns of the inverse of the tight lines of a slack, which are listed.
    fn add_columns(&mut self, number: u32) -> Result<(), AllocError> {
        let Some(column) = self.columns.get(number as usize) else {
            return Ok(());
        };
        for entry in &column.entries {
            if let Some(sum) = self.state.sums.get(entry.line as usize)
                && let Some(place) = sum.place
            {
                let rows = &self.inverse;
                add_column(&mut self.factors, rows, place, entry.coefficient);
                self.work = self.work.wrapping_add(rows.len() as u64);
                let coefficient = whole(i64::from(entry.coefficient));
                self.others.push((place, coefficient))?;
            }
        }
        Ok(())
    }

    /// The coefficients of a slack by basic slack, into `factors`.
    pub(crate) fn read_slack(&mut self, number: u32) -> Result<(), AllocError> {
        make_zeros(&mut self.factors, self.state.basic.len())?;
        self.others.clear();
        self.add_columns(number)?;
        self.change_factors();
        Ok(())
    }

    /// What changes of the inverse take from the factors.
    pub(crate) fn change_factors(&mut self) {
        let work = change_column(&self.state.updates, &self.others, &mut self.factors);
        self.work = self.work.wrapping_add(work);
    }

    /// A line becomes tight and a slack basic, for which there is room in the inverse. The weights of the line are listed, those
    /// of the slack are in `factors`, and the line has this coefficient of the slack.
    pub(crate) fn border(
        &mut self,
        line: u32,
        slack: u32,
        coefficient: i64,
    ) -> Result<(), AllocError> {
        let count = self.state.basic.len();
        let place = u32::try_from(count).unwrap_or(u32::MAX);
        let inverse = over(ONE, coefficient);
        turn(&mut self.factors, inverse);
        let rows = &mut self.inverse;
        let work = take_outer(rows, &self.factors, &self.listed);
        self.work = self.work.wrapping_add(work);
        write_column(rows, count, &self.factors);
        if let Some(row) = rows.get_mut(count) {
            write_row(row, &self.listed, inverse.wrapping_neg());
            set_at(row, place, inverse);
        }
        self.state.push_slack(slack)?;
        self.state.push_line(line)
    }
}
