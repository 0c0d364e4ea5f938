//! Multipliers, reduced costs, slacks and sums by the inverse.

use crate::simplex::Simplex;
use pesp_basis::{Column, change_row, cost_at, make_zeros, times};
use std::alloc::AllocError;

/// Adds a row times a factor to numbers.
fn add_times(numbers: &mut [i64], row: &[i64], factor: i64) {
    for (number, value) in numbers.iter_mut().zip(row.iter()) {
        if *value != 0 {
            *number = number.wrapping_add(times(*value, factor));
        }
    }
}

/// Lists what basic slacks cost, by their places.
fn list_costs(
    columns: &[Column],
    basic: &[u32],
    costs: &mut Vec<(u32, i64)>,
) -> Result<(), AllocError> {
    costs.clear();
    let mut place = 0u32;
    for number in basic {
        costs.push((place, cost_at(columns, *number as usize)))?;
        place = place.wrapping_add(1);
    }
    Ok(())
}

impl Simplex {
    /// The multipliers of tight lines, into `numbers`.
    fn sum_costs(&mut self) -> Result<(), AllocError> {
        make_zeros(&mut self.numbers, self.state.tight.len())?;
        list_costs(&self.columns, &self.state.basic, &mut self.others)?;
        for (place, cost) in &self.others {
            if let Some(row) = self.inverse.get(*place as usize) {
                add_times(&mut self.numbers, row, *cost);
            }
        }
        change_row(&self.state.updates, &self.others, &mut self.numbers);
        Ok(())
    }

    /// The values of basic slacks.
    fn set_basic(&mut self) -> Result<(), AllocError> {
        self.state.list_needs(&self.lines, &mut self.numbers)?;
        self.multiply()?;
        self.state.set_basic(&self.factors);
        Ok(())
    }

    /// All numbers anew by the inverse.
    pub fn refresh(&mut self) -> Result<(), AllocError> {
        self.sum_costs()?;
        self.state.set_multipliers(&self.numbers);
        self.state.reduce_all(&self.columns, &self.lines);
        self.state.set_slacks(&self.columns);
        self.state.set_ends(&self.lines);
        self.set_basic()?;
        self.state.set_sums(&self.lines);
        self.state.value = self.state.cost(&self.columns);
        let rows = self.inverse.len() as u64;
        self.work = self
            .work
            .wrapping_add(rows.wrapping_mul(rows).wrapping_mul(2));
        Ok(())
    }
}
