//! Changes of an inverse that are still to be made.

use crate::fixed::is_nothing;
use crate::inverse::{list_all, product_of, take_from};
use std::alloc::{AllocError, Global};

/// A change: a column times a row is taken away from the inverse. Both are kept by place, and as lists of what isn't 0.
#[derive(Drop)]
pub struct Update {
    column: Vec<i64>,
    row: Vec<i64>,
    by_row: Vec<(u32, i64)>,
    by_column: Vec<(u32, i64)>,
}

impl Update {
    /// The change by a column and a row.
    pub fn of(alloc: Global, column: &[i64], row: &[i64]) -> Result<Update, AllocError> {
        Ok(Update {
            column: Vec::from_slice(alloc, column)?,
            row: Vec::from_slice(alloc, row)?,
            by_row: list_all(alloc, column)?,
            by_column: list_all(alloc, row)?,
        })
    }

    /// How many numbers are listed.
    pub fn size(&self) -> u64 {
        let rows = self.by_row.len() as u64;
        rows.wrapping_add(self.by_column.len() as u64)
    }

    /// Makes the change at a place of the column.
    fn make_at(&self, place: usize, row: &mut [i64]) {
        let factor = self.column.get(place).copied().unwrap_or(0);
        if !is_nothing(factor) {
            take_from(row, &self.by_column, factor);
        }
    }
}

/// What changes take from a sum of rows, which are listed with their factors. How many numbers were looked at.
pub fn change_row(updates: &[Update], list: &[(u32, i64)], numbers: &mut [i64]) -> u64 {
    let mut count = 0u64;
    for update in updates {
        let factor = product_of(&update.column, list);
        if !is_nothing(factor) {
            take_from(numbers, &update.by_column, factor);
            count = count.wrapping_add(update.by_column.len() as u64);
        }
    }
    count
}

/// What changes take from a sum of columns, which are listed with their factors. How many numbers were looked at.
pub fn change_column(updates: &[Update], list: &[(u32, i64)], numbers: &mut [i64]) -> u64 {
    let mut count = 0u64;
    for update in updates {
        let factor = product_of(&update.row, list);
        if !is_nothing(factor) {
            take_from(numbers, &update.by_row, factor);
            count = count.wrapping_add(update.by_row.len() as u64);
        }
    }
    count
}

/// Makes all changes of a row.
fn make_all(updates: &[Update], place: usize, row: &mut [i64]) {
    for update in updates {
        update.make_at(place, row);
    }
}

/// Makes all changes of all rows.
pub fn make_changes(updates: &[Update], rows: &mut [Vec<i64>]) {
    for (place, row) in rows.iter_mut().enumerate() {
        make_all(updates, place, row);
    }
}
