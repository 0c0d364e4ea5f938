//! How a basis differs from the one that it was the same as.

use crate::basis::Basis;
use crate::row::FlowRow;
use std::alloc::AllocError;

/// A row as it was changed.
#[derive(Clone, Copy)]
pub struct RowChange {
    place: u32,
    row: FlowRow,
}

impl Basis {
    /// The change at a place of the list of rows that have changed.
    fn change(&self, at: u32) -> Option<RowChange> {
        let place = self.changed.at(at)?;
        let row = self.rows.get(place as usize).copied()?;
        Some(RowChange { place, row })
    }

    /// The rows that have changed since the basis was the same as another one, in place of those of a list.
    pub fn put_changes(&self, changes: &mut Vec<RowChange>) -> Result<(), AllocError> {
        changes.clear();
        for at in 0..self.changed.count() {
            if let Some(change) = self.change(at) {
                changes.push(change)?;
            }
        }
        Ok(())
    }

    /// Changes rows as they are listed, and neither prices nor the tree.
    pub fn change_rows(&mut self, changes: &[RowChange]) -> Option<()> {
        for change in changes {
            *self.row_mut(change.place)? = change.row;
        }
        Some(())
    }
}
