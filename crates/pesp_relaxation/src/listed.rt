//! Lists in which each row stands at most once.

use pesp_forest::guarded::{number, set_number};
use std::alloc::{AllocError, Global};

/// Some of so many rows.
#[derive(Drop)]
pub(crate) struct RowSet {
    list: Vec<u32>,
    count: u32,
    is_in: Vec<bool>,
}

impl RowSet {
    /// None of so many rows.
    pub(crate) fn none(alloc: Global, rows: usize) -> Result<RowSet, AllocError> {
        Ok(RowSet {
            list: vec![in alloc; 0u32; rows]?,
            count: 0,
            is_in: vec![in alloc; false; rows]?,
        })
    }

    /// How many there are.
    pub(crate) fn count(&self) -> u32 {
        self.count
    }

    /// The row at a place.
    pub(crate) fn at(&self, place: u32) -> Option<u32> {
        number(&self.list, place)
    }

    /// Whether a row is one of them.
    pub(crate) fn has(&self, row: u32) -> bool {
        self.is_in.get(row as usize).copied().unwrap_or(false)
    }

    /// A row more, which isn't one of them.
    pub(crate) fn put(&mut self, row: u32) -> Option<()> {
        set_number(&mut self.list, self.count, row)?;
        self.count = self.count.checked_add(1)?;
        *self.is_in.get_mut(row as usize)? = true;
        Some(())
    }

    /// Takes out the row at a place; the last one goes there.
    pub(crate) fn take(&mut self, place: u32) -> Option<()> {
        let row = self.at(place)?;
        let last = self.count.checked_sub(1)?;
        let other = self.at(last)?;
        set_number(&mut self.list, place, other)?;
        self.count = last;
        *self.is_in.get_mut(row as usize)? = false;
        Some(())
    }

    /// Takes out all.
    pub(crate) fn clear(&mut self) -> Option<()> {
        for _ in 0..self.count {
            self.take(0)?;
        }
        Some(())
    }

    /// Takes over the rows of another list.
    pub(crate) fn copy_from(&mut self, other: &RowSet) -> Option<()> {
        self.clear()?;
        for place in 0..other.count {
            self.put(other.at(place)?)?;
        }
        Some(())
    }
}
