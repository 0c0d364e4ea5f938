//! How many differences each event has left.

use pesp_problem::Memory;
use std::alloc::Global;

/// How many events are a block.
pub const BLOCK: usize = 128;

/// A number for each event, and for each block of events whether a number of it was set since this was asked of it.
#[derive(Drop)]
pub(crate) struct Counts {
    numbers: Vec<u32>,
    changed: Vec<bool>,
}

impl Counts {
    /// These numbers, all of them new.
    pub(crate) fn of(alloc: Global, numbers: Vec<u32>) -> Result<Counts, Memory> {
        let changed = vec![in alloc; true; numbers.len() / BLOCK + 1]?;
        Ok(Counts { numbers, changed })
    }

    /// The number of an event, 0 where there is none.
    pub(crate) fn number(&self, event: u32) -> u32 {
        self.numbers.get(event as usize).copied().unwrap_or(0)
    }

    /// Sets the number of an event.
    pub(crate) fn set(&mut self, event: u32, number: u32) {
        if let Some(kept) = self.numbers.get_mut(event as usize) {
            *kept = number;
        }
        if let Some(is_new) = self.changed.get_mut(event as usize / BLOCK) {
            *is_new = true;
        }
    }

    /// Whether a number of a block was set since this was asked of it.
    pub(crate) fn take_change(&mut self, block: usize) -> bool {
        let Some(is_new) = self.changed.get_mut(block) else {
            return false;
        };
        let was_new = *is_new;
        *is_new = false;
        was_new
    }

    /// The same numbers once more, all of them new.
    pub(crate) fn copy(&self, alloc: Global) -> Result<Counts, Memory> {
        Counts::of(alloc, Vec::from_slice(alloc, &self.numbers)?)
    }

    /// Takes on other numbers, all of them new.
    pub(crate) fn copy_from(&mut self, other: &Counts) {
        let shared = self.numbers.len().min(other.numbers.len());
        self.numbers[..shared].copy_from_slice(&other.numbers[..shared]);
        self.changed.fill(true);
    }
}
