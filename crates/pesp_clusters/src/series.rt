//! Lists that are filled anew and anew and never grow beyond their room.

use std::alloc::{AllocError, Global};

/// A list within a room.
#[derive(Drop)]
pub(crate) struct Series<T> {
    items: Vec<T>,
    count: usize,
}

impl<T: Copy + Drop> Series<T> {
    /// An empty list with room for so many items, for which this one stands until they are put.
    pub(crate) fn new(alloc: Global, item: T, room: usize) -> Result<Series<T>, AllocError> {
        let mut items = Vec::with_capacity(alloc, room)?;
        for _ in 0..room {
            items.push(item)?;
        }
        Ok(Series { items, count: 0 })
    }

    /// Takes out all items.
    pub(crate) fn clear(&mut self) {
        self.count = 0;
    }

    /// How many items there are.
    pub(crate) fn count(&self) -> usize {
        self.count
    }

    /// Puts an item at the end.
    pub(crate) fn put(&mut self, item: T) -> Option<()> {
        *self.items.get_mut(self.count)? = item;
        self.count = self.count.checked_add(1)?;
        Some(())
    }

    /// The item at a place.
    pub(crate) fn at(&self, place: usize) -> Option<T> {
        self.items.get(place).copied()
    }

    /// The items in order.
    pub(crate) fn as_slice(&self) -> &[T] {
        self.items.get(..self.count).unwrap_or(&[])
    }
}
