//! Inequalities that were met, by their keys.

use std::alloc::{AllocError, Global};
use std::collections::HashSet;

/// A set of keys of inequalities.
#[derive(Drop)]
pub struct Seen {
    keys: HashSet<u64>,
}

impl Seen {
    /// No keys.
    pub fn new(alloc: Global) -> Seen {
        Seen {
            keys: HashSet::new(alloc),
        }
    }

    /// Puts a key in; whether it is new.
    pub fn insert(&mut self, key: u64) -> Result<bool, AllocError> {
        Ok(self.keys.insert(key)?)
    }

    /// Takes a key out; whether it was there.
    pub fn remove(&mut self, key: u64) -> bool {
        self.keys.remove(&key)
    }
}
