//! Events in groups that are joined.

use crate::guarded::{count_up, number, set_number};
use std::alloc::{AllocError, Global};

/// Each event leads to another event of its group, and the group's last one to itself (Tarjan 1975).
#[derive(Drop)]
pub struct Groups {
    next: Vec<u32>,
}

impl Groups {
    /// Each of so many events by itself.
    pub fn apart(alloc: Global, events: u32) -> Result<Groups, AllocError> {
        let next = (0..events).collect(alloc)?;
        Ok(Groups { next })
    }

    /// Takes all groups apart again.
    pub fn part(&mut self) {
        count_up(&mut self.next);
    }

    /// The last event of an event's group, by which groups are told apart; the way there is halved.
    pub fn last_of(&mut self, event: u32) -> Option<u32> {
        let mut current = event;
        for _ in 0..self.next.len() {
            let next = number(&self.next, current)?;
            if next == current {
                return Some(current);
            }
            let beyond = number(&self.next, next)?;
            set_number(&mut self.next, current, beyond)?;
            current = beyond;
        }
        None
    }

    /// Makes one group of two; whether they were two.
    pub fn join(&mut self, one: u32, other: u32) -> Option<bool> {
        let here = self.last_of(one)?;
        let there = self.last_of(other)?;
        if here == there {
            return Some(false);
        }
        set_number(&mut self.next, here, there)?;
        Some(true)
    }
}
