//! An event in the middle of a network.

use crate::frame::Link;
use crate::tree::NONE;
use std::alloc::{AllocError, Global};

/// With fewer events trees are small, whichever root they have.
const MANY_EVENTS: usize = 2_500;

/// The events to which rows lead from one, the nearest first, and for each the one before it on its way.
#[derive(Drop)]
struct BreadthFirst {
    order: Vec<u32>,
    before: Vec<u32>,
}

impl BreadthFirst {
    /// From one event.
    fn from(alloc: Global, stars: &[Vec<Link>], first: u32) -> Result<BreadthFirst, AllocError> {
        let mut spread = BreadthFirst {
            order: Vec::with_capacity(alloc, stars.len())?,
            before: vec![in alloc; NONE; stars.len()]?,
        };
        spread.meet(first, first)?;
        for place in 0..stars.len() {
            let Some(event) = spread.order.get(place).copied() else {
                break;
            };
            spread.meet_around(stars, event)?;
        }
        Ok(spread)
    }

    /// Meets an event from another, where it wasn't met.
    fn meet(&mut self, event: u32, from: u32) -> Result<(), AllocError> {
        if let Some(before) = self.before.get_mut(event as usize)
            && *before == NONE
        {
            *before = from;
            self.order.push(event)?;
        }
        Ok(())
    }

    /// Meets the events to which rows lead from one.
    fn meet_around(&mut self, stars: &[Vec<Link>], event: u32) -> Result<(), AllocError> {
        let Some(star) = stars.get(event as usize) else {
            return Ok(());
        };
        for link in star {
            self.meet(link.other, event)?;
        }
        Ok(())
    }

    /// The event that was met last.
    fn last(&self) -> u32 {
        self.order.last().copied().unwrap_or(0)
    }

    /// The event so many steps back from another.
    fn back(&self, event: u32, steps: usize) -> u32 {
        let mut current = event;
        for _ in 0..steps {
            current = self
                .before
                .get(current as usize)
                .copied()
                .unwrap_or(current);
        }
        current
    }

    /// How many steps lead back from an event to the first.
    fn steps(&self, event: u32) -> usize {
        let mut current = event;
        for count in 0..self.order.len() {
            let next = self.back(current, 1);
            if next == current {
                return count;
            }
            current = next;
        }
        0
    }
}

/// Where there are many events, one in the middle of a long way.
pub(crate) fn middle_of(alloc: Global, stars: &[Vec<Link>]) -> Result<Option<u32>, AllocError> {
    if stars.len() < MANY_EVENTS {
        return Ok(None);
    }
    let end = BreadthFirst::from(alloc, stars, 0)?.last();
    let spread = BreadthFirst::from(alloc, stars, end)?;
    let other = spread.last();
    Ok(Some(spread.back(other, spread.steps(other) / 2)))
}
