//! Events of trains that go back.

use pesp_problem::{Instance, Row};
use pesp_railway::{Direction, RailwayNetwork, direction_of};
use std::alloc::{AllocError, Global};

/// Of each event, by its number in the instance, whether a train goes back from it or to it.
#[derive(Drop)]
pub struct Backs {
    goes_back: Vec<bool>,
}

impl Backs {
    /// The events of the trains that go back.
    pub fn of(
        alloc: Global,
        instance: &Instance,
        network: &RailwayNetwork<'_>,
    ) -> Result<Backs, AllocError> {
        let goes_back = vec![in alloc; false; instance.events().len()]?;
        let mut backs = Backs { goes_back };
        for row in instance.rows() {
            if direction_of(network, row) == Direction::Back {
                backs.add(row.tail);
                backs.add(row.head);
            }
        }
        Ok(backs)
    }

    /// Adds an event.
    fn add(&mut self, event: u32) {
        if let Some(goes_back) = self.goes_back.get_mut(event as usize) {
            *goes_back = true;
        }
    }

    /// Whether an activity belongs to a train that goes back: both its events do.
    pub fn has(&self, row: &Row) -> bool {
        let (tail, head) = (row.tail as usize, row.head as usize);
        self.goes_back.get(tail).copied().unwrap_or(false)
            && self.goes_back.get(head).copied().unwrap_or(false)
    }
}
