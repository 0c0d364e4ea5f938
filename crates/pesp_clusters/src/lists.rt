//! The rows that cross at each of many places.

use crate::activity::SlackCrossing;
use pesp_forest::guarded::{count_one, fill, number, set_number};
use std::alloc::{AllocError, Global};

/// Where each place's crossings stand among all of them. While they are counted, `ends` has how many each place has.
#[derive(Drop)]
pub(crate) struct Lists {
    starts: Vec<u32>,
    ends: Vec<u32>,
    crossings: Vec<SlackCrossing>,
}

/// What stands where no crossing was put yet.
const NOTHING: SlackCrossing = SlackCrossing {
    row: 0,
    grows: false,
};

impl Lists {
    /// No crossings at so many places, with room for so many.
    pub(crate) fn new(alloc: Global, places: usize, room: usize) -> Result<Lists, AllocError> {
        Ok(Lists {
            starts: vec![in alloc; 0u32; places]?,
            ends: vec![in alloc; 0u32; places]?,
            crossings: vec![in alloc; NOTHING; room]?,
        })
    }

    /// Begins to count anew.
    pub(crate) fn clear(&mut self) {
        fill(&mut self.ends, 0);
    }

    /// Counts a crossing at a place.
    pub(crate) fn count(&mut self, place: u32) -> Option<()> {
        count_one(&mut self.ends, place)
    }

    /// Gives each place room for the crossings that were counted, and tells how many there are in all.
    pub(crate) fn lay_out(&mut self) -> u32 {
        let mut next = 0u32;
        for (start, end) in self.starts.iter_mut().zip(self.ends.iter_mut()) {
            let count = *end;
            *start = next;
            *end = next;
            next = next.wrapping_add(count);
        }
        next
    }

    /// Makes room for so many crossings.
    pub(crate) fn make_room(&mut self, room: u32) -> Result<(), AllocError> {
        for _ in self.crossings.len()..room as usize {
            self.crossings.push(NOTHING)?;
        }
        Ok(())
    }

    /// Puts a crossing at a place.
    pub(crate) fn put(&mut self, place: u32, row: u32, grows: bool) -> Option<()> {
        let end = number(&self.ends, place)?;
        *self.crossings.get_mut(end as usize)? = SlackCrossing { row, grows };
        set_number(&mut self.ends, place, end.wrapping_add(1))
    }

    /// The crossings at a place.
    pub(crate) fn of(&self, place: u32) -> Option<&[SlackCrossing]> {
        let start = number(&self.starts, place)?;
        let end = number(&self.ends, place)?;
        self.crossings.get(start as usize..end as usize)
    }
}
