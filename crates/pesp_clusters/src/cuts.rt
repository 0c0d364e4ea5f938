//! The cuts of a forest: the events below each place, and the rows that cross between these and the rest.

use crate::activity::{Activity, SlackCrossing};
use crate::lists::Lists;
use crate::rooted::OrderedForest;
use pesp_forest::Random;
use std::alloc::{AllocError, Global};

/// How many crossings are listed at most.
const MOST_CROSSINGS: u32 = 8_000_000;

/// The rows that cross the cut at each place of a forest, and an order of these places.
#[derive(Drop)]
pub struct ForestCuts {
    rooted: OrderedForest,
    lists: Lists,
    order: Vec<u32>,
}

/// Counts the cuts that a row crosses; how many.
fn count_row(rooted: &OrderedForest, lists: &mut Lists, row: &Activity) -> Option<u32> {
    let mut tail = rooted.begin(row.tail)?;
    let mut head = rooted.begin(row.head)?;
    for count in 0..MOST_CROSSINGS {
        if tail == head {
            return Some(count);
        }
        if tail > head {
            lists.count(tail)?;
            tail = rooted.next(tail)?;
        } else {
            lists.count(head)?;
            head = rooted.next(head)?;
        }
    }
    None
}

/// Puts a row to the cuts that it crosses.
fn put_row(rooted: &OrderedForest, lists: &mut Lists, row: &Activity, place: u32) -> Option<()> {
    let mut tail = rooted.begin(row.tail)?;
    let mut head = rooted.begin(row.head)?;
    for _ in 0..MOST_CROSSINGS {
        if tail == head {
            break;
        }
        if tail > head {
            lists.put(tail, place, false)?;
            tail = rooted.next(tail)?;
        } else {
            lists.put(head, place, true)?;
            head = rooted.next(head)?;
        }
    }
    Some(())
}

impl ForestCuts {
    /// Room for the cuts of forests of so many events.
    pub fn new(alloc: Global, events: u32) -> Result<ForestCuts, AllocError> {
        let places = (events as usize).saturating_add(1);
        Ok(ForestCuts {
            rooted: OrderedForest::new(alloc, events as usize)?,
            lists: Lists::new(alloc, places, 0)?,
            order: (1..events.saturating_add(1)).collect(alloc)?,
        })
    }

    /// Roots a forest.
    pub fn root(&mut self, rows: &[Activity], forest: &[u32]) -> Option<()> {
        self.rooted.root(rows, forest)
    }

    /// Counts the rows that cross each cut at a place that isn't higher than `most`; how many there are in all, or None where
    /// that is too much.
    fn count(&mut self, rows: &[Activity], most: u32) -> Option<u32> {
        self.rooted.lead(most)?;
        self.lists.clear();
        let mut left = MOST_CROSSINGS;
        for row in rows {
            let count = count_row(&self.rooted, &mut self.lists, row)?;
            left = left.checked_sub(count)?;
        }
        Some(self.lists.lay_out())
    }

    /// Lists the rows that were counted.
    fn put(&mut self, rows: &[Activity]) -> Option<()> {
        let mut place = 0u32;
        for row in rows {
            put_row(&self.rooted, &mut self.lists, row, place)?;
            place = place.wrapping_add(1);
        }
        Some(())
    }

    /// Lists the rows that cross each cut, or the low ones where that is too much.
    pub fn list(&mut self, rows: &[Activity]) -> Result<Option<()>, AllocError> {
        for most in [u32::MAX, 256, 64, 16, 4, 1] {
            if let Some(room) = self.count(rows, most) {
                self.lists.make_room(room)?;
                return Ok(self.put(rows));
            }
        }
        Ok(None)
    }

    /// Puts the cuts into a random order.
    pub fn shuffle(&mut self, random: &mut Random) {
        shuffle(&mut self.order, random);
    }

    /// The cuts in order, each by the rows that cross it.
    pub fn order(&self) -> &[u32] {
        &self.order
    }

    /// The rows that cross a cut.
    pub fn of(&self, place: u32) -> Option<&[SlackCrossing]> {
        self.lists.of(place)
    }
}

/// Puts numbers into a random order.
pub(crate) fn shuffle(numbers: &mut [u32], random: &mut Random) {
    for place in 0..numbers.len() {
        let other = random.below(place as u64 + 1) as usize;
        if other < numbers.len() {
            numbers.swap(place, other);
        }
    }
}
