//! Forests with roots.

use crate::activity::Activity;
use crate::lists::Lists;
use crate::series::Series;
use pesp_forest::guarded::{fill, number, set_number};
use std::alloc::{AllocError, Global};

/// What stands for no event and no place.
pub const NONE: u32 = u32::MAX;

/// A forest with its events in order from the roots down: each event has a place, from 1, and each place the one above it,
/// or 0 at a root. `height` is by how many rows the longest way down from a place goes.
#[derive(Drop)]
pub(crate) struct OrderedForest {
    star: Lists,
    place: Vec<u32>,
    events: Series<u32>,
    above: Vec<u32>,
    height: Vec<u32>,
    way: Vec<u32>,
    begin: Vec<u32>,
}

impl OrderedForest {
    /// Room for forests of so many events.
    pub(crate) fn new(alloc: Global, events: usize) -> Result<OrderedForest, AllocError> {
        let places = events.saturating_add(1);
        Ok(OrderedForest {
            star: Lists::new(alloc, events, events.saturating_mul(2))?,
            place: vec![in alloc; NONE; events]?,
            events: Series::new(alloc, 0u32, places)?,
            above: vec![in alloc; 0u32; places]?,
            height: vec![in alloc; 0u32; places]?,
            way: vec![in alloc; 0u32; places]?,
            begin: vec![in alloc; 0u32; events]?,
        })
    }

    /// Lists the forest's rows at each event.
    fn list(&mut self, rows: &[Activity], forest: &[u32]) -> Option<()> {
        self.star.clear();
        for place in forest {
            let row = rows.get(*place as usize)?;
            self.star.count(row.tail)?;
            self.star.count(row.head)?;
        }
        self.star.lay_out();
        for place in forest {
            let row = rows.get(*place as usize)?;
            self.star.put(row.tail, *place, false)?;
            self.star.put(row.head, *place, true)?;
        }
        Some(())
    }

    /// Gives an event the next place, below another place.
    fn hang(
        place: &mut [u32],
        events: &mut Series<u32>,
        above: &mut [u32],
        event: u32,
        up: u32,
    ) -> Option<()> {
        let next = u32::try_from(events.count()).ok()?;
        set_number(place, event, next)?;
        set_number(above, next, up)?;
        events.put(event)
    }

    /// Makes roots of the first event from here on that has no place, and tells which it was.
    fn plant(&mut self, from: u32) -> Option<u32> {
        let mut event = from;
        for _ in 0..self.place.len() {
            if number(&self.place, event)? == NONE {
                OrderedForest::hang(&mut self.place, &mut self.events, &mut self.above, event, 0)?;
                return Some(event);
            }
            event = event.wrapping_add(1);
        }
        None
    }

    /// Gives the events next to that at a place their places below it.
    fn pass(&mut self, rows: &[Activity], up: u32) -> Option<()> {
        let event = self.events.at(up as usize)?;
        for crossing in self.star.of(event)? {
            let other = rows.get(crossing.row as usize)?.beyond(crossing.grows);
            if number(&self.place, other)? == NONE {
                OrderedForest::hang(
                    &mut self.place,
                    &mut self.events,
                    &mut self.above,
                    other,
                    up,
                )?;
            }
        }
        Some(())
    }

    /// How high each place is.
    fn measure(&mut self) -> Option<()> {
        fill(&mut self.height, 0);
        for place in (1..self.height.len()).rev() {
            let place = u32::try_from(place).ok()?;
            let up = number(&self.above, place)?;
            let height = number(&self.height, place)?.wrapping_add(1);
            if number(&self.height, up)? < height {
                set_number(&mut self.height, up, height)?;
            }
        }
        Some(())
    }

    /// Gives the events of a forest their places, breadth first.
    pub(crate) fn root(&mut self, rows: &[Activity], forest: &[u32]) -> Option<()> {
        self.list(rows, forest)?;
        fill(&mut self.place, NONE);
        self.events.clear();
        self.events.put(NONE)?;
        let mut fresh = 0u32;
        for place in 1..self.above.len() {
            if place == self.events.count() {
                fresh = self.plant(fresh)?;
            }
            self.pass(rows, u32::try_from(place).ok()?)?;
        }
        self.measure()
    }

    /// Makes ways upwards from each event through places that are not higher than `most` and no roots; each ends at 0.
    pub(crate) fn lead(&mut self, most: u32) -> Option<()> {
        for (way, above) in self.way.iter_mut().zip(self.above.iter()) {
            *way = ground(&self.above, &self.height, most, *above)?;
        }
        for (begin, place) in self.begin.iter_mut().zip(self.place.iter()) {
            *begin = ground(&self.above, &self.height, most, *place)?;
        }
        Some(())
    }

    /// Where an event's way upwards begins.
    pub(crate) fn begin(&self, event: u32) -> Option<u32> {
        number(&self.begin, event)
    }

    /// Where the way leads from a place.
    pub(crate) fn next(&self, place: u32) -> Option<u32> {
        number(&self.way, place)
    }
}

/// A place where it isn't higher than `most` and no root, else 0.
fn ground(above: &[u32], height: &[u32], most: u32, place: u32) -> Option<u32> {
    let is_high = number(height, place)? > most || number(above, place)? == 0;
    Some(if is_high { 0 } else { place })
}
