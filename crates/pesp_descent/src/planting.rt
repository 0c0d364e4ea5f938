//! Forests that are drawn at random, and the lists of their cuts.

use crate::drawing::Drawing;
use crate::low::{Low, count_rows, list_low};
use crate::stars::empty_lists;
use pesp_forest::Random;
use pesp_forest::guarded::fill;
use pesp_problem::{Arc, Memory};
use pesp_propagate::{Cuts, Entry, MOST_ENTRIES, lay_out};
use std::alloc::Global;

/// The forest in use and the lists of its cuts; for each event how many rows are listed, and how many hang down below it.
#[derive(Drop)]
pub(crate) struct PlantedForest {
    counts: Vec<u32>,
    heights: Vec<u32>,
    pub(crate) cuts: Cuts,
    pub(crate) drawing: Drawing,
}

/// Makes room for so many entries.
fn make_room(entries: &mut Vec<Entry>, room: usize) -> Result<(), Memory> {
    for _ in entries.len()..room {
        entries.push(Entry {
            row: 0,
            inward: false,
        })?;
    }
    Ok(())
}

impl PlantedForest {
    /// Lists for so many events and these rows; no forest is drawn yet.
    pub(crate) fn new(alloc: Global, events: u32, arcs: &[Arc]) -> Result<PlantedForest, Memory> {
        let count = events as usize;
        Ok(PlantedForest {
            counts: vec![in alloc; 0u32; count]?,
            heights: vec![in alloc; 0u32; count]?,
            cuts: empty_lists(alloc, count, 0)?,
            drawing: Drawing::new(alloc, events, arcs)?,
        })
    }

    /// Draws a forest.
    fn draw(&mut self, arcs: &[Arc], slacks: &[u32], random: &mut Random) -> Option<()> {
        self.drawing.draw(arcs, slacks, random)?;
        self.drawing.measure(&mut self.heights)
    }

    /// Draws a forest and lists its cuts, or the low ones where that is too much. False where it gave up.
    pub(crate) fn plant(
        &mut self,
        arcs: &[Arc],
        slacks: &[u32],
        random: &mut Random,
    ) -> Result<bool, Memory> {
        if self.draw(arcs, slacks, random).is_none() {
            return Ok(false);
        }
        for most in [u32::MAX, 64, 16, 4, 1] {
            if let Some(room) = self.count(arcs, most) {
                make_room(&mut self.cuts.entries, room)?;
                return Ok(self.list(arcs, most).is_some());
            }
        }
        Ok(false)
    }

    /// How many rows cross the cuts below which no event hangs more rows down than `most`, in all.
    fn count(&mut self, arcs: &[Arc], most: u32) -> Option<usize> {
        fill(&mut self.counts, 0);
        let low = Low {
            heights: &self.heights,
            most,
        };
        count_rows(
            &self.drawing.rooted,
            &low,
            &mut self.counts,
            arcs,
            MOST_ENTRIES,
        )
    }

    /// Lists the rows that were counted.
    fn list(&mut self, arcs: &[Arc], most: u32) -> Option<()> {
        if !lay_out(&mut self.cuts, &self.counts) {
            return None;
        }
        let low = Low {
            heights: &self.heights,
            most,
        };
        list_low(&self.drawing.rooted, &low, &mut self.cuts, arcs)
    }
}
