//! Where marks stand, so that none lies on another one.

use crate::heights::Heights;
use crate::places::{Across, PLOT};
use std::alloc::{AllocError, Global};

/// How many pixels a mark takes.
const MARK: u32 = 9;

/// How many places for marks lie beside each other along a station.
const PLACES: u32 = PLOT / MARK + 1;

/// How many marks stand above each other at a place; those behind them stand beside these.
const ABOVE: u32 = 5;

/// How far the marks of a place stand below the topmost one, in pixels: the first one at the station, then above and below.
const BELOW: [u32; 5] = [2 * MARK, MARK, 3 * MARK, 0, 4 * MARK];

/// Where a mark stands.
#[derive(Clone, Copy)]
pub struct Spot {
    pub x: Across,
    pub y: u32,
}

/// How many marks stand at each place of a line's diagram.
#[derive(Drop)]
pub struct MarkCounts {
    counts: Vec<u32>,
}

impl MarkCounts {
    /// No marks, at so many stations.
    pub fn none(alloc: Global, stations: usize) -> Result<MarkCounts, AllocError> {
        let places = stations.saturating_mul(PLACES as usize);
        let counts = vec![in alloc; 0u32; places]?;
        Ok(MarkCounts { counts })
    }

    /// How many marks stood at a place, which has one more now.
    fn add(&mut self, place: usize) -> u32 {
        let Some(count) = self.counts.get_mut(place) else {
            return 0;
        };
        let before = *count;
        *count = before.saturating_add(1);
        before
    }

    /// Where the next mark stands that belongs to a station and a time.
    pub fn next_spot(&mut self, heights: &Heights, station: usize, x: Across) -> Spot {
        let along = x.pixels().checked_div(MARK).unwrap_or(0);
        let place = station
            .saturating_mul(PLACES as usize)
            .saturating_add(along as usize);
        let before = self.add(place);
        let below = BELOW.get((before % ABOVE) as usize).copied();
        let beside = (before / ABOVE).saturating_mul(MARK);
        Spot {
            x: x.beside(beside).within(MARK / 2),
            y: heights
                .at(station)
                .saturating_sub(2 * MARK)
                .saturating_add(below.unwrap_or(0)),
        }
    }
}
