//! Timetables of the whole network in which the least timetable of a region stands in the place of what was there.

use pesp_network::{NetRow, Network};
use std::alloc::{AllocError, Global};

/// What stands above each cost that is told.
const TOO_DEAR: u64 = u64::MAX;

/// A row that leads into a region or out of it: the time at its end outside, less that at its end inside, or the other way round.
#[derive(Clone, Copy)]
struct Crossing<'a> {
    row: &'a NetRow,
    difference: i64,
    leads_in: bool,
}

/// The times of a network's events, in which those of a region's are others.
#[derive(Clone, Copy)]
pub(crate) struct Patch<'a> {
    pub(crate) network: &'a Network,
    pub(crate) times: &'a [u32],
    pub(crate) events: &'a [u32],
    pub(crate) own: &'a [u32],
}

/// The time at a place, where there is one.
fn time_of(times: &[u32], place: u32) -> i64 {
    i64::from(times.get(place as usize).copied().unwrap_or(0))
}

impl<'a> Crossing<'a> {
    /// What the row costs where the times of the region's events are so much later; None where it would be violated.
    fn cost(&self, shift: u32, period: i64) -> Option<u64> {
        let later = i64::from(shift);
        let difference = if self.leads_in {
            self.difference.saturating_add(later)
        } else {
            self.difference.saturating_sub(later)
        };
        let slack = difference
            .saturating_sub(self.row.lower)
            .checked_rem_euclid(period)?;
        let slack = u64::try_from(slack).ok()?;
        (slack <= u64::from(self.row.span)).then_some(slack.saturating_mul(self.row.weight))
    }
}

impl Patch<'_> {
    /// The region's times by the events of the whole network; None for the others.
    fn places(&self, alloc: Global) -> Result<Vec<Option<u32>>, AllocError> {
        let mut places = vec![in alloc; None; self.network.events() as usize]?;
        for (place, event) in self.events.iter().enumerate() {
            if let Some(slot) = places.get_mut(*event as usize) {
                *slot = self.own.get(place).copied();
            }
        }
        Ok(places)
    }

    /// A row as one that crosses, where just one of its ends is inside.
    fn crossing<'b>(&self, row: &'b NetRow, places: &[Option<u32>]) -> Option<Crossing<'b>> {
        let tail = places.get(row.tail as usize).copied()?;
        let head = places.get(row.head as usize).copied()?;
        match (tail, head) {
            (Some(tail), None) => Some(Crossing {
                row,
                difference: time_of(self.times, row.head).saturating_sub(i64::from(tail)),
                leads_in: false,
            }),
            (None, Some(head)) => Some(Crossing {
                row,
                difference: i64::from(head).saturating_sub(time_of(self.times, row.tail)),
                leads_in: true,
            }),
            _ => None,
        }
    }

    /// Adds what a row costs by each shift.
    fn add(&self, costs: &mut [u64], crossing: Crossing<'_>) {
        let period = i64::from(self.network.period());
        let mut shift = 0u32;
        for sum in costs.iter_mut() {
            *sum = match crossing.cost(shift, period) {
                Some(cost) => sum.saturating_add(cost),
                None => TOO_DEAR,
            };
            shift = shift.saturating_add(1);
        }
    }

    /// What rows that cross cost by each shift of the region's times.
    fn costs(&self, alloc: Global, places: &[Option<u32>]) -> Result<Vec<u64>, AllocError> {
        let mut costs = vec![in alloc; 0u64; self.network.period() as usize]?;
        for row in self.network.rows() {
            if let Some(crossing) = self.crossing(row, places) {
                self.add(&mut costs, crossing);
            }
        }
        Ok(costs)
    }

    /// The times, where the region's are so much later.
    fn shifted(&self, alloc: Global, shift: u32) -> Result<Vec<u32>, AllocError> {
        let period = self.network.period();
        let mut times = Vec::from_slice(alloc, self.times)?;
        for (place, event) in self.events.iter().enumerate() {
            if let Some(time) = self.own.get(place)
                && let Some(slot) = times.get_mut(*event as usize)
            {
                *slot = time.saturating_add(shift).checked_rem(period).unwrap_or(0);
            }
        }
        Ok(times)
    }

    /// The cheapest such times that violate no row which crosses; None where there are none.
    pub(crate) fn cheapest(&self, alloc: Global) -> Result<Option<Vec<u32>>, AllocError> {
        let places = self.places(alloc)?;
        let costs = self.costs(alloc, &places)?;
        let mut best = TOO_DEAR;
        let mut found = 0u32;
        let mut shift = 0u32;
        for cost in &costs {
            if *cost < best {
                best = *cost;
                found = shift;
            }
            shift = shift.saturating_add(1);
        }
        if best == TOO_DEAR {
            return Ok(None);
        }
        Ok(Some(self.shifted(alloc, found)?))
    }
}
