//! One order of a network's events and rows, whatever order they came in.

use crate::grown::grown;
use crate::levels::{are_moved, levelled, levels_of, lowered, raised};
use crate::marks::{mark, marks_of};
use pesp_forest::guarded::number;
use pesp_network::{NetRefusal, NetRow, Network};
use pesp_problem::Memory;
use std::alloc::{AllocError, Global};

/// From how many rows on a network comes in one order: with fewer the best is found in any.
const FEWEST_ORDERED: usize = 121;

/// Up to how many rows events stand in the order of their marks. With more, those that belong together stand near each other.
const MOST_BY_MARKS: usize = 700;

/// The marks that all events begin with where they stand in the order of their marks, and elsewhere.
const FIRST_MARK: u64 = 87;

const FIRST_MARK_OF_MANY: u64 = 4;

/// A network in one order, the place that each event of the other one has there, and the level of the event at each place from
/// which its times count; where there is none they count as they did.
#[derive(Drop)]
pub struct Ordered {
    pub network: Network,
    places: Vec<u32>,
    levels: Vec<Option<u32>>,
}

/// The events in the order of their marks.
fn by_marks(alloc: Global, events: u32, marks: &[u64]) -> Result<Vec<u32>, AllocError> {
    let mut order: Vec<u32> = (0..events).collect(alloc)?;
    order.sort_unstable_by_key(|event| (mark(marks, *event), *event));
    Ok(order)
}

/// The events in one order.
fn order_of(alloc: Global, network: &Network) -> Result<Vec<u32>, AllocError> {
    if network.rows().len() <= MOST_BY_MARKS {
        let marks = marks_of(alloc, network, FIRST_MARK)?;
        return by_marks(alloc, network.events(), &marks);
    }
    let marks = marks_of(alloc, network, FIRST_MARK_OF_MANY)?;
    let starts = by_marks(alloc, network.events(), &marks)?;
    grown(alloc, network, &marks, &starts)
}

/// The places of the events in one order.
fn places_of(alloc: Global, network: &Network) -> Result<Vec<u32>, AllocError> {
    let order = order_of(alloc, network)?;
    let mut places = vec![in alloc; 0u32; order.len()]?;
    for (place, event) in order.iter().enumerate() {
        if let Some(slot) = places.get_mut(*event as usize) {
            *slot = u32::try_from(place).unwrap_or(0);
        }
    }
    Ok(places)
}

/// A row between the places of its events.
fn placed(row: &NetRow, places: &[u32]) -> NetRow {
    NetRow {
        tail: number(places, row.tail).unwrap_or(row.tail),
        head: number(places, row.head).unwrap_or(row.head),
        ..*row
    }
}

/// The rows between the places of their events.
fn placed_rows(alloc: Global, rows: &[NetRow], places: &[u32]) -> Result<Vec<NetRow>, AllocError> {
    let mut ordered = Vec::with_capacity(alloc, rows.len())?;
    for row in rows {
        ordered.push(placed(row, places))?;
    }
    Ok(ordered)
}

/// A network of these rows with the period and the events of another one; None where it is none.
fn with_rows(
    alloc: Global,
    network: &Network,
    rows: Vec<NetRow>,
) -> Result<Option<Network>, Memory> {
    match Network::new(alloc, network.period(), network.events(), rows) {
        Ok(made) => Ok(Some(made)),
        Err(NetRefusal::Memory) => Err(Memory),
        Err(_) => Ok(None),
    }
}

/// The levels from which times are to count between these rows. It doesn't depend on their lower bounds in what order rows are
/// looked at for it, as these depend on what events stand for those that were made one.
fn levels_for(
    alloc: Global,
    network: &Network,
    rows: &[NetRow],
) -> Result<Vec<Option<u32>>, Memory> {
    if !are_moved(network.period(), rows) {
        return Ok(Vec::new(alloc));
    }
    let mut rows = Vec::from_slice(alloc, rows)?;
    rows.sort_unstable_by_key(|row| (row.tail, row.head, row.span, row.weight, row.lower));
    let Some(moved) = with_rows(alloc, network, rows)? else {
        return Ok(Vec::new(alloc));
    };
    let levels = levels_of(alloc, &moved);
    drop(moved);
    Ok(levels?)
}

/// Lets the times of rows count from levels, and puts them into the order of their events, and of their bounds and weights.
fn arrange(period: u32, levels: &[Option<u32>], rows: &mut [NetRow]) {
    if !levels.is_empty() {
        for row in rows.iter_mut() {
            *row = levelled(period, levels, row);
        }
    }
    rows.sort_unstable_by_key(|row| (row.tail, row.head, row.lower, row.span, row.weight));
}

impl Ordered {
    /// The network in one order, or, where it has few rows, in its own. Events that look the same, however far one looks, stand as
    /// they came.
    pub fn of(alloc: Global, network: &Network) -> Result<Ordered, Memory> {
        if network.rows().len() < FEWEST_ORDERED {
            return Ordered::as_it_is(alloc, network);
        }
        let places = places_of(alloc, network)?;
        let mut rows = placed_rows(alloc, network.rows(), &places)?;
        let levels = levels_for(alloc, network, &rows)?;
        arrange(network.period(), &levels, &mut rows);
        match with_rows(alloc, network, rows)? {
            Some(network) => Ok(Ordered {
                network,
                places,
                levels,
            }),
            None => Ordered::as_it_is(alloc, network),
        }
    }

    /// The network in its own order.
    fn as_it_is(alloc: Global, network: &Network) -> Result<Ordered, Memory> {
        let places: Vec<u32> = (0..network.events()).collect(alloc)?;
        let forest = network.forest(alloc)?;
        let network = network.with_forest(alloc, &forest)?;
        Ok(Ordered {
            network,
            places,
            levels: Vec::new(alloc),
        })
    }

    /// Times of the other network's events, by their places.
    pub fn to_places(&self, alloc: Global, times: &[u32]) -> Result<Vec<u32>, AllocError> {
        let mut placed = vec![in alloc; 0u32; times.len()]?;
        let period = self.network.period();
        for (event, place) in self.places.iter().enumerate() {
            if let Some(time) = times.get(event)
                && let Some(slot) = placed.get_mut(*place as usize)
            {
                *slot = lowered(period, &self.levels, *place, *time);
            }
        }
        Ok(placed)
    }

    /// Times by their places, for the other network's events.
    pub fn from_places(&self, alloc: Global, times: &[u32]) -> Result<Vec<u32>, AllocError> {
        let mut own = Vec::with_capacity(alloc, self.places.len())?;
        let period = self.network.period();
        for place in &self.places {
            let time = number(times, *place).unwrap_or(0);
            own.push(raised(period, &self.levels, *place, time))?;
        }
        Ok(own)
    }
}
