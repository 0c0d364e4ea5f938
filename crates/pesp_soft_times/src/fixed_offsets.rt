//! The cheapest times with the offsets of a timetable: the dual of a cheapest flow.

use crate::clusters::EventClusters;
use crate::contraction::ClusterContraction;
use pesp_forest::{Cycles, Frame, RowForest};
use pesp_network::Network;
use pesp_problem::Memory;
use pesp_relaxation::{Basis, PivotEnd, root_slacks, settle};
use pesp_timetables::{Found, Keyed, least_rows, slacks_of, times_at};
use std::alloc::{AllocError, Global};

/// Up to how many rows a timetable is worth being made cheaper under its offsets.
pub const MOST_REOPTIMISED: usize = 8_000;

/// The rows with keys that are the less, the smaller a row's slack and the greater its weight.
fn keyed_by_slack(
    alloc: Global,
    network: &Network,
    slacks: &[u32],
) -> Result<Vec<Keyed>, AllocError> {
    let mut list = Vec::with_capacity(alloc, slacks.len())?;
    for (place, row) in network.rows().iter().enumerate() {
        let slack = slacks.get(place).copied().unwrap_or(0);
        let scaled = u64::from(slack).saturating_mul(1_000_000);
        list.push(Keyed {
            key: scaled / row.weight.saturating_add(1),
            row: u32::try_from(place).unwrap_or(u32::MAX),
        })?;
    }
    Ok(list)
}

/// A forest of rows of small slack by weight.
fn forest_of(
    alloc: Global,
    network: &Network,
    frame: &Frame,
    slacks: &[u32],
) -> Result<Option<RowForest>, AllocError> {
    let mut list = keyed_by_slack(alloc, network, slacks)?;
    let numbers = least_rows(alloc, frame, &mut list)?;
    RowForest::new(alloc, frame, &numbers)
}

/// The best prices of a network in which each cycle has the offset 0.
fn best_prices(
    alloc: Global,
    frame: &Frame,
    forest: RowForest,
) -> Result<Option<Basis>, AllocError> {
    let cycles = Cycles::new(alloc, forest)?;
    let slacks = root_slacks(alloc, frame)?;
    let offsets = vec![in alloc; (0i64, 0i64); cycles.count()]?;
    let mut basis = Basis::idle(alloc, frame)?;
    let ended = settle(alloc, frame, &cycles, &mut basis, &slacks, &offsets, &[])?;
    if ended != Some(PivotEnd::Best) {
        return Ok(None);
    }
    Ok(Some(basis))
}

/// The best times over a contraction's frame.
fn times_in(
    alloc: Global,
    network: &Network,
    slacks: &[u32],
    moved: &ClusterContraction,
    frame: &Frame,
) -> Result<Option<Vec<u32>>, Memory> {
    let taken = moved.taken_from(alloc, slacks)?;
    let Some(forest) = forest_of(alloc, &moved.network, frame, &taken)? else {
        return Ok(None);
    };
    let Some(basis) = best_prices(alloc, frame, forest)? else {
        return Ok(None);
    };
    let times = times_at(alloc, network.period(), basis.prices());
    drop(basis);
    Ok(Some(times?))
}

/// The best times over a contraction.
fn times_over(
    alloc: Global,
    network: &Network,
    slacks: &[u32],
    moved: &ClusterContraction,
) -> Result<Option<Vec<u32>>, Memory> {
    let frame = Frame::new(alloc, &moved.network)?;
    let times = times_in(alloc, network, slacks, moved, &frame);
    drop(frame);
    times
}

/// The cheapest timetable over a contraction.
fn found_over(
    alloc: Global,
    network: &Network,
    slacks: &[u32],
    moved: &ClusterContraction,
) -> Result<Option<Found>, Memory> {
    let Some(times) = times_over(alloc, network, slacks, moved)? else {
        return Ok(None);
    };
    let better = slacks_of(alloc, &moved.network, &times)?;
    let mut all = Vec::from_slice(alloc, slacks)?;
    moved.put_into(&mut all, &better);
    Ok(Some(Found::of_slacks(network, all)))
}

/// The cheapest timetable with the offsets of another; None where it isn't found.
pub fn reoptimised(
    alloc: Global,
    network: &Network,
    slacks: &[u32],
) -> Result<Option<Found>, Memory> {
    let clusters = EventClusters::apart(alloc, network.events())?;
    let made = ClusterContraction::new(alloc, network, slacks, &clusters);
    drop(clusters);
    let Some(moved) = made? else {
        return Ok(None);
    };
    let found = found_over(alloc, network, slacks, &moved);
    drop(moved);
    found
}
