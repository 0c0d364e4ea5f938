//! Divisions of the rows, each of larger regions than the one before: each region is inside one of the next division.

use crate::division::Division;
use crate::multiplied::Multiplied;
use crate::partition::{Joined, best_partition};
use pesp_network::Network;
use std::alloc::{AllocError, Global};

/// How many divisions there are at most.
const MOST_LEVELS: u32 = 8;

/// Each event by itself.
fn alone(alloc: Global, events: u32) -> Result<Vec<u32>, AllocError> {
    let mut labels = Vec::with_capacity(alloc, events as usize)?;
    for event in 0..events {
        labels.push(event)?;
    }
    Ok(labels)
}

/// The parts of events, joined on to parts of at most so many events.
fn joined_on(
    alloc: Global,
    network: &Network,
    inequalities: &[Multiplied],
    labels: &[u32],
    most: u32,
) -> Result<Vec<u32>, AllocError> {
    let joined = Joined {
        labels,
        rows: network.rows(),
        inequalities,
        most,
    };
    best_partition(alloc, joined)
}

/// Puts in divisions whose regions have at most so many events, twice as many, and so on.
fn add_divisions(
    alloc: Global,
    divisions: &mut Vec<Division>,
    network: &Network,
    inequalities: &[Multiplied],
    least: u32,
    most: u32,
) -> Result<(), AllocError> {
    let mut labels = alone(alloc, network.events())?;
    let mut size = least.min(most).max(1);
    for _ in 0..MOST_LEVELS {
        labels = joined_on(alloc, network, inequalities, &labels, size)?;
        let division = Division::of(alloc, &labels, network.rows())?;
        let is_last = division.count() < 2 || size >= most;
        divisions.push(division)?;
        if is_last {
            return Ok(());
        }
        size = size.saturating_mul(2).min(most);
    }
    Ok(())
}

/// Divisions whose regions have at most so many events, twice as many, and so on. The last one has one region, or regions of the
/// most events that are asked for.
pub fn divisions_of(
    alloc: Global,
    network: &Network,
    inequalities: &[Multiplied],
    least: u32,
    most: u32,
) -> Result<Vec<Division>, AllocError> {
    let mut divisions = Vec::new(alloc);
    match add_divisions(alloc, &mut divisions, network, inequalities, least, most) {
        Ok(()) => Ok(divisions),
        Err(refused) => {
            drop(divisions);
            Err(refused)
        }
    }
}
