//! A timetable near to times, by a dive.

use crate::links::modulo;
use pesp_network::Network;
use pesp_problem::{Instance, Memory};
use pesp_propagate::dive_to;
use std::alloc::Global;

/// How many tries a dive has.
const TRIES: u32 = 20;

/// The times of a dive, with each component's first event where it is in the times that it leads to.
fn placed(
    alloc: Global,
    network: &Network,
    times: &[i64],
    found: &[u32],
) -> Result<Vec<i64>, Memory> {
    let period = i64::from(network.period());
    let mut placed = Vec::with_capacity(alloc, found.len())?;
    for event in 0..network.events() {
        let first = network.first_of(event);
        let from = times.get(first as usize).copied().unwrap_or(0);
        let difference = found.get(event as usize).copied().unwrap_or(0);
        placed.push(modulo(from.wrapping_add(i64::from(difference)), period))?;
    }
    Ok(placed)
}

/// Times near to these that satisfy all, where a dive finds some.
pub(crate) fn dived(
    alloc: Global,
    instance: &Instance,
    times: &[i64],
) -> Result<Option<Vec<i64>>, Memory> {
    let network = Network::of(alloc, instance)?;
    match dive_to(alloc, &network, times, TRIES)? {
        Some(found) => Ok(Some(placed(alloc, &network, times, &found)?)),
        None => Ok(None),
    }
}
