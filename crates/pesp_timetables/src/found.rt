//! Timetables by their slacks.

use pesp_network::{NetRow, Network};
use pesp_problem::Memory;
use std::alloc::{AllocError, Global};

/// The slacks of a timetable, one for each row of a network in order, and what they cost.
#[derive(Drop)]
pub struct Found {
    pub slacks: Vec<u32>,
    pub cost: u64,
}

/// The slack of a row by times; 0 where an end has no time.
fn slack_of(period: u32, row: &NetRow, times: &[u32]) -> u32 {
    let tail = times.get(row.tail as usize).copied().unwrap_or(0);
    let head = times.get(row.head as usize).copied().unwrap_or(0);
    let rise = i64::from(head).saturating_sub(i64::from(tail));
    let slack = rise
        .saturating_sub(row.lower)
        .checked_rem_euclid(i64::from(period));
    u32::try_from(slack.unwrap_or(0)).unwrap_or(0)
}

/// The slacks of the rows by times.
pub fn slacks_of(alloc: Global, network: &Network, times: &[u32]) -> Result<Vec<u32>, AllocError> {
    let rows = network.rows();
    let mut slacks = Vec::with_capacity(alloc, rows.len())?;
    for row in rows {
        slacks.push(slack_of(network.period(), row, times))?;
    }
    Ok(slacks)
}

/// Prices as times below a period.
pub fn times_at(alloc: Global, period: u32, prices: &[i64]) -> Result<Vec<u32>, AllocError> {
    let mut times = Vec::with_capacity(alloc, prices.len())?;
    for price in prices {
        let time = price.checked_rem_euclid(i64::from(period)).unwrap_or(0);
        times.push(u32::try_from(time).unwrap_or(0))?;
    }
    Ok(times)
}

/// What slacks cost: the sum of weight times slack.
pub fn cost_of(network: &Network, slacks: &[u32]) -> u64 {
    let mut cost = 0u64;
    for (row, slack) in network.rows().iter().zip(slacks.iter()) {
        cost = cost.saturating_add(row.weight.saturating_mul(u64::from(*slack)));
    }
    cost
}

/// Times with these slacks; None where there are none.
pub fn times_of(
    alloc: Global,
    network: &Network,
    slacks: &[u32],
) -> Result<Option<Vec<u32>>, Memory> {
    let period = network.period();
    if slacks.len() != network.rows().len() || !slacks.iter().all(|slack| *slack < period) {
        return Ok(None);
    }
    network.timetable_of(alloc, slacks)
}

/// The cheaper of two timetables.
pub fn cheaper(one: Found, other: Option<Found>) -> Found {
    let Some(other) = other else {
        return one;
    };
    if other.cost < one.cost { other } else { one }
}

impl Found {
    /// The timetable of these slacks.
    pub fn of_slacks(network: &Network, slacks: Vec<u32>) -> Found {
        Found {
            cost: cost_of(network, &slacks),
            slacks,
        }
    }

    /// The same timetable once more.
    pub fn copy(&self, alloc: Global) -> Result<Found, AllocError> {
        Ok(Found {
            slacks: Vec::from_slice(alloc, &self.slacks)?,
            cost: self.cost,
        })
    }
}
