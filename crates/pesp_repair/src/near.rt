//! Times near to others that keep all activities.

use crate::dived::dived;
use crate::fill::filled;
use crate::links::Links;
use crate::mover::Mover;
use pesp_problem::{Instance, Memory};
use std::alloc::{AllocError, Global};

/// How often events are moved back, one after another.
const ROUNDS: u32 = 20;

/// How many events are visited at most.
const MOST_VISITS: u64 = 20_000_000;

/// Satisfies all, by moves, or from a dive; then moves back what can be; whether all is satisfied.
fn mend(alloc: Global, instance: &Instance, mover: &mut Mover<'_>) -> Result<bool, Memory> {
    if !mover.mend()? {
        let Some(times) = dived(alloc, instance, &mover.times)? else {
            return Ok(false);
        };
        mover.times = times;
    }
    for _ in 0..ROUNDS {
        if !mover.bring_all_back()? {
            break;
        }
    }
    Ok(true)
}

/// Times as they are told.
fn told(alloc: Global, times: &[i64]) -> Result<Vec<u32>, AllocError> {
    let mut told = Vec::with_capacity(alloc, times.len())?;
    for time in times {
        told.push(u32::try_from(*time).unwrap_or(0))?;
    }
    Ok(told)
}

/// Times near to those that are wanted of the events, in their order. There is one for each event, from 0 to the period less 1. An
/// event of which none is wanted may be anywhere. None where none were found that keep all activities. That says nothing of whether
/// there are some. Whoever takes the times judges them. Every call gives the same, after a counted number of steps. `Memory` where
/// a growth was refused.
pub fn near_times(
    alloc: Global,
    instance: &Instance,
    wanted: &[Option<u32>],
) -> Result<Option<Vec<u32>>, Memory> {
    let links = Links::of(alloc, instance)?;
    let times = filled(alloc, &links, wanted)?;
    let mut mover = Mover::new(alloc, &links, wanted, times, MOST_VISITS)?;
    if !mend(alloc, instance, &mut mover)? {
        return Ok(None);
    }
    Ok(Some(told(alloc, &mover.times)?))
}
