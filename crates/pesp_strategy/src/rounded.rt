//! Prices as times.

use pesp_forest::Frame;
use pesp_relaxation::Basis;
use std::alloc::{AllocError, Global};

/// What the slack of a row costs at the prices; None where it is beyond the row's span.
fn row_cost(frame: &Frame, basis: &Basis, place: u32) -> Option<i128> {
    let row = frame.row(place)?;
    let slack = basis
        .rise(place)?
        .checked_sub(row.lower)?
        .checked_rem_euclid(i64::from(frame.period()))?;
    if slack > i64::from(row.span) {
        return None;
    }
    i128::from(slack).checked_mul(i128::from(row.weight))
}

/// What the prices cost as times; None where a row's slack is beyond its span, which is then noted as the broken row, or where
/// they cost as much as a limit. The row that was broken last is tried first.
pub(crate) fn rounded_cost(
    frame: &Frame,
    basis: &Basis,
    limit: i128,
    broken: &mut u32,
) -> Option<i128> {
    if !frame.rows().is_empty() {
        row_cost(frame, basis, *broken)?;
    }
    let mut cost = 0i128;
    for place in 0..frame.rows().len() {
        let row = u32::try_from(place).ok()?;
        let Some(here) = row_cost(frame, basis, row) else {
            *broken = row;
            return None;
        };
        cost = cost.checked_add(here)?;
        if cost >= limit {
            return None;
        }
    }
    Some(cost)
}

/// The prices as times below the period.
pub(crate) fn rounded_times(
    alloc: Global,
    frame: &Frame,
    basis: &Basis,
) -> Result<Vec<u32>, AllocError> {
    let period = i64::from(frame.period());
    let mut times = Vec::with_capacity(alloc, basis.prices().len())?;
    for price in basis.prices() {
        let time = price.checked_rem_euclid(period).unwrap_or(0);
        times.push(u32::try_from(time).unwrap_or(0))?;
    }
    Ok(times)
}
