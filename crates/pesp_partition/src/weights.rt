//! What is left of weights behind crossing inequalities, in units of which so many make up one.

use crate::division::Division;
use crate::multiplied::Multiplied;
use pesp_network::NetRow;
use std::alloc::{AllocError, Global};

/// The greatest weight of a row of a network.
const MOST_WEIGHT: i128 = 1_000_000_000;

/// The units of weights. So many units make up one, and so many parts of the scale make up a unit.
#[derive(Clone, Copy)]
pub struct Units {
    pub unit: u32,
    pub factor: u32,
    pub scale: u32,
}

impl Units {
    /// A multiplier of the scale in units.
    pub fn converted(self, multiplier: i64) -> i64 {
        let scale = i128::from(self.scale).max(1);
        let product = i128::from(multiplier).saturating_mul(i128::from(self.unit));
        let raised = product.saturating_add(scale >> 1);
        i64::try_from(raised.checked_div(scale).unwrap_or(0)).unwrap_or(0)
    }
}

/// The weights of rows, less what crossing inequalities take.
#[derive(Drop)]
pub struct Weights {
    pub rows: Vec<i128>,
}

/// The amount of a weight.
fn amount(weight: i128) -> i128 {
    if weight < 0 {
        weight.wrapping_neg()
    } else {
        weight
    }
}

/// Takes the terms of an inequality times a multiplier away.
fn take(weights: &mut [i128], inequality: &Multiplied, multiplier: i64) {
    for term in &inequality.inequality.terms {
        if let Some(weight) = weights.get_mut(term.row as usize) {
            let part = i128::from(term.coefficient).saturating_mul(i128::from(multiplier));
            *weight = weight.saturating_sub(part);
        }
    }
}

/// The weights of rows in units.
fn whole_weights(alloc: Global, rows: &[NetRow], units: Units) -> Result<Vec<i128>, AllocError> {
    let mut weights = Vec::with_capacity(alloc, rows.len())?;
    for row in rows {
        weights.push(i128::from(row.weight).saturating_mul(i128::from(units.unit)))?;
    }
    Ok(weights)
}

impl Weights {
    /// The weights that crossing inequalities leave, in units.
    pub fn of(
        alloc: Global,
        rows: &[NetRow],
        division: &Division,
        inequalities: &[Multiplied],
        units: Units,
    ) -> Result<Weights, AllocError> {
        let mut weights = Weights {
            rows: whole_weights(alloc, rows, units)?,
        };
        for inequality in inequalities {
            if division.home(inequality).is_none() {
                let multiplier = units.converted(inequality.multiplier);
                take(&mut weights.rows, inequality, multiplier);
            }
        }
        Ok(weights)
    }

    /// The greatest amount of a weight inside a region.
    fn greatest(&self, division: &Division) -> i128 {
        let mut greatest = 0i128;
        for (weight, region) in self.rows.iter().zip(division.regions.iter()) {
            if region.is_some() {
                greatest = greatest.max(amount(*weight));
            }
        }
        greatest
    }
}

/// By how much weights are too great inside the regions of a division for a network, in units of the scale.
fn factor_for(
    alloc: Global,
    rows: &[NetRow],
    division: &Division,
    inequalities: &[Multiplied],
    scale: u32,
) -> Result<u32, AllocError> {
    let fine = Units {
        unit: scale,
        factor: 1,
        scale,
    };
    let weights = Weights::of(alloc, rows, division, inequalities, fine)?;
    let times = weights.greatest(division).checked_div(MOST_WEIGHT);
    let factor = times.unwrap_or(0).saturating_add(1);
    Ok(u32::try_from(factor).unwrap_or(scale).max(1).min(scale))
}

/// Units by which no weight inside a region is too great for a network.
pub fn units_for(
    alloc: Global,
    rows: &[NetRow],
    divisions: &[Division],
    inequalities: &[Multiplied],
    scale: u32,
) -> Result<Units, AllocError> {
    let mut factor = 1u32;
    for division in divisions {
        factor = factor.max(factor_for(alloc, rows, division, inequalities, scale)?);
    }
    Ok(Units {
        unit: scale.checked_div(factor).unwrap_or(1).max(1),
        factor,
        scale,
    })
}
