//! Multipliers by which less crosses regions. What crossing inequalities are at least is lowered, and the multipliers are sought
//! anew.

use crate::division::Division;
use crate::multiplied::Multiplied;
use pesp_dual::{Multiplier, Program};
use pesp_network::Network;
use std::alloc::{AllocError, Global};

/// How many steps are made.
const STEPS: u32 = 800;

/// An inequality is lowered by such a part of its gain where it crosses regions of the first division.
const PART: i64 = 20;

/// The same for each coarser division.
const COARSER_PART: i64 = 40;

/// By how much an inequality is lowered.
fn lowered_by(divisions: &[Division], inequality: &Multiplied) -> i64 {
    let mut sum = 0i64;
    let mut part = PART;
    for division in divisions {
        if division.home(inequality).is_none() {
            let lowered = inequality.gain.checked_div(part).unwrap_or(0);
            sum = sum.saturating_add(lowered);
        }
        part = COARSER_PART;
    }
    sum
}

/// A multiplier of the scale, in 1/2^20.
fn fine(multiplier: i64, scale: u32) -> Multiplier {
    let scaled = i128::from(multiplier) << 20;
    let best = scaled.checked_div(i128::from(scale)).unwrap_or(0);
    let best = i64::try_from(best).unwrap_or(0);
    Multiplier {
        current: best,
        best,
    }
}

/// Puts in the inequalities of a root with their multipliers, lowered where they cross regions.
fn add_inequalities(
    program: &mut Program,
    divisions: &[Division],
    inequalities: &[Multiplied],
    scale: u32,
) -> Result<(), AllocError> {
    for inequality in inequalities {
        let terms = &inequality.inequality.terms;
        let lowered = lowered_by(divisions, inequality);
        let least = inequality.inequality.least.saturating_sub(lowered);
        program.add(terms, least, fine(inequality.multiplier, scale))?;
    }
    Ok(())
}

/// Sets the slacks of a program, in 1/65536.
fn set_slacks(alloc: Global, program: &mut Program, slacks: &[i64]) -> Result<(), AllocError> {
    let mut point = program.point(alloc)?;
    for (slot, slack) in point.slacks.iter_mut().zip(slacks.iter()) {
        *slot = *slack;
    }
    program.set_point(&point);
    Ok(())
}

/// Takes the multipliers of a program.
fn take_multipliers(program: &Program, inequalities: &mut [Multiplied]) {
    for (place, inequality) in inequalities.iter_mut().enumerate() {
        inequality.multiplier = program.rounded(place);
    }
}

/// Seeks the multipliers anew in a program without an inequality.
fn shift_in(
    alloc: Global,
    program: &mut Program,
    divisions: &[Division],
    inequalities: &mut [Multiplied],
    slacks: &[i64],
    scale: u32,
) -> Result<(), AllocError> {
    add_inequalities(program, divisions, inequalities, scale)?;
    set_slacks(alloc, program, slacks)?;
    program.settle_counts();
    program.run(STEPS, i128::MAX);
    take_multipliers(program, inequalities);
    Ok(())
}

/// Seeks the multipliers anew from slacks in 1/65536.
pub fn shift_multipliers(
    alloc: Global,
    network: &Network,
    divisions: &[Division],
    inequalities: &mut [Multiplied],
    slacks: &[i64],
    scale: u32,
) -> Result<(), AllocError> {
    let mut program = Program::new(alloc, network.rows(), scale)?;
    let shifted = shift_in(alloc, &mut program, divisions, inequalities, slacks, scale);
    drop(program);
    shifted
}
