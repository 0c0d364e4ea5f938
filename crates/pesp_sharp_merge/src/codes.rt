//! Walks as numbers, so that they can be compared.

use pesp_problem::{MarkedWalk, Memory, SignedRow, Walk};
use std::alloc::Global;

/// A row with its sign and its mark as one number.
fn code_of(signed: &SignedRow, flipped: bool) -> u32 {
    let sign = if signed.plus { 1 } else { 0 };
    let mark = if flipped { 2 } else { 0 };
    signed.row.wrapping_mul(4).wrapping_add(sign | mark)
}

/// The numbers of a walk's rows.
fn codes_of_walk(alloc: Global, walk: &Walk) -> Result<Vec<u32>, Memory> {
    let mut codes = Vec::with_capacity(alloc, walk.rows().len())?;
    for signed in walk.rows() {
        codes.push(code_of(signed, false))?;
    }
    Ok(codes)
}

/// The numbers of a marked walk's rows.
fn codes_of_marked(alloc: Global, walk: &MarkedWalk) -> Result<Vec<u32>, Memory> {
    let mut codes = Vec::with_capacity(alloc, walk.rows().len())?;
    for row in walk.rows() {
        codes.push(code_of(&row.signed, row.flipped))?;
    }
    Ok(codes)
}

/// The numbers of walks.
pub(crate) fn codes_of_walks(alloc: Global, walks: &[Walk]) -> Result<Vec<Vec<u32>>, Memory> {
    let mut codes = Vec::with_capacity(alloc, walks.len())?;
    for walk in walks {
        codes.push(codes_of_walk(alloc, walk)?)?;
    }
    Ok(codes)
}

/// The numbers of marked walks.
pub(crate) fn codes_of_marks(alloc: Global, walks: &[MarkedWalk]) -> Result<Vec<Vec<u32>>, Memory> {
    let mut codes = Vec::with_capacity(alloc, walks.len())?;
    for walk in walks {
        codes.push(codes_of_marked(alloc, walk)?)?;
    }
    Ok(codes)
}
