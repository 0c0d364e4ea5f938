//! The best basis of a leaf.

use crate::basis::{Basis, PivotEnd};
use pesp_forest::{Cycles, Frame};
use pesp_problem::Pair;
use std::alloc::{AllocError, Global};

/// How many pivots a basis may take.
pub const MOST_PIVOTS: u32 = 1_000_000;

/// Makes a basis the best one of a leaf; None where that has no ranges for some row or cycle.
pub fn settle(
    alloc: Global,
    frame: &Frame,
    cycles: &Cycles,
    basis: &mut Basis,
    slacks: &[(u32, u32)],
    offsets: &[(i64, i64)],
    pairs: &[Pair],
) -> Result<Option<PivotEnd>, AllocError> {
    if basis.set_ranges(frame, cycles, slacks, offsets).is_none() {
        return Ok(None);
    }
    if basis.rebuild(alloc, frame, cycles, pairs)?.is_none() {
        return Ok(None);
    }
    Ok(Some(basis.solve(frame, MOST_PIVOTS)))
}
