//! Marked walks of the instance.

use crate::lifted::lifted_of;
use pesp_inequalities::Pass;
use pesp_network::NetRow;
use pesp_problem::{MarkedRow, MarkedWalk, Memory, SignedRow, Walk};
use pesp_reduce::Reduced;
use std::alloc::Global;

/// Whether a pass comes from this row of the instance.
fn comes_from(rows: &[NetRow], pass: &Pass, row: u32) -> bool {
    match rows.get(pass.row as usize) {
        Some(left) => left.origin == row,
        None => false,
    }
}

/// A lifted walk with the marks of its passes: a row that lifting put in between is plain.
fn marked_walk(
    alloc: Global,
    rows: &[NetRow],
    passes: &[Pass],
    lifted: &[SignedRow],
) -> Result<MarkedWalk, Memory> {
    let mut marked = Vec::new(alloc);
    let mut place = 0usize;
    for signed in lifted {
        let mut flipped = false;
        if let Some(pass) = passes.get(place) {
            if comes_from(rows, pass, signed.row) {
                flipped = pass.flipped;
                place = place.saturating_add(1);
            }
        }
        marked.push(MarkedRow {
            signed: *signed,
            flipped,
        })?;
    }
    Ok(MarkedWalk::new(marked))
}

/// Lifted walks with the marks of their passes.
fn marked_walks(
    alloc: Global,
    rows: &[NetRow],
    lists: &[Vec<Pass>],
    lifted: &[Walk],
) -> Result<Vec<MarkedWalk>, Memory> {
    let mut marked = Vec::new(alloc);
    for (place, passes) in lists.iter().enumerate() {
        if let Some(walk) = lifted.get(place) {
            marked.push(marked_walk(alloc, rows, passes, walk.rows())?)?;
        }
    }
    Ok(marked)
}

/// The marked walks of the instance that lists of passes name; None where one isn't closed, or they pass a limit.
pub fn marked_of(
    alloc: Global,
    reduced: &Reduced,
    lists: &[Vec<Pass>],
) -> Result<Option<Vec<MarkedWalk>>, Memory> {
    let Some(lifted) = lifted_of(alloc, reduced, lists)? else {
        return Ok(None);
    };
    let rows = reduced.network().rows();
    Ok(Some(marked_walks(alloc, rows, lists, &lifted)?))
}

/// The walk along the first row and back, flipped on the way along it. It gains what it costs at each slack, so a leaf that
/// names it is worth what it is worth without; but it has the scale of leaves that name a marked walk.
pub fn scale_walk(alloc: Global) -> Result<MarkedWalk, Memory> {
    let mut rows = Vec::new(alloc);
    for plus in [true, false] {
        rows.push(MarkedRow {
            signed: SignedRow { row: 1, plus },
            flipped: plus,
        })?;
    }
    Ok(MarkedWalk::new(rows))
}
