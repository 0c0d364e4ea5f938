//! The ranges of a network's root.

use crate::basis::{Basis, PivotEnd};
use crate::best_leaf::settle;
use pesp_forest::{Cycles, Frame, RowForest, Spans};
use std::alloc::{AllocError, Global};

/// A forest's cycles with sums of durations along it, and the offsets that the root leaves to each cycle.
#[derive(Drop)]
pub struct Root {
    pub cycles: Cycles,
    pub spans: Spans,
    pub offsets: Vec<(i64, i64)>,
}

/// Slacks from 0 to the span of each row.
pub fn root_slacks(alloc: Global, frame: &Frame) -> Result<Vec<(u32, u32)>, AllocError> {
    let mut slacks = Vec::with_capacity(alloc, frame.rows().len())?;
    for row in frame.rows() {
        slacks.push((0, row.span))?;
    }
    Ok(slacks)
}

/// The offsets that these slacks leave to a cycle's row; None where there are none.
fn offsets_of(frame: &Frame, cycles: &Cycles, spans: &Spans, row: u32) -> Option<(i64, i64)> {
    let (low, high) = spans.offsets(frame, cycles.forest(), row)?;
    if low > high {
        return None;
    }
    Some((low, high))
}

/// The offsets that these slacks leave to each cycle; None where one has none.
fn root_offsets(
    alloc: Global,
    frame: &Frame,
    cycles: &Cycles,
    spans: &Spans,
) -> Result<Option<Vec<(i64, i64)>>, AllocError> {
    let mut offsets = Vec::with_capacity(alloc, cycles.count())?;
    for row in cycles.outside() {
        let Some(range) = offsets_of(frame, cycles, spans, *row) else {
            return Ok(None);
        };
        offsets.push(range)?;
    }
    Ok(Some(offsets))
}

/// The cycles of a forest's rows, numbered from 1, with sums along the forest.
fn summed(
    alloc: Global,
    frame: &Frame,
    numbers: &[u32],
) -> Result<Option<(Cycles, Spans)>, AllocError> {
    let Some(forest) = RowForest::new(alloc, frame, numbers)? else {
        return Ok(None);
    };
    match Spans::new(alloc, frame, &forest) {
        Ok(Some(spans)) => Ok(Some((Cycles::new(alloc, forest)?, spans))),
        Ok(None) => {
            drop(forest);
            Ok(None)
        }
        Err(refused) => {
            drop(forest);
            Err(refused)
        }
    }
}

impl Root {
    /// The root by a forest's rows, numbered from 1; None where a cycle has no offset.
    pub fn new(alloc: Global, frame: &Frame, numbers: &[u32]) -> Result<Option<Root>, AllocError> {
        let Some((cycles, spans)) = summed(alloc, frame, numbers)? else {
            return Ok(None);
        };
        match root_offsets(alloc, frame, &cycles, &spans) {
            Ok(Some(offsets)) => Ok(Some(Root {
                cycles,
                spans,
                offsets,
            })),
            Ok(None) => {
                drop(cycles);
                Ok(None)
            }
            Err(refused) => {
                drop(cycles);
                Err(refused)
            }
        }
    }

    /// The best basis of the root; None where the root has no timetable, or where it wasn't found.
    pub fn best_basis(&self, alloc: Global, frame: &Frame) -> Result<Option<Basis>, AllocError> {
        let slacks = root_slacks(alloc, frame)?;
        let mut basis = Basis::idle(alloc, frame)?;
        let Root {
            cycles,
            offsets,
            ..
        } = self;
        match settle(alloc, frame, cycles, &mut basis, &slacks, offsets, &[]) {
            Ok(Some(PivotEnd::Best)) => Ok(Some(basis)),
            Ok(_) => {
                drop(basis);
                Ok(None)
            }
            Err(refused) => {
                drop(basis);
                Err(refused)
            }
        }
    }
}
