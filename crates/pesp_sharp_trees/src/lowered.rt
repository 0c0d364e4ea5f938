//! Walks of the instance as walks of what is left of it.

use crate::left::Left;
use pesp_inequalities::Pass;
use pesp_network::NetRow;
use pesp_problem::{Arc, MarkedRow, MarkedWalk, Memory, SignedRow, Walk};
use std::alloc::Global;

/// What becomes of a row of the instance: it is the row at this place of those that are left, it is contracted, or it isn't
/// there any more.
#[derive(Clone, Copy)]
enum Lowered {
    Left(u32),
    Contracted,
    Gone,
}

/// What becomes of each row of an instance, and the rows that are left.
#[derive(Drop)]
pub(crate) struct Lowering {
    lowered: Vec<Lowered>,
    left: Vec<NetRow>,
}

/// What becomes of rows that aren't left: of these the contracted ones have one duration alone.
fn if_not_left(alloc: Global, arcs: &[Arc]) -> Result<Vec<Lowered>, Memory> {
    let mut lowered = Vec::with_capacity(alloc, arcs.len())?;
    for arc in arcs {
        lowered.push(if arc.span == 0 {
            Lowered::Contracted
        } else {
            Lowered::Gone
        })?;
    }
    Ok(lowered)
}

/// The events from which and to which a pass leads.
fn ends_of(left: &[NetRow], pass: &Pass) -> Option<(u32, u32)> {
    let row = left.get(pass.row as usize)?;
    if pass.forwards {
        Some((row.tail, row.head))
    } else {
        Some((row.head, row.tail))
    }
}

/// Whether each pass begins where the one before it ends, and the first where the last one ends.
fn is_closed(left: &[NetRow], passes: &[Pass]) -> bool {
    let Some(last) = passes.last() else {
        return true;
    };
    let Some((_, mut at)) = ends_of(left, last) else {
        return true;
    };
    for pass in passes {
        match ends_of(left, pass) {
            Some((from, to)) if from == at => at = to,
            _ => return false,
        }
    }
    true
}

/// Plain rows.
fn plain_rows(alloc: Global, walk: &[SignedRow]) -> Result<Vec<MarkedRow>, Memory> {
    let mut rows = Vec::with_capacity(alloc, walk.len())?;
    for signed in walk {
        rows.push(MarkedRow {
            signed: *signed,
            flipped: false,
        })?;
    }
    Ok(rows)
}

impl Lowering {
    /// What becomes of the rows of an instance.
    pub(crate) fn of(left: Left<'_>) -> Result<Lowering, Memory> {
        let arcs = left.instance.arcs(left.alloc)?;
        let rows = left.network.rows();
        let mut lowered = if_not_left(left.alloc, &arcs)?;
        for (place, row) in rows.iter().enumerate() {
            let number = u32::try_from(place).unwrap_or(u32::MAX);
            if let Some(slot) = lowered.get_mut((row.origin as usize).wrapping_sub(1)) {
                *slot = Lowered::Left(number);
            }
        }
        Ok(Lowering {
            lowered,
            left: Vec::from_slice(left.alloc, rows)?,
        })
    }

    /// What becomes of a row, by its number from 1.
    fn row(&self, number: u32) -> Lowered {
        let place = (number as usize).wrapping_sub(1);
        self.lowered.get(place).copied().unwrap_or(Lowered::Gone)
    }

    /// A marked walk along the rows that are left; None where it passes one that is gone, or isn't closed.
    fn passes(&self, alloc: Global, rows: &[MarkedRow]) -> Result<Option<Vec<Pass>>, Memory> {
        let mut passes = Vec::new(alloc);
        for MarkedRow { signed, flipped } in rows {
            match self.row(signed.row) {
                Lowered::Left(row) => passes.push(Pass {
                    row,
                    forwards: signed.plus,
                    flipped: *flipped,
                })?,
                Lowered::Contracted => {}
                Lowered::Gone => return Ok(None),
            }
        }
        if is_closed(&self.left, &passes) {
            Ok(Some(passes))
        } else {
            Ok(None)
        }
    }

    /// Cycles along the rows that are left.
    pub(crate) fn cycles(
        &self,
        alloc: Global,
        cycles: &[Walk],
    ) -> Result<Vec<Option<Vec<Pass>>>, Memory> {
        let mut lowered = Vec::with_capacity(alloc, cycles.len())?;
        for cycle in cycles {
            let rows = plain_rows(alloc, cycle.rows())?;
            lowered.push(self.passes(alloc, &rows)?)?;
        }
        Ok(lowered)
    }

    /// Marked walks along the rows that are left.
    pub(crate) fn walks(
        &self,
        alloc: Global,
        walks: &[MarkedWalk],
    ) -> Result<Vec<Option<Vec<Pass>>>, Memory> {
        let mut lowered = Vec::with_capacity(alloc, walks.len())?;
        for walk in walks {
            lowered.push(self.passes(alloc, walk.rows())?)?;
        }
        Ok(lowered)
    }
}
