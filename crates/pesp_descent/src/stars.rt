//! The rows at each event, as lists of the cuts of events alone.

use pesp_forest::guarded::count_one;
use pesp_problem::{Arc, Memory};
use pesp_propagate::{Cuts, Entry, lay_out, put};
use std::alloc::Global;

/// How many rows lead from each event to another.
fn count_rows(counts: &mut [u32], arcs: &[Arc]) -> Option<()> {
    for arc in arcs {
        if arc.tail != arc.head {
            count_one(counts, arc.tail)?;
            count_one(counts, arc.head)?;
        }
    }
    Some(())
}

/// So many empty lists, with room for so many entries in all.
pub fn empty_lists(alloc: Global, lists: usize, room: usize) -> Result<Cuts, Memory> {
    let none = Entry {
        row: 0,
        inward: false,
    };
    let mut starts = vec![in alloc; 0usize; lists]?;
    starts.push(0)?;
    Ok(Cuts {
        starts,
        ends: vec![in alloc; 0usize; lists]?,
        entries: vec![in alloc; none; room]?,
    })
}

/// The rows at each event that lead to another.
pub(crate) fn stars_of(alloc: Global, events: usize, arcs: &[Arc]) -> Result<Cuts, Memory> {
    let mut counts = vec![in alloc; 0u32; events]?;
    let _counted = count_rows(&mut counts, arcs);
    let mut stars = empty_lists(alloc, events, arcs.len().saturating_mul(2))?;
    let _laid = lay_out(&mut stars, &counts);
    let mut row: u32 = 0;
    for arc in arcs {
        if arc.tail != arc.head {
            let _put_at_tail = put(&mut stars, arc.tail, Entry { row, inward: false });
            let _put_at_head = put(&mut stars, arc.head, Entry { row, inward: true });
        }
        row = row.wrapping_add(1);
    }
    Ok(stars)
}
