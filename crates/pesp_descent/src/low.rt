//! Lists of the cuts that hang low, for forests whose cuts have too many rows in all.

use pesp_forest::guarded::{count_one, number};
use pesp_problem::Arc;
use pesp_propagate::{Cuts, Entry, Rooted, put};

/// Which cuts are listed: those below which no event hangs more rows down than `most`.
#[derive(Clone, Copy)]
pub struct Low<'a> {
    pub heights: &'a [u32],
    pub most: u32,
}

impl Low<'_> {
    /// Whether the cut of what hangs below an event is listed.
    fn has(&self, event: u32) -> bool {
        self.most == u32::MAX || number(self.heights, event).unwrap_or(0) <= self.most
    }
}

/// From which end a row is climbed next, the head or else the tail: the deeper one that isn't too high. None where both
/// are too high, or have met.
fn next_end(rooted: &Rooted, low: &Low, head: u32, tail: u32) -> Option<bool> {
    if head == tail {
        return None;
    }
    match (low.has(head), low.has(tail)) {
        (true, true) => Some(number(&rooted.depth, head)? >= number(&rooted.depth, tail)?),
        (true, false) => Some(true),
        (false, true) => Some(false),
        (false, false) => None,
    }
}

/// Counts a row at each listed cut that it crosses, and gives what is left of the room; None where that is too little.
fn count_row(
    rooted: &Rooted,
    low: &Low,
    counts: &mut [u32],
    arc: &Arc,
    room: usize,
) -> Option<usize> {
    let mut head = arc.head;
    let mut tail = arc.tail;
    for left in (0..room).rev() {
        let Some(from_head) = next_end(rooted, low, head, tail) else {
            return left.checked_add(1);
        };
        let at = if from_head { head } else { tail };
        count_one(counts, at)?;
        let up = number(&rooted.up, at)?;
        if from_head {
            head = up;
        } else {
            tail = up;
        }
    }
    None
}

/// Counts all rows at the listed cuts that they cross, and gives how many there are in all; None where that isn't below
/// the room.
pub fn count_rows(
    rooted: &Rooted,
    low: &Low,
    counts: &mut [u32],
    arcs: &[Arc],
    room: usize,
) -> Option<usize> {
    let mut left = room;
    for arc in arcs {
        left = count_row(rooted, low, counts, arc, left)?;
    }
    room.checked_sub(left)
}

/// Puts a row into the lists of the listed cuts that it crosses.
fn list_row(rooted: &Rooted, low: &Low, cuts: &mut Cuts, arc: &Arc, row: u32) -> Option<()> {
    let mut head = arc.head;
    let mut tail = arc.tail;
    for _ in 0..cuts.entries.len() {
        let Some(inward) = next_end(rooted, low, head, tail) else {
            return Some(());
        };
        let at = if inward { head } else { tail };
        if !put(cuts, at, Entry { row, inward }) {
            return None;
        }
        let up = number(&rooted.up, at)?;
        if inward {
            head = up;
        } else {
            tail = up;
        }
    }
    Some(())
}

/// Puts all rows into the lists of the listed cuts that they cross.
pub(crate) fn list_low(rooted: &Rooted, low: &Low, cuts: &mut Cuts, arcs: &[Arc]) -> Option<()> {
    let mut row: u32 = 0;
    for arc in arcs {
        list_row(rooted, low, cuts, arc, row)?;
        row = row.wrapping_add(1);
    }
    Some(())
}
