//! Marks of events, whatever order they came in.

use pesp_forest::Random;
use pesp_network::{NetRow, Network};
use std::alloc::{AllocError, Global};

/// How often each event is marked anew by the marks of those around it.
const ROUNDS: u32 = 16;

/// A number by which a row's head sees another mark than its tail.
const AT_HEAD: u64 = 0x9e37_79b9_7f4a_7c15;

/// A number drawn by another one.
fn drawn_by(number: u64) -> u64 {
    Random::new(number).next()
}

/// A mark of an event.
pub(crate) fn mark(marks: &[u64], event: u32) -> u64 {
    marks.get(event as usize).copied().unwrap_or(0)
}

/// Adds to the mark of an event.
fn add(marks: &mut [u64], event: u32, seen: u64) {
    if let Some(mark) = marks.get_mut(event as usize) {
        *mark = mark.wrapping_add(seen);
    }
}

/// Adds what the ends of each row see of each other along it: its span, its weight and the other's mark.
fn look_around(rows: &[NetRow], before: &[u64], marks: &mut [u64]) {
    for row in rows {
        let kind = row
            .weight
            .wrapping_shl(16)
            .wrapping_add(u64::from(row.span));
        let at_tail = kind.wrapping_add(mark(before, row.head));
        let at_head = (kind ^ AT_HEAD).wrapping_add(mark(before, row.tail));
        add(marks, row.tail, drawn_by(at_tail));
        add(marks, row.head, drawn_by(at_head));
    }
}

/// Marks of the events, by what is around them (Weisfeiler and Leman 1968): events that differ in that have, but for chance, marks
/// of their own. All begin with the first mark.
pub(crate) fn marks_of(
    alloc: Global,
    network: &Network,
    first: u64,
) -> Result<Vec<u64>, AllocError> {
    let mut marks = vec![in alloc; first; network.events() as usize]?;
    for _ in 0..ROUNDS {
        let before = Vec::from_slice(alloc, &marks)?;
        look_around(network.rows(), &before, &mut marks);
    }
    Ok(marks)
}
