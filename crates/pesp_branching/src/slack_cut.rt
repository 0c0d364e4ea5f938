//! A cut of slacks, one of whose parts propagation shuts, among those of the widest ranges.

use pesp_network::Network;
use pesp_nodes::Node;
use pesp_problem::Memory;
use pesp_propagate::supports_none;
use pesp_reduce::Reduced;
use std::alloc::Global;

/// How many cuts are looked at.
const LOOKS: u32 = 16;

/// A cut of the slacks of a row, numbered from 1, at a number.
#[derive(Clone, Copy)]
pub struct Narrowing {
    pub row: u32,
    pub k: u32,
}

/// How wide the slack range of a row is.
#[derive(Clone, Copy)]
struct Width {
    slacks: u32,
    row: u32,
}

impl Width {
    /// Whether it is less than another; where both are equal, the number of the row decides.
    fn is_below(&self, other: &Width) -> bool {
        self.slacks < other.slacks || (self.slacks == other.slacks && self.row < other.row)
    }
}

/// The slack range of a row; one of 0 alone where there is no such row.
fn range_of(slacks: &[(u32, u32)], row: u32) -> (u32, u32) {
    let place = (row as usize).wrapping_sub(1);
    slacks.get(place).copied().unwrap_or((0, 0))
}

/// The greatest width below another, of a row that is left of the instance.
fn next_width(reduced: &Reduced, slacks: &[(u32, u32)], last: Width) -> Width {
    let mut next = Width { slacks: 0, row: 0 };
    for row in reduced.network().rows() {
        let (low, high) = range_of(slacks, row.origin);
        let width = Width {
            slacks: high.saturating_sub(low),
            row: row.origin,
        };
        if width.is_below(&last) && next.is_below(&width) {
            next = width;
        }
    }
    next
}

/// Whether propagation shuts a node with these slack ranges once that of a row is another.
fn is_shut_with(
    alloc: Global,
    network: &Network,
    slacks: &[(u32, u32)],
    row: u32,
    range: (u32, u32),
) -> Result<bool, Memory> {
    let mut ranges = slacks.to_vec(alloc)?;
    let place = (row as usize).wrapping_sub(1);
    if place < ranges.len() {
        ranges[place] = range;
    }
    if ranges.len() != network.rows().len() {
        return Ok(false);
    }
    supports_none(alloc, network, &ranges)
}

/// Whether propagation shuts a part of a cut.
fn shuts_a_part(
    alloc: Global,
    network: &Network,
    slacks: &[(u32, u32)],
    cut: Narrowing,
) -> Result<bool, Memory> {
    let Narrowing { row, k } = cut;
    let (low, high) = range_of(slacks, row);
    if is_shut_with(alloc, network, slacks, row, (low, k))? {
        return Ok(true);
    }
    is_shut_with(alloc, network, slacks, row, (k.saturating_add(1), high))
}

/// A cut of slacks in the middle of a range, one of whose parts propagation shuts: the first such cut from the widest range
/// down. None where no look finds one, or no row that is left has two slacks.
pub(crate) fn narrow(
    alloc: Global,
    network: &Network,
    reduced: &Reduced,
    node: &Node,
) -> Result<Option<Narrowing>, Memory> {
    let slacks = node.slacks();
    let mut last = Width {
        slacks: u32::MAX,
        row: u32::MAX,
    };
    for _look in 0..LOOKS {
        last = next_width(reduced, slacks, last);
        if last.slacks == 0 {
            return Ok(None);
        }
        let (low, _) = range_of(slacks, last.row);
        let cut = Narrowing {
            row: last.row,
            k: low.saturating_add(last.slacks.saturating_sub(1) / 2),
        };
        if shuts_a_part(alloc, network, slacks, cut)? {
            return Ok(Some(cut));
        }
    }
    Ok(None)
}
