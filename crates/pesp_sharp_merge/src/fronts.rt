//! The cycles and the marked walks of the certificate that comes of two.

use crate::lemmas::copied_cycles;
use crate::names::Numbering;
use pesp_cert::Front;
use pesp_problem::{MarkedWalk, Memory, Walk};
use std::alloc::Global;

/// The marked walks of a front.
pub(crate) fn walks_of(front: &Option<Front>) -> &[MarkedWalk] {
    match front {
        Some(front) => front.marks().walks(),
        None => &[],
    }
}

/// Puts copies of the walks at some places behind others.
fn add_walks(
    alloc: Global,
    walks: &mut Vec<MarkedWalk>,
    from: &[MarkedWalk],
    places: &[u32],
) -> Result<(), Memory> {
    for place in places {
        if let Some(walk) = from.get(*place as usize) {
            walks.push(MarkedWalk::new(Vec::from_slice(alloc, walk.rows())?))?;
        }
    }
    Ok(())
}

/// Our cycles, and behind them those of the other certificate that are new.
pub(crate) fn joined_cycles(
    alloc: Global,
    own: &[Walk],
    other: &[Walk],
    numbering: &Numbering,
) -> Result<Vec<Walk>, Memory> {
    let mut cycles = copied_cycles(alloc, own)?;
    for place in &numbering.new_cycles {
        if let Some(walk) = other.get(*place as usize) {
            cycles.push(Walk::new(Vec::from_slice(alloc, walk.rows())?))?;
        }
    }
    Ok(cycles)
}

/// Our walks that are named, and behind them those of the other certificate that are new.
pub(crate) fn joined_walks(
    alloc: Global,
    own: &[MarkedWalk],
    other: &[MarkedWalk],
    numbering: &Numbering,
) -> Result<Vec<MarkedWalk>, Memory> {
    let mut walks = Vec::new(alloc);
    add_walks(alloc, &mut walks, own, &numbering.kept_walks)?;
    add_walks(alloc, &mut walks, other, &numbering.new_walks)?;
    Ok(walks)
}
