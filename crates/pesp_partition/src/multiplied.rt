//! The inequalities of a root with their multipliers.

use pesp_forest::Frame;
use pesp_inequalities::{Inequality, Pass};
use pesp_network::Network;
use pesp_offset_tree::{LeafMultipliers, SharpLine, Sharpened};
use std::alloc::{AllocError, Global};

/// An inequality of a root, by its number among the walks that are told. The multiplier is in units of the root's scale. The gain
/// is what its weighted distances are at least. Its events are each there once.
#[derive(Drop)]
pub struct Multiplied {
    pub walk: u32,
    pub inequality: Inequality,
    pub multiplier: i64,
    pub gain: i64,
    pub events: Vec<u32>,
}

/// What the weighted distances of an inequality are at least. Flipped rows add to what its terms are at least.
fn gain_of(frame: &Frame, inequality: &Inequality) -> i64 {
    let mut gain = inequality.least;
    for term in &inequality.terms {
        let span = frame.row(term.row).map_or(0, |row| i64::from(row.span));
        if term.coefficient < 0 {
            let part = i64::from(term.coefficient).saturating_mul(span);
            gain = gain.saturating_sub(part);
        }
    }
    gain
}

/// The events at both ends of the rows that a walk passes, in rising order.
fn ends_of(alloc: Global, frame: &Frame, passes: &[Pass]) -> Result<Vec<u32>, AllocError> {
    let mut ends = Vec::new(alloc);
    for pass in passes {
        if let Some(row) = frame.row(pass.row) {
            ends.push(row.tail)?;
            ends.push(row.head)?;
        }
    }
    ends.sort_unstable_by_key(|event| *event);
    Ok(ends)
}

/// Events in rising order, each once.
fn each_once(alloc: Global, ends: &[u32]) -> Result<Vec<u32>, AllocError> {
    let mut events = Vec::new(alloc);
    let mut last = None;
    for event in ends {
        if last != Some(*event) {
            events.push(*event)?;
            last = Some(*event);
        }
    }
    Ok(events)
}

/// The events at both ends of the rows that a walk passes, in rising order, each once.
fn events_of(alloc: Global, frame: &Frame, passes: &[Pass]) -> Result<Vec<u32>, AllocError> {
    let ends = ends_of(alloc, frame, passes)?;
    each_once(alloc, &ends)
}

/// The leaf of a tree that is one bound leaf.
fn leaf_of(root: &Sharpened) -> Option<&LeafMultipliers> {
    match root.lines.first() {
        Some(SharpLine::Bound(leaf)) => Some(leaf),
        _ => None,
    }
}

/// An inequality with its multiplier; None where the walk isn't there or says nothing.
fn with_multiplier(
    alloc: Global,
    frame: &Frame,
    root: &Sharpened,
    walk: u32,
    multiplier: i64,
) -> Result<Option<Multiplied>, AllocError> {
    let Some(passes) = root.walks.get(walk as usize) else {
        return Ok(None);
    };
    let events = events_of(alloc, frame, passes)?;
    let passes = Vec::from_slice(alloc, passes)?;
    let Some(inequality) = Inequality::of(alloc, frame, passes)? else {
        return Ok(None);
    };
    let gain = gain_of(frame, &inequality);
    Ok(Some(Multiplied {
        walk,
        inequality,
        multiplier,
        gain,
        events,
    }))
}

/// The inequalities of a root's leaf with their multipliers; none where the tree isn't one bound leaf.
fn multiplied_of(
    alloc: Global,
    frame: &Frame,
    root: &Sharpened,
) -> Result<Vec<Multiplied>, AllocError> {
    let mut list = Vec::new(alloc);
    let Some(leaf) = leaf_of(root) else {
        return Ok(list);
    };
    for (walk, multiplier) in &leaf.walks {
        if let Some(found) = with_multiplier(alloc, frame, root, *walk, *multiplier)? {
            list.push(found)?;
        }
    }
    Ok(list)
}

/// The inequalities of the root of a network with their multipliers; none where its tree isn't one bound leaf.
pub fn inequalities_of(
    alloc: Global,
    network: &Network,
    root: &Sharpened,
) -> Result<Vec<Multiplied>, AllocError> {
    let frame = Frame::new(alloc, network)?;
    let inequalities = multiplied_of(alloc, &frame, root);
    drop(frame);
    inequalities
}

impl Multiplied {
    /// What it adds to the bound of the root by its distances.
    pub fn share(&self) -> u128 {
        let multiplier = u128::try_from(self.multiplier).unwrap_or(0);
        multiplier.saturating_mul(u128::try_from(self.gain).unwrap_or(0))
    }
}
