//! Leaves of programs, by their best multipliers, rounded.

use crate::sharpened::LeafMultipliers;
use pesp_sharp_nodes::{NodeProgram, OffsetBound, Origin};
use std::alloc::{AllocError, Global};

/// Adds a multiplier to the last pair where it is of the same cycle, else puts a pair behind it.
fn add_pair(pairs: &mut Vec<(u32, i64)>, cycle: u32, multiplier: i64) -> Result<(), AllocError> {
    if let Some(last) = pairs.last_mut()
        && last.0 == cycle
    {
        last.1 = last.1.saturating_add(multiplier);
        return Ok(());
    }
    pairs.push((cycle, multiplier))?;
    Ok(())
}

/// Pairs with one multiplier for each cycle, the sum of its multipliers, and none that is 0.
fn joined(alloc: Global, mut list: Vec<(u32, i64)>) -> Result<Vec<(u32, i64)>, AllocError> {
    list.sort_unstable_by_key(|pair| pair.0);
    let mut sums = Vec::new(alloc);
    for (cycle, multiplier) in &list {
        add_pair(&mut sums, *cycle, *multiplier)?;
    }
    let mut pairs = Vec::with_capacity(alloc, sums.len())?;
    for pair in &sums {
        if pair.1 != 0 {
            pairs.push(*pair)?;
        }
    }
    Ok(pairs)
}

/// The leaf of a program: its best multipliers, rounded. Walks have the numbers of the pool.
pub fn leaf_of(alloc: Global, relaxation: &NodeProgram) -> Result<LeafMultipliers, AllocError> {
    let mut pairs = Vec::new(alloc);
    let mut walks = Vec::new(alloc);
    for (place, member) in relaxation.members.iter().enumerate() {
        let multiplier = relaxation.program.rounded(place);
        if multiplier < 1 {
            continue;
        }
        match member.origin {
            Origin::Pooled(number) => walks.push((number, multiplier))?,
            Origin::Offset(OffsetBound { cycle, side, .. }) => {
                pairs.push((cycle, side.signed(multiplier)))?
            }
        }
    }
    walks.sort_unstable_by_key(|walk| walk.0);
    Ok(LeafMultipliers {
        pairs: joined(alloc, pairs)?,
        walks,
    })
}
