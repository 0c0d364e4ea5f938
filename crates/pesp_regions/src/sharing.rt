//! A share of regions: those that one search looks at, where others look at the rest.

use crate::nested::Nested;
use pesp_problem::Share;
use std::alloc::{AllocError, Global};
use std::cmp::Reverse;

/// A region with more than so many even parts of the work gives way to those inside it.
const MOST_PARTS: u128 = 2;

/// How much work a region is taken to be: its rows times their root.
pub(crate) fn size_of(region: &Nested) -> u128 {
    let rows = region.search.region.rows.len() as u128;
    rows.saturating_mul(rows.saturating_mul(1 << 16).isqrt())
}

/// The size of the region of a number.
fn size_at(nested: &[Nested], number: u32) -> u128 {
    nested
        .get(number as usize)
        .map_or(0, |region| size_of(region))
}

/// How many regions are inside the one of a number.
fn inner_count(nested: &[Nested], number: u32) -> usize {
    nested
        .get(number as usize)
        .map_or(0, |region| region.inner.len())
}

/// The place of the largest of some regions that has several inside it.
fn largest(nested: &[Nested], regions: &[u32]) -> Option<usize> {
    let mut found = None;
    let mut most = 0u128;
    for (place, number) in regions.iter().enumerate() {
        let size = size_at(nested, *number);
        if inner_count(nested, *number) > 1 && size > most {
            found = Some(place);
            most = size;
        }
    }
    found
}

/// Has the regions inside one in its place.
fn open_at(nested: &[Nested], regions: &mut Vec<u32>, place: usize) -> Result<(), AllocError> {
    let Some(number) = regions.get(place).copied() else {
        return Ok(());
    };
    regions.remove(place);
    if let Some(region) = nested.get(number as usize) {
        regions.extend_from_slice(&region.inner)?;
    }
    Ok(())
}

/// The size of all of some regions.
fn size_of_all(nested: &[Nested], regions: &[u32]) -> u128 {
    let mut sum = 0u128;
    for number in regions {
        sum = sum.saturating_add(size_at(nested, *number));
    }
    sum
}

/// The outer regions, for so many shares; those inside a region stand in its place where it has much more than an even part.
fn opened(
    alloc: Global,
    nested: &[Nested],
    outer: &[u32],
    shares: u32,
) -> Result<Vec<u32>, AllocError> {
    let most = size_of_all(nested, outer).saturating_mul(MOST_PARTS);
    let mut regions = Vec::from_slice(alloc, outer)?;
    for _ in 0..nested.len() {
        let Some(place) = largest(nested, &regions) else {
            return Ok(regions);
        };
        let size = regions.get(place).map_or(0, |it| size_at(nested, *it));
        if size.saturating_mul(u128::from(shares)) <= most {
            return Ok(regions);
        }
        open_at(nested, &mut regions, place)?;
    }
    Ok(regions)
}

/// The place of the least of some sums.
fn least_of(sums: &[u128]) -> usize {
    let mut least = 0usize;
    for (place, sum) in sums.iter().enumerate() {
        if sums.get(least).is_none_or(|other| sum < other) {
            least = place;
        }
    }
    least
}

/// Those of some regions that a share has. They are dealt by falling size, each to the share that has least so far.
fn dealt(
    alloc: Global,
    nested: &[Nested],
    regions: &[u32],
    share: Share,
) -> Result<Vec<u32>, AllocError> {
    let mut sums = vec![in alloc; 0u128; share.of as usize]?;
    let mut own = Vec::new(alloc);
    for number in regions {
        let place = least_of(&sums);
        if let Some(sum) = sums.get_mut(place) {
            *sum = sum.saturating_add(size_at(nested, *number));
        }
        if place == share.number as usize {
            own.push(*number)?;
        }
    }
    Ok(own)
}

/// The regions of a share, none of which is inside another one.
pub(crate) fn share_of(
    alloc: Global,
    nested: &[Nested],
    outer: &[u32],
    share: Share,
) -> Result<Vec<u32>, AllocError> {
    let mut regions = opened(alloc, nested, outer, share.of)?;
    regions.sort_unstable_by_key(|number| (Reverse(size_at(nested, *number)), *number));
    dealt(alloc, nested, &regions, share)
}

/// Which regions are among some, or inside one of these.
pub(crate) fn with_inner(
    alloc: Global,
    nested: &[Nested],
    regions: &[u32],
) -> Result<Vec<bool>, AllocError> {
    let mut are_there = vec![in alloc; false; nested.len()]?;
    let mut waiting = Vec::from_slice(alloc, regions)?;
    for _ in 0..nested.len() {
        let Some(number) = waiting.pop() else {
            return Ok(are_there);
        };
        if let Some(slot) = are_there.get_mut(number as usize) {
            *slot = true;
        }
        if let Some(region) = nested.get(number as usize) {
            waiting.extend_from_slice(&region.inner)?;
        }
    }
    Ok(are_there)
}
