//! What regions are worth together, and which of them show that.

use crate::nested::Nested;
use std::alloc::{AllocError, Global};

/// What each region is worth by its own tree, by those inside it, and by the better of both.
#[derive(Clone, Copy)]
pub(crate) struct Worth {
    pub(crate) own: i128,
    pub(crate) inner: Option<i128>,
}

impl Worth {
    /// The better of both.
    pub(crate) fn best(self) -> i128 {
        match self.inner {
            Some(inner) => inner.max(self.own),
            None => self.own,
        }
    }

    /// Whether those inside show more.
    pub(crate) fn is_inner(self) -> bool {
        self.inner.is_some_and(|inner| inner > self.own)
    }
}

/// What a region shows by its own tree.
fn own_of(region: &Nested) -> i128 {
    let constant = i128::from(region.search.region.constant);
    i128::from(region.search.bound()).saturating_add(constant)
}

/// What the regions inside one show together; None where there is none.
fn inner_of(region: &Nested, worths: &[Worth]) -> Option<i128> {
    if region.inner.is_empty() {
        return None;
    }
    let mut sum = region.extra;
    for number in &region.inner {
        let worth = worths.get(*number as usize).copied()?;
        sum = sum.saturating_add(worth.best());
    }
    Some(sum)
}

/// What each region is worth. Those inside a region stand before it.
pub(crate) fn worths_of(alloc: Global, regions: &[Nested]) -> Result<Vec<Worth>, AllocError> {
    let mut worths: Vec<Worth> = Vec::with_capacity(alloc, regions.len())?;
    for region in regions {
        let inner = inner_of(region, &worths);
        worths.push(Worth {
            own: own_of(region),
            inner,
        })?;
    }
    Ok(worths)
}

/// The regions that show the most together, of these outer ones and those inside them.
pub(crate) fn selected(
    alloc: Global,
    regions: &[Nested],
    worths: &[Worth],
    outer: &[u32],
) -> Result<Vec<u32>, AllocError> {
    let mut waiting = Vec::from_slice(alloc, outer)?;
    let mut chosen = Vec::new(alloc);
    for _ in 0..regions.len() {
        let Some(number) = waiting.pop() else {
            break;
        };
        let is_inner = worths
            .get(number as usize)
            .is_some_and(|worth| worth.is_inner());
        match regions.get(number as usize) {
            Some(region) if is_inner => waiting.extend_from_slice(&region.inner)?,
            _ => chosen.push(number)?,
        }
    }
    Ok(chosen)
}
