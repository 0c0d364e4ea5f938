//! Which rows and which inequalities are inside a region.

use crate::multiplied::Multiplied;
use pesp_network::NetRow;
use std::alloc::{AllocError, Global};

/// How many rows a region has at least.
const LEAST_ROWS: u32 = 40;

/// The region of each row, and how many rows each region has. A row has none where its ends are in two parts, or its part has few
/// rows.
#[derive(Drop)]
pub struct Division {
    pub regions: Vec<Option<u32>>,
    pub sizes: Vec<u32>,
}

/// The part of a row, where both of its ends are in one.
fn part_of(labels: &[u32], row: &NetRow) -> Option<u32> {
    let tail = labels.get(row.tail as usize).copied()?;
    let head = labels.get(row.head as usize).copied()?;
    (tail == head).then_some(tail)
}

/// How many rows each part has, by its label.
fn counts_of(alloc: Global, labels: &[u32], rows: &[NetRow]) -> Result<Vec<u32>, AllocError> {
    let mut counts = vec![in alloc; 0u32; labels.len()]?;
    for row in rows {
        if let Some(part) = part_of(labels, row)
            && let Some(count) = counts.get_mut(part as usize)
        {
            *count = count.saturating_add(1);
        }
    }
    Ok(counts)
}

/// The number of the region of each part, none where it has few rows. The sizes of regions are put into a list.
fn numbers_of(
    alloc: Global,
    counts: &[u32],
    sizes: &mut Vec<u32>,
) -> Result<Vec<Option<u32>>, AllocError> {
    let mut numbers = Vec::with_capacity(alloc, counts.len())?;
    for count in counts {
        if *count >= LEAST_ROWS {
            let next = u32::try_from(sizes.len()).unwrap_or(u32::MAX);
            numbers.push(Some(next))?;
            sizes.push(*count)?;
        } else {
            numbers.push(None)?;
        }
    }
    Ok(numbers)
}

impl Division {
    /// The division of rows by the parts of events.
    pub fn of(alloc: Global, labels: &[u32], rows: &[NetRow]) -> Result<Division, AllocError> {
        let counts = counts_of(alloc, labels, rows)?;
        let mut sizes = Vec::new(alloc);
        let numbers = numbers_of(alloc, &counts, &mut sizes)?;
        let mut regions = Vec::with_capacity(alloc, rows.len())?;
        for row in rows {
            let region = match part_of(labels, row) {
                Some(part) => numbers.get(part as usize).copied().unwrap_or(None),
                None => None,
            };
            regions.push(region)?;
        }
        Ok(Division { regions, sizes })
    }

    /// The region of a row.
    pub fn of_row(&self, row: u32) -> Option<u32> {
        self.regions.get(row as usize).copied().unwrap_or(None)
    }

    /// How many regions there are.
    pub fn count(&self) -> u32 {
        u32::try_from(self.sizes.len()).unwrap_or(u32::MAX)
    }

    /// The region that has all rows of an inequality; None where it crosses.
    pub fn home(&self, inequality: &Multiplied) -> Option<u32> {
        let mut home = None;
        for pass in &inequality.inequality.passes {
            let region = self.of_row(pass.row)?;
            if home.is_some_and(|other| other != region) {
                return None;
            }
            home = Some(region);
        }
        home
    }
}
