//! Forests of rows of small keys (Kruskal 1956).

use pesp_forest::{Frame, Groups, Random};
use pesp_network::NetRow;
use std::alloc::{AllocError, Global};

/// A row with a key by which rows are taken.
#[derive(Clone, Copy)]
pub struct Keyed {
    pub key: u64,
    pub row: u32,
}

impl Keyed {
    /// Whether it comes before another: by its key, or by its row where keys are the same.
    pub fn is_before(&self, other: &Keyed) -> bool {
        self.key < other.key || self.key == other.key && self.row < other.row
    }
}

/// Whether keys are the plain ones, or each grows by a factor from 1 to 5 that is drawn.
#[derive(Clone, Copy, PartialEq, Eq)]
pub enum Keys {
    Plain,
    Drawn,
}

/// The key of a row: less the smaller its span, and the greater its weight.
fn key_of(row: &NetRow) -> u64 {
    let span = u64::from(row.span).saturating_mul(1_000_000);
    span / row.weight.saturating_add(1)
}

/// The rows with their keys.
fn keyed_by_span(
    alloc: Global,
    frame: &Frame,
    keys: Keys,
    random: &mut Random,
) -> Result<Vec<Keyed>, AllocError> {
    let mut list = Vec::with_capacity(alloc, frame.rows().len())?;
    for (place, row) in frame.rows().iter().enumerate() {
        let grown = match keys {
            Keys::Plain => 256,
            Keys::Drawn => random.below(1024).saturating_add(256),
        };
        list.push(Keyed {
            key: key_of(row).saturating_mul(grown),
            row: u32::try_from(place).unwrap_or(u32::MAX),
        })?;
    }
    Ok(list)
}

/// The rows of the forest of smallest keys, by their numbers from 1.
pub fn least_rows(
    alloc: Global,
    frame: &Frame,
    list: &mut Vec<Keyed>,
) -> Result<Vec<u32>, AllocError> {
    list.sort_unstable_by_key(|keyed| (keyed.key, keyed.row));
    let mut groups = Groups::apart(alloc, u32::try_from(frame.events()).unwrap_or(0))?;
    let mut numbers = Vec::new(alloc);
    for keyed in list.iter() {
        let Some(row) = frame.row(keyed.row) else {
            continue;
        };
        if groups.join(row.tail, row.head) == Some(true) {
            numbers.push(keyed.row.saturating_add(1))?;
        }
    }
    Ok(numbers)
}

/// The rows of a forest of small span by weight, by their numbers from 1.
pub fn light_forest(
    alloc: Global,
    frame: &Frame,
    keys: Keys,
    random: &mut Random,
) -> Result<Vec<u32>, AllocError> {
    let mut list = keyed_by_span(alloc, frame, keys, random)?;
    least_rows(alloc, frame, &mut list)
}
