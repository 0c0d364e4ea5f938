//! Listed activities that make up one closed walk.

use pesp_problem::{Instance, Row};
use std::alloc::{AllocError, Global};

/// An activity that a walk passes: by its place among those that are listed, from its tail to its head or back, and the event to
/// which the walk comes.
#[derive(Clone, Copy)]
pub struct Passed<'a> {
    pub row: &'a Row,
    place: usize,
    pub forward: bool,
    pub to: u32,
}

impl<'a> Passed<'a> {
    /// The same activity, passed the other way.
    fn back(self) -> Passed<'a> {
        let row = self.row;
        Passed {
            forward: !self.forward,
            to: if self.forward { row.tail } else { row.head },
            ..self
        }
    }
}

/// The listed rows.
fn listed_rows<'a>(
    alloc: Global,
    instance: &'a Instance,
    numbers: &[u32],
) -> Result<Vec<&'a Row>, AllocError> {
    let mut rows = Vec::new(alloc);
    for number in numbers {
        let place = (*number as usize).saturating_sub(1);
        if let Some(row) = instance.rows().get(place) {
            rows.push(row)?;
        }
    }
    Ok(rows)
}

/// The row at a place, passed from an event, where it has that event.
fn passed_from<'a>(row: &'a Row, place: usize, event: u32) -> Option<Passed<'a>> {
    if row.tail == event {
        return Some(Passed {
            row,
            place,
            forward: true,
            to: row.head,
        });
    }
    if row.head == event {
        return Some(Passed {
            row,
            place,
            forward: false,
            to: row.tail,
        });
    }
    None
}

/// The one row other than the last one that has an event; None where none or several have it.
fn only_from<'a>(rows: &[&'a Row], last: usize, event: u32) -> Option<Passed<'a>> {
    let mut found = None;
    for (place, row) in rows.iter().enumerate() {
        let passed = passed_from(row, place, event);
        if place == last || passed.is_none() {
            continue;
        }
        if found.is_some() {
            return None;
        }
        found = passed;
    }
    found
}

/// The closed walk that these rows make up, from the tail of the first one on; None where they make up none, or the walk
/// comes to an event twice.
fn walk_of<'a>(alloc: Global, rows: &[&'a Row]) -> Result<Option<Vec<Passed<'a>>>, AllocError> {
    let mut walk = Vec::new(alloc);
    let Some(first) = rows.first() else {
        return Ok(None);
    };
    let (start, mut next) = (first.tail, passed_from(first, 0, first.tail));
    for _ in 0..rows.len() {
        let Some(passed) = next else {
            return Ok(None);
        };
        walk.push(passed)?;
        next = only_from(rows, passed.place, passed.to);
    }
    let comes_back = match (walk.last(), next) {
        (Some(last), Some(again)) => last.to == start && again.place == 0,
        _ => false,
    };
    if comes_back { Ok(Some(walk)) } else { Ok(None) }
}

/// The closed walk that the listed rows make up; None where they make up none.
pub fn closed_walk<'a>(
    alloc: Global,
    instance: &'a Instance,
    numbers: &[u32],
) -> Result<Option<Vec<Passed<'a>>>, AllocError> {
    let rows = listed_rows(alloc, instance, numbers)?;
    walk_of(alloc, &rows)
}

/// The same closed walk the other way round, from the same event on.
pub fn turned<'a>(alloc: Global, walk: &[Passed<'a>]) -> Result<Vec<Passed<'a>>, AllocError> {
    let mut other = Vec::new(alloc);
    for passed in walk.iter().rev() {
        other.push(passed.back())?;
    }
    Ok(other)
}
