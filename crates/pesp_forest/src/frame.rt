//! A network's rows, and the rows at each event.

use crate::middle::middle_of;
use pesp_network::{NetRow, Network};
use std::alloc::{AllocError, Global};

/// A row at an event, and the event at its other end.
#[derive(Clone, Copy, PartialEq, Eq)]
pub struct Link {
    pub row: u32,
    pub other: u32,
}

/// What a relaxation reads of a network: its period, its rows, named by their places from 0, and for each event the rows at
/// it, without loops; and an event in the middle, where there are many.
#[derive(Drop)]
pub struct Frame {
    period: u32,
    rows: Vec<NetRow>,
    stars: Vec<Vec<Link>>,
    middle: Option<u32>,
}

/// A list without a row for each event.
fn empty_stars(alloc: Global, events: u32) -> Result<Vec<Vec<Link>>, AllocError> {
    let mut stars = Vec::with_capacity(alloc, events as usize)?;
    for _ in 0..events {
        stars.push(Vec::new(alloc))?;
    }
    Ok(stars)
}

/// A row at an event.
fn put_at(stars: &mut [Vec<Link>], event: u32, link: Link) -> Result<(), AllocError> {
    if let Some(star) = stars.get_mut(event as usize) {
        star.push(link)?;
    }
    Ok(())
}

/// The rows at each event.
fn stars_of(alloc: Global, events: u32, rows: &[NetRow]) -> Result<Vec<Vec<Link>>, AllocError> {
    let mut stars = empty_stars(alloc, events)?;
    for (place, row) in rows.iter().enumerate() {
        let (tail, head) = (row.tail, row.head);
        let row = u32::try_from(place).unwrap_or(u32::MAX);
        if tail != head {
            put_at(&mut stars, tail, Link { row, other: head })?;
            put_at(&mut stars, head, Link { row, other: tail })?;
        }
    }
    Ok(stars)
}

impl Frame {
    /// The frame of a network.
    pub fn new(alloc: Global, network: &Network) -> Result<Frame, AllocError> {
        let rows = Vec::from_slice(alloc, network.rows())?;
        let stars = stars_of(alloc, network.events(), &rows)?;
        Ok(Frame {
            period: network.period(),
            rows,
            middle: middle_of(alloc, &stars)?,
            stars,
        })
    }

    /// The period, in the instance's own unit.
    pub fn period(&self) -> u32 {
        self.period
    }

    /// How many events there are.
    pub fn events(&self) -> usize {
        self.stars.len()
    }

    /// An event in the middle, where there are many: trees that hang from it are shallow.
    pub(crate) fn middle(&self) -> Option<u32> {
        self.middle
    }

    /// The rows in order.
    pub fn rows(&self) -> &[NetRow] {
        &self.rows
    }

    /// The row at a place.
    pub fn row(&self, row: u32) -> Option<&NetRow> {
        self.rows.get(row as usize)
    }

    /// The rows at an event.
    pub fn star(&self, event: u32) -> &[Link] {
        match self.stars.get(event as usize) {
            Some(star) => star.as_slice(),
            None => &[],
        }
    }
}
