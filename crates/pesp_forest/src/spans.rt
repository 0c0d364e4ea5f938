//! The offsets that slacks leave to cycles, by sums of durations along a forest.

use crate::forest::RowForest;
use crate::frame::Frame;
use crate::tree::NONE;
use pesp_network::NetRow;
use std::alloc::{AllocError, Global};

/// The least and the greatest of some sums of durations.
#[derive(Clone, Copy)]
struct Span {
    least: i64,
    greatest: i64,
}

const NO_SPAN: Span = Span {
    least: 0,
    greatest: 0,
};

/// The least and the greatest sum of durations from the root of its tree down to each event.
#[derive(Drop)]
pub struct Spans {
    sums: Vec<Span>,
}

/// The greatest duration of a row.
fn upper(row: &NetRow) -> Option<i64> {
    row.lower.checked_add(i64::from(row.span))
}

/// The least whole number of periods above an amount.
fn periods_above(amount: i64, period: i64) -> Option<i64> {
    amount
        .checked_neg()?
        .checked_div_euclid(period)?
        .checked_neg()
}

/// The whole numbers of periods within a span.
fn periods_within(span: Span, period: i64) -> Option<(i64, i64)> {
    let low = periods_above(span.least, period)?;
    let high = span.greatest.checked_div_euclid(period)?;
    Some((low, high))
}

impl Span {
    /// A row's duration more.
    fn plus(self, row: &NetRow) -> Option<Span> {
        let least = self.least.checked_add(row.lower)?;
        let greatest = self.greatest.checked_add(upper(row)?)?;
        Some(Span { least, greatest })
    }

    /// A row's duration less.
    fn minus(self, row: &NetRow) -> Option<Span> {
        let least = self.least.checked_sub(upper(row)?)?;
        let greatest = self.greatest.checked_sub(row.lower)?;
        Some(Span { least, greatest })
    }

    /// These sums counted from an event above, which has the sums of `top`.
    fn since(self, top: Span) -> Option<Span> {
        let least = self.least.checked_sub(top.least)?;
        let greatest = self.greatest.checked_sub(top.greatest)?;
        Some(Span { least, greatest })
    }

    /// The sums along the cycle that a row closes, of these to its head and those to its tail.
    fn closed_by(self, row: &NetRow, tail: Span) -> Option<Span> {
        let least = row.lower.checked_sub(self.greatest)?;
        let greatest = upper(row)?.checked_sub(self.least)?;
        Some(Span {
            least: least.checked_add(tail.least)?,
            greatest: greatest.checked_add(tail.greatest)?,
        })
    }
}

impl Spans {
    /// The sums along a forest; None where one is too great.
    pub fn new(
        alloc: Global,
        frame: &Frame,
        forest: &RowForest,
    ) -> Result<Option<Spans>, AllocError> {
        let downwards = forest.downwards(alloc)?;
        let mut spans = Spans {
            sums: vec![in alloc; NO_SPAN; frame.events()]?,
        };
        if spans.fill(frame, forest, &downwards).is_none() {
            return Ok(None);
        }
        Ok(Some(spans))
    }

    /// Sets the sums of these events, each below those before it.
    fn fill(&mut self, frame: &Frame, forest: &RowForest, downwards: &[u32]) -> Option<()> {
        for event in downwards {
            if !forest.tree().is_root(*event) {
                self.set(frame, forest, *event)?;
            }
        }
        Some(())
    }

    /// The sums of an event.
    fn at(&self, event: u32) -> Option<Span> {
        self.sums.get(event as usize).copied()
    }

    /// The sums of an event from another one above it.
    fn between(&self, event: u32, top: u32) -> Option<Span> {
        let sums = self.at(event)?;
        sums.since(self.at(top)?)
    }

    /// The sums of an event from those of the event above it.
    pub fn set(&mut self, frame: &Frame, forest: &RowForest, event: u32) -> Option<()> {
        let place = forest.tree().place(event)?;
        let row = frame.row(place.by)?;
        let above = self.at(place.up)?;
        let sums = if row.head == event {
            above.plus(row)
        } else {
            above.minus(row)
        };
        *self.sums.get_mut(event as usize)? = sums?;
        Some(())
    }

    /// The sums along the cycle that a row closes, whose ends meet at an event.
    fn around(&self, row: &NetRow, top: u32) -> Option<Span> {
        let head = self.between(row.head, top)?;
        head.closed_by(row, self.between(row.tail, top)?)
    }

    /// The offsets that slacks from 0 to the span of each row leave to the cycle that a row closes (Odijk 1996). The first is
    /// above the second where there are none.
    pub fn offsets(&self, frame: &Frame, forest: &RowForest, row: u32) -> Option<(i64, i64)> {
        let row = frame.row(row)?;
        let top = forest.tree().meeting(row.tail, row.head)?;
        let span = self.around(row, top)?;
        periods_within(span, i64::from(frame.period()))
    }

    /// Puts right the depths and the sums of an event that was hung anew and of what is below it.
    pub fn settle(&mut self, frame: &Frame, forest: &mut RowForest, top: u32) -> Option<()> {
        let mut event = top;
        for _ in 0..frame.events() {
            forest.set_depth(event)?;
            self.set(frame, forest, event)?;
            event = forest.tree().following(event, top);
            if event == NONE {
                return Some(());
            }
        }
        None
    }
}
