//! Balls: a connected part of the events is freed, and the rest moves as one cluster.

use crate::clusters::EventClusters;
use pesp_forest::guarded::set_number;
use pesp_forest::{Frame, Random};
use std::alloc::{AllocError, Global};

/// Among how many events that wait the next one is drawn.
const DRAWN_FROM: usize = 6;

/// A ball as it grows: the events that wait, from the next one on, which events and rows were met, and how many rows.
#[derive(Drop)]
struct Ball {
    clusters: EventClusters,
    waiting: Vec<u32>,
    next: usize,
    is_met: Vec<bool>,
    is_touched: Vec<bool>,
    touched: u64,
}

impl Ball {
    /// No event is freed.
    fn new(alloc: Global, frame: &Frame) -> Result<Ball, AllocError> {
        let events = frame.events();
        Ok(Ball {
            clusters: EventClusters {
                of: vec![in alloc; 0u32; events]?,
                count: 1,
            },
            waiting: Vec::new(alloc),
            next: 0,
            is_met: vec![in alloc; false; events]?,
            is_touched: vec![in alloc; false; frame.rows().len()]?,
            touched: 0,
        })
    }

    /// Lets an event wait that wasn't met.
    fn meet(&mut self, event: u32) -> Result<(), AllocError> {
        if let Some(is_met) = self.is_met.get_mut(event as usize) {
            if !*is_met {
                *is_met = true;
                self.waiting.push(event)?;
            }
        }
        Ok(())
    }

    /// Counts a row that wasn't touched.
    fn touch(&mut self, row: u32) {
        if let Some(is_touched) = self.is_touched.get_mut(row as usize) {
            if !*is_touched {
                *is_touched = true;
                self.touched = self.touched.saturating_add(1);
            }
        }
    }

    /// One of the first events that wait, which waits no more.
    fn draw(&mut self, random: &mut Random) -> Option<u32> {
        let left = self.waiting.len().checked_sub(self.next)?;
        let drawn = random.below(u64::try_from(left.min(DRAWN_FROM)).ok()?);
        let place = self.next.checked_add(usize::try_from(drawn).ok()?)?;
        let event = self.waiting.get(place).copied()?;
        let first = self.waiting.get(self.next).copied()?;
        *self.waiting.get_mut(place)? = first;
        self.next = self.next.checked_add(1)?;
        Some(event)
    }

    /// Makes an event a cluster of its own, and meets those around it.
    fn free(&mut self, frame: &Frame, event: u32) -> Result<(), AllocError> {
        set_number(&mut self.clusters.of, event, self.clusters.count);
        self.clusters.count = self.clusters.count.saturating_add(1);
        for link in frame.star(event) {
            self.touch(link.row);
            self.meet(link.other)?;
        }
        Ok(())
    }

    /// Frees events until so many rows were touched, but never all events.
    fn grow(&mut self, frame: &Frame, random: &mut Random, rows: u64) -> Result<(), AllocError> {
        for _ in 1..frame.events() {
            if self.touched >= rows {
                return Ok(());
            }
            let Some(event) = self.draw(random) else {
                return Ok(());
            };
            self.free(frame, event)?;
        }
        Ok(())
    }

    /// Grows around two events.
    fn fill(
        &mut self,
        frame: &Frame,
        ends: (u32, u32),
        rows: u64,
        random: &mut Random,
    ) -> Result<(), AllocError> {
        self.meet(ends.0)?;
        self.meet(ends.1)?;
        self.grow(frame, random, rows)
    }
}

/// A connected part around two events, of so many rows where there are as many and never of all events: each of its events is
/// a cluster, and the rest is one.
pub fn ball_around(
    alloc: Global,
    frame: &Frame,
    ends: (u32, u32),
    rows: u64,
    random: &mut Random,
) -> Result<EventClusters, AllocError> {
    let mut ball = Ball::new(alloc, frame)?;
    ball.fill(frame, ends, rows, random)?;
    Ok(ball.clusters)
}
