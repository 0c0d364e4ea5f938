//! Levels of events, from which their times count, whatever events stand for those that were made one.

use pesp_forest::{Frame, Link};
use pesp_network::{NetRow, Network};
use std::alloc::{AllocError, Global};

/// A number modulo a period.
fn within(period: u32, number: i64) -> u32 {
    let rest = number.checked_rem_euclid(i64::from(period)).unwrap_or(0);
    u32::try_from(rest).unwrap_or(0)
}

/// The level of an event, 0 where it has none.
fn level_of(levels: &[Option<u32>], event: u32) -> i64 {
    i64::from(
        levels
            .get(event as usize)
            .copied()
            .unwrap_or(None)
            .unwrap_or(0),
    )
}

/// A time that counts from the level of an event, as it is without levels.
pub(crate) fn raised(period: u32, levels: &[Option<u32>], event: u32, time: u32) -> u32 {
    let level = level_of(levels, event);
    within(period, i64::from(time).saturating_add(level))
}

/// A time as it counts from the level of an event.
pub(crate) fn lowered(period: u32, levels: &[Option<u32>], event: u32, time: u32) -> u32 {
    let level = level_of(levels, event);
    within(period, i64::from(time).saturating_sub(level))
}

/// A row as times count from the levels of its events.
pub(crate) fn levelled(period: u32, levels: &[Option<u32>], row: &NetRow) -> NetRow {
    let lower = row
        .lower
        .saturating_add(level_of(levels, row.tail))
        .saturating_sub(level_of(levels, row.head));
    NetRow {
        lower: i64::from(within(period, lower)),
        ..*row
    }
}

/// Whether lower bounds are such as come of events that were made one: one is below 0, or not below the period.
pub(crate) fn are_moved(period: u32, rows: &[NetRow]) -> bool {
    let period = i64::from(period);
    rows.iter().any(|row| row.lower < 0 || row.lower >= period)
}

/// Levels as they spread over the rows of a network: the events that have one stand in the order in which they got it.
#[derive(Drop)]
struct Spread<'a> {
    frame: &'a Frame,
    levels: Vec<Option<u32>>,
    reached: Vec<u32>,
}

impl Spread<'_> {
    /// Gives an event a level, where it has none.
    fn set(&mut self, event: u32, level: u32) -> Result<(), AllocError> {
        if let Some(slot) = self.levels.get_mut(event as usize)
            && slot.is_none()
        {
            *slot = Some(level);
            self.reached.push(event)?;
        }
        Ok(())
    }

    /// The level of the event at the other end of a row, so that equal times give the row its greatest duration.
    fn level_along(&self, event: u32, link: Link) -> Option<u32> {
        let row = self.frame.row(link.row)?;
        let level = level_of(&self.levels, event);
        let upper = row.lower.saturating_add(i64::from(row.span));
        let other = if row.tail == event {
            level.saturating_add(upper)
        } else {
            level.saturating_sub(upper)
        };
        Some(within(self.frame.period(), other))
    }

    /// Gives levels to the events around one.
    fn set_around(&mut self, event: u32) -> Result<(), AllocError> {
        let frame = self.frame;
        for link in frame.star(event) {
            if let Some(level) = self.level_along(event, *link) {
                self.set(link.other, level)?;
            }
        }
        Ok(())
    }

    /// Gives levels to all events that rows lead to from those that have one, from a place in their order on.
    fn spread_from(&mut self, first: usize) -> Result<(), AllocError> {
        for place in first..self.levels.len() {
            let Some(event) = self.reached.get(place).copied() else {
                return Ok(());
            };
            self.set_around(event)?;
        }
        Ok(())
    }

    /// Gives levels to all events.
    fn spread(&mut self) -> Result<(), AllocError> {
        for event in 0..self.levels.len() {
            let first = self.reached.len();
            self.set(u32::try_from(event).unwrap_or(0), 0)?;
            self.spread_from(first)?;
        }
        Ok(())
    }
}

/// The levels of all events over a frame.
fn spread_over(alloc: Global, frame: &Frame) -> Result<Vec<Option<u32>>, AllocError> {
    let levels = vec![in alloc; None; frame.events()]?;
    let mut spread = Spread {
        frame,
        levels,
        reached: Vec::new(alloc),
    };
    let done = spread.spread();
    let Spread { levels, .. } = spread;
    done?;
    Ok(levels)
}

/// Levels of the events of a network, at which equal times give the rows of a spanning forest their greatest durations. It grows
/// from the first event on.
pub(crate) fn levels_of(alloc: Global, network: &Network) -> Result<Vec<Option<u32>>, AllocError> {
    let frame = Frame::new(alloc, network)?;
    let levels = spread_over(alloc, &frame);
    drop(frame);
    levels
}
