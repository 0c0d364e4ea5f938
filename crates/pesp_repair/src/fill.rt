//! Times for the events that have none, from their neighbours.

use crate::links::{ArcView, Links, modulo};
use std::alloc::{AllocError, Global};

/// Times where they are known by now, and the events that became known, in this order.
#[derive(Drop)]
struct Filler<'a> {
    links: &'a Links,
    times: Vec<Option<i64>>,
    known: Vec<u32>,
}

/// How bad a time is: how many arcs to known events it violates, and what the others cost.
#[derive(Clone, Copy)]
struct TimeCost {
    violated: u32,
    cost: u64,
}

impl TimeCost {
    /// Whether this is better than another.
    fn is_better(&self, other: &TimeCost) -> bool {
        self.violated < other.violated
            || (self.violated == other.violated && self.cost < other.cost)
    }
}

impl<'a> Filler<'a> {
    /// The time of an event, if it is known.
    fn time(&self, event: u32) -> Option<i64> {
        self.times.get(event as usize).copied().unwrap_or(None)
    }

    /// The slack that an arc has where the event at this end of it is at a time.
    fn slack_at(&self, seen: &ArcView, time: i64) -> Option<i64> {
        let other = self.time(seen.other)?;
        Some(if seen.from_tail {
            self.links.slack_between(&seen.arc, time, other)
        } else {
            self.links.slack_between(&seen.arc, other, time)
        })
    }

    /// The time of an event at which an arc to a known event has a slack.
    fn time_for(&self, seen: &ArcView, slack: i64) -> Option<i64> {
        let other = self.time(seen.other)?;
        let length = seen.arc.lower.wrapping_add(slack);
        Some(modulo(
            if seen.from_tail {
                other.wrapping_sub(length)
            } else {
                other.wrapping_add(length)
            },
            self.links.period,
        ))
    }

    /// How bad a time of an event is.
    fn worth(&self, event: u32, time: i64) -> TimeCost {
        let mut worth = TimeCost {
            violated: 0,
            cost: 0,
        };
        let mut next = self.links.first_at(event);
        for _ in 0..self.links.ends() {
            let Some(end) = next else {
                break;
            };
            next = self.links.next_at(end);
            let Some(seen) = self.links.seen(end) else {
                break;
            };
            if let Some(slack) = self.slack_at(&seen, time) {
                if slack > i64::from(seen.arc.span) {
                    worth.violated = worth.violated.saturating_add(1);
                }
                let slack = u64::try_from(slack).unwrap_or(0);
                worth.cost = worth
                    .cost
                    .saturating_add(seen.arc.weight.saturating_mul(slack));
            }
        }
        worth
    }

    /// The better of a time so far and one at which an arc has a slack.
    fn better(
        &self,
        event: u32,
        best: Option<(TimeCost, i64)>,
        seen: &ArcView,
        slack: i64,
    ) -> Option<(TimeCost, i64)> {
        let Some(time) = self.time_for(seen, slack) else {
            return best;
        };
        let worth = self.worth(event, time);
        match best {
            Some((known, _)) if !worth.is_better(&known) => best,
            _ => Some((worth, time)),
        }
    }

    /// The best time of an event of those at which an arc to a known event has its least or its greatest slack.
    fn best_time(&self, event: u32) -> Option<i64> {
        let mut best = None;
        let mut next = self.links.first_at(event);
        for _ in 0..self.links.ends() {
            let Some(end) = next else {
                break;
            };
            next = self.links.next_at(end);
            let seen = self.links.seen(end)?;
            best = self.better(event, best, &seen, 0);
            best = self.better(event, best, &seen, i64::from(seen.arc.span));
        }
        Some(best?.1)
    }

    /// Gives an event a time.
    fn set(&mut self, event: u32, time: i64) -> Result<(), AllocError> {
        if let Some(slot) = self.times.get_mut(event as usize) {
            *slot = Some(time);
            self.known.push(event)?;
        }
        Ok(())
    }

    /// Gives the neighbours of an event times, where they have none.
    fn go_from(&mut self, event: u32) -> Result<(), AllocError> {
        let mut next = self.links.first_at(event);
        for _ in 0..self.links.ends() {
            let Some(end) = next else {
                break;
            };
            next = self.links.next_at(end);
            let Some(seen) = self.links.seen(end) else {
                break;
            };
            if self.time(seen.other).is_none()
                && let Some(time) = self.best_time(seen.other)
            {
                self.set(seen.other, time)?;
            }
        }
        Ok(())
    }

    /// Goes on from the events that became known, from one of them on.
    fn flood(&mut self, from: usize) -> Result<(), AllocError> {
        for place in from..self.times.len() {
            let Some(event) = self.known.get(place).copied() else {
                break;
            };
            self.go_from(event)?;
        }
        Ok(())
    }

    /// Begins with each event that still has no time, at 0.
    fn flood_rest(&mut self) -> Result<(), AllocError> {
        let mut event = 0u32;
        for _ in 0..self.times.len() {
            if self.time(event).is_none() {
                let from = self.known.len();
                self.set(event, 0)?;
                self.flood(from)?;
            }
            event = event.wrapping_add(1);
        }
        Ok(())
    }
}

/// The events with times.
fn known_of(alloc: Global, wanted: &[Option<u32>]) -> Result<Vec<u32>, AllocError> {
    let mut known = Vec::with_capacity(alloc, wanted.len())?;
    let mut event = 0u32;
    for time in wanted {
        if time.is_some() {
            known.push(event)?;
        }
        event = event.wrapping_add(1);
    }
    Ok(known)
}

/// Times with those that are known.
fn begun(alloc: Global, wanted: &[Option<u32>]) -> Result<Vec<Option<i64>>, AllocError> {
    let mut times = Vec::with_capacity(alloc, wanted.len())?;
    for time in wanted {
        times.push(match time {
            Some(time) => Some(i64::from(*time)),
            None => None,
        })?;
    }
    Ok(times)
}

/// The wanted times, and for the other events times that violate few arcs to their neighbours.
pub(crate) fn filled(
    alloc: Global,
    links: &Links,
    wanted: &[Option<u32>],
) -> Result<Vec<i64>, AllocError> {
    let mut filler = Filler {
        links,
        times: begun(alloc, wanted)?,
        known: known_of(alloc, wanted)?,
    };
    filler.flood(0)?;
    filler.flood_rest()?;
    let mut times = Vec::with_capacity(alloc, wanted.len())?;
    for time in filler.times.iter() {
        times.push(time.unwrap_or(0))?;
    }
    Ok(times)
}
