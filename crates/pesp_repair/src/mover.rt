//! Times whose events are moved, so that what is satisfied stays so.

use crate::links::{ArcView, Links, modulo};
use crate::push::Push;
use pesp_problem::Arc;
use std::alloc::{AllocError, Global};

/// No event.
pub(crate) const NONE: u32 = u32::MAX;

/// Times, and those that are wanted. Under work are the moves of a push: how far each event moves, which events move, and those
/// from which it has to go on. `left` is how many events may still be visited.
#[derive(Drop)]
pub(crate) struct Mover<'a> {
    links: &'a Links,
    wanted: &'a [Option<u32>],
    pub(crate) times: Vec<i64>,
    moves: Vec<i64>,
    touched: Vec<u32>,
    queue: Vec<u32>,
    left: u64,
}

impl<'a> Mover<'a> {
    /// Nothing has moved.
    pub(crate) fn new(
        alloc: Global,
        links: &'a Links,
        wanted: &'a [Option<u32>],
        times: Vec<i64>,
        left: u64,
    ) -> Result<Mover<'a>, AllocError> {
        let moves = vec![in alloc; 0; wanted.len()]?;
        Ok(Mover {
            links,
            wanted,
            times,
            moves,
            touched: Vec::new(alloc),
            queue: Vec::new(alloc),
            left,
        })
    }

    /// Forgets the moves of a push.
    fn clear(&mut self) {
        for event in self.touched.iter() {
            if let Some(slot) = self.moves.get_mut(*event as usize) {
                *slot = 0;
            }
        }
        self.touched.clear();
        self.queue.clear();
    }

    /// Has an event move at least so far.
    fn raise(&mut self, event: u32, by: i64) -> Result<(), AllocError> {
        let Some(slot) = self.moves.get_mut(event as usize) else {
            return Ok(());
        };
        let before = *slot;
        if by <= before {
            return Ok(());
        }
        *slot = by;
        if before == 0 {
            self.touched.push(event)?;
        }
        self.queue.push(event)?;
        Ok(())
    }

    /// How far an event may move until it drags along the one at the other end of an arc; None where the arc is violated.
    fn give(&self, seen: &ArcView, later: bool) -> Option<i64> {
        let span = i64::from(seen.arc.span);
        let slack = self.links.slack(&seen.arc, &self.times)?;
        if slack > span {
            return None;
        }
        Some(if seen.from_tail == later {
            slack
        } else {
            span.wrapping_sub(slack)
        })
    }

    /// Drags along what an event drags along; whether none of it has to stay.
    fn drag(&mut self, event: u32, push: Push) -> Result<bool, AllocError> {
        let moved = self.moves.get(event as usize).copied().unwrap_or(0);
        let mut next = self.links.first_at(event);
        for _ in 0..self.links.ends() {
            let Some(end) = next else {
                break;
            };
            next = self.links.next_at(end);
            let Some(seen) = self.links.seen(end) else {
                break;
            };
            if seen.other == event {
                continue;
            }
            let by = moved.wrapping_sub(self.give(&seen, push.later).unwrap_or(moved));
            if by > 0 {
                if seen.other == push.stays {
                    return Ok(false);
                }
                self.raise(seen.other, by)?;
            }
        }
        Ok(true)
    }

    /// Finds the moves of a push; whether what has to stay stays.
    pub(crate) fn spread(&mut self, push: Push) -> Result<bool, AllocError> {
        self.clear();
        self.raise(push.event, push.by)?;
        for place in 0..usize::MAX {
            let Some(event) = self.queue.get(place).copied() else {
                return Ok(true);
            };
            if self.left == 0 || !self.drag(event, push)? {
                return Ok(false);
            }
            self.left = self.left.wrapping_sub(1);
        }
        Ok(false)
    }

    /// What an event costs at a time: nothing where it is wanted there or anywhere, else a period and how far it has moved.
    fn price(&self, event: u32, time: i64) -> i64 {
        let Some(wanted) = self.wanted.get(event as usize).copied().unwrap_or(None) else {
            return 0;
        };
        let period = self.links.period;
        let ahead = modulo(time.wrapping_sub(i64::from(wanted)), period);
        let moved = ahead.min(period.wrapping_sub(ahead));
        if moved == 0 {
            0
        } else {
            period.wrapping_add(moved)
        }
    }

    /// Where an event is after the push.
    fn time_after(&self, event: u32, later: bool) -> i64 {
        let time = self.times.get(event as usize).copied().unwrap_or(0);
        let by = self.moves.get(event as usize).copied().unwrap_or(0);
        let after = if later {
            time.wrapping_add(by)
        } else {
            time.wrapping_sub(by)
        };
        modulo(after, self.links.period)
    }

    /// By how much more the events of the push cost after it.
    pub(crate) fn rise(&self, later: bool) -> i64 {
        let mut rise = 0i64;
        for event in self.touched.iter() {
            let time = self.times.get(*event as usize).copied().unwrap_or(0);
            let after = self.price(*event, self.time_after(*event, later));
            rise = rise
                .wrapping_add(after)
                .wrapping_sub(self.price(*event, time));
        }
        rise
    }

    /// Moves the events of the push.
    pub(crate) fn apply(&mut self, later: bool) {
        for place in 0..self.touched.len() {
            let Some(event) = self.touched.get(place).copied() else {
                break;
            };
            let time = self.time_after(event, later);
            if let Some(slot) = self.times.get_mut(event as usize) {
                *slot = time;
            }
        }
    }

    /// The arc at a place and its slack, where it is violated.
    fn violated(&self, place: usize) -> Option<(Arc, i64)> {
        let arc = self.links.arcs.get(place).copied()?;
        let slack = self.links.slack(&arc, &self.times)?;
        if slack > i64::from(arc.span) && arc.tail != arc.head {
            Some((arc, slack))
        } else {
            None
        }
    }

    /// Does the push of these that costs least; whether one could be done.
    fn do_cheapest(&mut self, pushes: &[Push]) -> Result<bool, AllocError> {
        let mut best: Option<(i64, Push)> = None;
        for push in pushes {
            if self.spread(*push)? {
                let rise = self.rise(push.later);
                best = match best {
                    Some((least, _)) if least <= rise => best,
                    _ => Some((rise, *push)),
                };
            }
        }
        let Some((_, push)) = best else {
            return Ok(false);
        };
        if self.spread(push)? {
            self.apply(push.later);
        }
        Ok(true)
    }

    /// Satisfies the arc at a place, where it is violated, so that all others that are satisfied stay so; whether it could.
    fn mend_at(&mut self, place: usize) -> Result<bool, AllocError> {
        let Some((arc, slack)) = self.violated(place) else {
            return Ok(true);
        };
        let short = self.links.period.wrapping_sub(slack);
        let long = slack.wrapping_sub(i64::from(arc.span));
        let (tail, head) = (arc.tail, arc.head);
        let push = |event: u32, by: i64, later: bool, stays: u32| Push {
            event,
            by,
            later,
            stays,
        };
        let pushes = [
            push(head, short, true, tail),
            push(tail, short, false, head),
            push(head, long, false, tail),
            push(tail, long, true, head),
        ];
        self.do_cheapest(&pushes)
    }

    /// Satisfies all arcs, one after another; whether all are satisfied.
    pub(crate) fn mend(&mut self) -> Result<bool, AllocError> {
        let mut all = true;
        for place in 0..self.links.arcs.len() {
            all &= self.mend_at(place)?;
        }
        Ok(all)
    }

    /// Moves an event back to where it is wanted, where the moves cost less so.
    fn bring_back(&mut self, event: u32) -> Result<bool, AllocError> {
        let Some(wanted) = self.wanted.get(event as usize).copied().unwrap_or(None) else {
            return Ok(false);
        };
        let time = self.times.get(event as usize).copied().unwrap_or(0);
        let ahead = modulo(i64::from(wanted).wrapping_sub(time), self.links.period);
        if ahead == 0 {
            return Ok(false);
        }
        self.try_back(event, ahead, true)?;
        self.try_back(event, self.links.period.wrapping_sub(ahead), false)
    }

    /// Moves an event by so much where the moves cost less so.
    fn try_back(&mut self, event: u32, by: i64, later: bool) -> Result<bool, AllocError> {
        let push = Push {
            event,
            by,
            later,
            stays: NONE,
        };
        if self.spread(push)? && self.rise(later) < 0 {
            self.apply(later);
            return Ok(true);
        }
        Ok(false)
    }

    /// Moves events back to where they are wanted, one after another; whether one was moved.
    pub(crate) fn bring_all_back(&mut self) -> Result<bool, AllocError> {
        let mut moved = false;
        let mut event = 0u32;
        for _ in 0..self.wanted.len() {
            moved |= self.bring_back(event)?;
            event = event.wrapping_add(1);
        }
        Ok(moved)
    }
}
