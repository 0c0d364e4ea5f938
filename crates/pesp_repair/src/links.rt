//! The activities of an instance as arcs, and those at each event.

use pesp_problem::{Arc, Instance, Memory};
use std::alloc::Global;

/// No end.
const NONE: u32 = u32::MAX;

/// All arcs, and the ends of arcs at each event: an arc's place doubled is its end at its tail, and one more that at its head.
/// Each end leads to the next one at its event.
#[derive(Drop)]
pub(crate) struct Links {
    pub(crate) period: i64,
    pub(crate) arcs: Vec<Arc>,
    first: Vec<u32>,
    next: Vec<u32>,
}

/// What an arc's end sees of it: the event at the other end, and whether that is the head.
#[derive(Clone, Copy)]
pub(crate) struct ArcView {
    pub(crate) arc: Arc,
    pub(crate) other: u32,
    pub(crate) from_tail: bool,
}

/// A number from 0 to the period less 1.
pub(crate) fn modulo(value: i64, period: i64) -> i64 {
    value.checked_rem_euclid(period).unwrap_or(0)
}

/// Puts an end in front of those at an event.
fn put(first: &mut [u32], next: &mut Vec<u32>, event: u32, end: u32) -> Result<(), Memory> {
    let Some(slot) = first.get_mut(event as usize) else {
        next.push(NONE)?;
        return Ok(());
    };
    let behind = *slot;
    *slot = end;
    next.push(behind)?;
    Ok(())
}

impl Links {
    /// The arcs of an instance.
    pub(crate) fn of(alloc: Global, instance: &Instance) -> Result<Links, Memory> {
        let arcs = instance.arcs(alloc)?;
        let mut first = vec![in alloc; NONE; instance.events().len()]?;
        let mut next = Vec::with_capacity(alloc, arcs.len().wrapping_mul(2))?;
        let mut end = 0u32;
        for arc in arcs.iter() {
            put(&mut first, &mut next, arc.tail, end)?;
            put(&mut first, &mut next, arc.head, end.wrapping_add(1))?;
            end = end.wrapping_add(2);
        }
        Ok(Links {
            period: i64::from(instance.period()),
            arcs,
            first,
            next,
        })
    }

    /// How many ends there are.
    pub(crate) fn ends(&self) -> usize {
        self.next.len()
    }

    /// The first end at an event.
    pub(crate) fn first_at(&self, event: u32) -> Option<u32> {
        let end = self.first.get(event as usize).copied()?;
        if end == NONE { None } else { Some(end) }
    }

    /// The next end at the same event.
    pub(crate) fn next_at(&self, end: u32) -> Option<u32> {
        let end = self.next.get(end as usize).copied()?;
        if end == NONE { None } else { Some(end) }
    }

    /// What an end sees.
    pub(crate) fn seen(&self, end: u32) -> Option<ArcView> {
        let arc = self.arcs.get(end as usize / 2).copied()?;
        let from_tail = end % 2 == 0;
        let other = if from_tail { arc.head } else { arc.tail };
        Some(ArcView {
            arc,
            other,
            from_tail,
        })
    }

    /// The slack between two times of an arc's events.
    pub(crate) fn slack_between(&self, arc: &Arc, tail: i64, head: i64) -> i64 {
        modulo(head.wrapping_sub(tail).wrapping_sub(arc.lower), self.period)
    }

    /// The slack of an arc.
    pub(crate) fn slack(&self, arc: &Arc, times: &[i64]) -> Option<i64> {
        let tail = times.get(arc.tail as usize).copied()?;
        let head = times.get(arc.head as usize).copied()?;
        Some(self.slack_between(arc, tail, head))
    }
}
