//! The rows at each event.

use pesp_clusters::{Activity, SlackCrossing};
use pesp_forest::guarded::{count_one, number, set_number};
use std::alloc::{AllocError, Global};

/// Crossings in a list: the narrow rows, which some slack would break, that grow from `start` and that fall from `falls`; and the
/// wide ones that fall from `wide` and that grow from `grows`, up to `end`.
#[derive(Clone, Copy)]
pub(crate) struct CrossingList {
    pub(crate) start: u32,
    pub(crate) falls: u32,
    pub(crate) wide: u32,
    pub(crate) grows: u32,
    pub(crate) end: u32,
}

impl CrossingList {
    /// The places between which rows fall, from the start.
    pub(crate) fn falling(&self) -> (u32, u32) {
        let from = self.falls.wrapping_sub(self.start);
        (from, self.grows.wrapping_sub(self.start))
    }
}

/// How many kinds of rows an event has.
const KINDS: u32 = 4;

/// The place of an event's narrow or wide rows that grow or fall among those of all events.
fn place_of(event: u32, is_wide: bool, grows: bool) -> u32 {
    let kind = match (is_wide, grows) {
        (false, true) => 0,
        (false, false) => 1,
        (true, false) => 2,
        (true, true) => 3,
    };
    event.wrapping_mul(KINDS).wrapping_add(kind)
}

/// Counts the rows at each event, narrow and wide ones apart.
fn count(rows: &[Activity], period: u32, counts: &mut [u32]) -> Option<()> {
    for row in rows {
        if row.tail != row.head {
            let is_wide = row.is_wide(period);
            count_one(counts, place_of(row.tail, is_wide, false))?;
            count_one(counts, place_of(row.head, is_wide, true))?;
        }
    }
    Some(())
}

/// Makes of each count the place where its first crossing goes; how many there are in all.
fn lay_out(counts: &mut [u32]) -> u32 {
    let mut next = 0u32;
    for place in counts.iter_mut() {
        let count = *place;
        *place = next;
        next = next.wrapping_add(count);
    }
    next
}

/// Puts a crossing where the next one of its kind goes.
fn put(
    next: &mut [u32],
    list: &mut [SlackCrossing],
    place: u32,
    crossing: SlackCrossing,
) -> Option<()> {
    let at = number(next, place)?;
    *list.get_mut(at as usize)? = crossing;
    set_number(next, place, at.wrapping_add(1))
}

/// Puts the crossings of all rows.
fn put_all(
    rows: &[Activity],
    period: u32,
    next: &mut [u32],
    list: &mut [SlackCrossing],
) -> Option<()> {
    let mut place = 0u32;
    for row in rows {
        if row.tail != row.head {
            let is_wide = row.is_wide(period);
            let leaving = SlackCrossing {
                row: place,
                grows: false,
            };
            put(next, list, place_of(row.tail, is_wide, false), leaving)?;
            let coming = SlackCrossing {
                row: place,
                grows: true,
            };
            put(next, list, place_of(row.head, is_wide, true), coming)?;
        }
        place = place.wrapping_add(1);
    }
    Some(())
}

/// Where each event's crossings are, from where each kind's end.
fn parts_of(alloc: Global, ends: &[u32], events: u32) -> Result<Vec<CrossingList>, AllocError> {
    let mut parts = Vec::with_capacity(alloc, events as usize)?;
    let mut start = 0u32;
    for event in 0..events {
        let falls = number(ends, place_of(event, false, true)).unwrap_or(start);
        let wide = number(ends, place_of(event, false, false)).unwrap_or(falls);
        let grows = number(ends, place_of(event, true, false)).unwrap_or(wide);
        let end = number(ends, place_of(event, true, true)).unwrap_or(grows);
        parts.push(CrossingList {
            start,
            falls,
            wide,
            grows,
            end,
        })?;
        start = end;
    }
    Ok(parts)
}

/// The crossings of each event with the rest, one event after another, and where each event's are.
pub(crate) fn stars(
    alloc: Global,
    rows: &[Activity],
    period: u32,
    events: u32,
) -> Result<(Vec<SlackCrossing>, Vec<CrossingList>), AllocError> {
    let mut next = vec![in alloc; 0u32; (events as usize).saturating_mul(KINDS as usize)]?;
    count(rows, period, &mut next);
    let room = lay_out(&mut next);
    let nothing = SlackCrossing {
        row: 0,
        grows: false,
    };
    let mut list = vec![in alloc; nothing; room as usize]?;
    put_all(rows, period, &mut next, &mut list);
    let parts = parts_of(alloc, &next, events)?;
    Ok((list, parts))
}
