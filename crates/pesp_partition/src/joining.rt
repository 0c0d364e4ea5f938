//! Events that are joined to parts of at most so many events.

use pesp_forest::Groups;
use pesp_forest::guarded::{number, set_number};
use std::alloc::{AllocError, Global};

/// Events in parts, and how many events each part has, by its last event.
#[derive(Drop)]
pub(crate) struct EventParts {
    groups: Groups,
    sizes: Vec<u32>,
    ends: Vec<u32>,
    most: u32,
}

impl EventParts {
    /// Each event is a part, and a part has at most so many.
    pub(crate) fn apart(alloc: Global, events: u32, most: u32) -> Result<EventParts, AllocError> {
        Ok(EventParts {
            groups: Groups::apart(alloc, events)?,
            sizes: vec![in alloc; 1u32; events as usize]?,
            ends: Vec::new(alloc),
            most,
        })
    }

    /// Events in parts that labels tell.
    pub(crate) fn labelled(
        alloc: Global,
        labels: &[u32],
        most: u32,
    ) -> Result<EventParts, AllocError> {
        let events = u32::try_from(labels.len()).unwrap_or(u32::MAX);
        let mut parts = EventParts::apart(alloc, events, events)?;
        for event in 0..events {
            let label = number(labels, event).unwrap_or(event);
            parts.join(&[event, label])?;
        }
        parts.most = most;
        Ok(parts)
    }

    /// The part of an event, by its last event.
    pub(crate) fn of(&mut self, event: u32) -> u32 {
        self.groups.last_of(event).unwrap_or(event)
    }

    /// Lists the parts of events, each once; how many events they have.
    fn list(&mut self, events: &[u32]) -> Result<u32, AllocError> {
        self.ends.clear();
        let mut size = 0u32;
        for event in events {
            let end = self.of(*event);
            if !self.ends.iter().any(|other| *other == end) {
                self.ends.push(end)?;
                size = size.saturating_add(number(&self.sizes, end).unwrap_or(0));
            }
        }
        Ok(size)
    }

    /// Joins the parts of events where what comes of it has no more events than a part may have.
    pub(crate) fn join(&mut self, events: &[u32]) -> Result<(), AllocError> {
        let size = self.list(events)?;
        if size > self.most {
            return Ok(());
        }
        let first = self.ends.first().copied().unwrap_or(0);
        for place in 1..self.ends.len() {
            let other = number(&self.ends, u32::try_from(place).unwrap_or(u32::MAX));
            self.groups.join(first, other.unwrap_or(first));
        }
        let end = self.of(first);
        set_number(&mut self.sizes, end, size);
        Ok(())
    }

    /// Whether all of some events are in one part.
    pub(crate) fn has_all(&mut self, events: &[u32]) -> bool {
        let mut first = None;
        for event in events {
            let end = self.of(*event);
            if first.is_some_and(|other| other != end) {
                return false;
            }
            first = Some(end);
        }
        true
    }

    /// The part of each event.
    pub(crate) fn labels(&mut self, alloc: Global, events: u32) -> Result<Vec<u32>, AllocError> {
        let mut labels = Vec::with_capacity(alloc, events as usize)?;
        for event in 0..events {
            labels.push(self.of(event))?;
        }
        Ok(labels)
    }
}
