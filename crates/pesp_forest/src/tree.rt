//! Trees over events, in which each event knows what hangs below it.

use std::alloc::{AllocError, Global};

/// No event, and no row.
pub const NONE: u32 = u32::MAX;

/// An event of a tree: the event above it and the row that joins the two, and how many rows lead up to the root; and the
/// first event that hangs below it, and the events before and after it among those that hang where it hangs. `NONE` where
/// there is none.
#[derive(Clone, Copy, PartialEq, Eq)]
pub struct TreeEvent {
    pub up: u32,
    pub by: u32,
    pub depth: u32,
    below: u32,
    before: u32,
    after: u32,
}

/// A root below which nothing hangs.
const ROOT: TreeEvent = TreeEvent {
    up: NONE,
    by: NONE,
    depth: 0,
    below: NONE,
    before: NONE,
    after: NONE,
};

/// Trees over events.
#[derive(Drop)]
pub struct Tree {
    places: Vec<TreeEvent>,
}

impl Tree {
    /// Each of so many events a root.
    pub fn apart(alloc: Global, events: usize) -> Result<Tree, AllocError> {
        let places = vec![in alloc; ROOT; events]?;
        Ok(Tree { places })
    }

    /// Makes each event a root.
    pub fn clear(&mut self) {
        for place in self.places.iter_mut() {
            *place = ROOT;
        }
    }

    /// Another tree with the same places.
    pub fn copy(&self, alloc: Global) -> Result<Tree, AllocError> {
        let places = Vec::from_slice(alloc, self.places.as_slice())?;
        Ok(Tree { places })
    }

    /// Takes over the places of another tree over as many events.
    pub fn copy_from(&mut self, other: &Tree) -> Option<()> {
        if self.places.len() != other.places.len() {
            return None;
        }
        self.places.copy_from_slice(&other.places);
        Some(())
    }

    /// How many events there are.
    pub fn events(&self) -> usize {
        self.places.len()
    }

    /// The place of an event.
    pub fn place(&self, event: u32) -> Option<TreeEvent> {
        self.places.get(event as usize).copied()
    }

    /// Whether an event is a root.
    pub fn is_root(&self, event: u32) -> bool {
        self.place(event).is_some_and(|place| place.up == NONE)
    }

    /// The place of an event, to be changed.
    fn place_mut(&mut self, event: u32) -> Option<&mut TreeEvent> {
        self.places.get_mut(event as usize)
    }

    /// Hangs a root below another event by a row; its depth stays as it is.
    pub fn hang(&mut self, event: u32, up: u32, by: u32) -> Option<()> {
        let upper = self.place_mut(up)?;
        let after = upper.below;
        upper.below = event;
        if after != NONE {
            self.place_mut(after)?.before = event;
        }
        let place = self.place_mut(event)?;
        place.up = up;
        place.by = by;
        place.before = NONE;
        place.after = after;
        Some(())
    }

    /// Takes an event from where it hangs; its place before that.
    fn unhang(&mut self, event: u32) -> Option<TreeEvent> {
        let place = self.place(event)?;
        if place.before == NONE {
            self.place_mut(place.up)?.below = place.after;
        } else {
            self.place_mut(place.before)?.after = place.after;
        }
        if place.after != NONE {
            self.place_mut(place.after)?.before = place.before;
        }
        Some(place)
    }

    /// Sets the depth of an event that hangs by that of the event above it.
    pub fn set_depth(&mut self, event: u32) -> Option<()> {
        let up = self.place(event)?.up;
        let depth = self.place(up)?.depth.checked_add(1)?;
        self.place_mut(event)?.depth = depth;
        Some(())
    }

    /// The lowest event above or at both of two events.
    pub fn meeting(&self, one: u32, other: u32) -> Option<u32> {
        let mut one = one;
        let mut other = other;
        for _ in 0..self.places.len().saturating_mul(2) {
            if one == other {
                return Some(one);
            }
            let here = self.place(one)?;
            let there = self.place(other)?;
            if here.depth >= there.depth {
                one = here.up;
            } else {
                other = there.up;
            }
        }
        None
    }

    /// Cuts the row that leads up from `top`, and hangs the part below it by `event`, an event of that part, below `up`; the
    /// way from `event` to `top` is turned round. Depths stay as they are.
    pub fn rehang(&mut self, event: u32, top: u32, up: u32, by: u32) -> Option<()> {
        let mut current = event;
        let mut upper = up;
        let mut row = by;
        for _ in 0..self.places.len() {
            let last = self.unhang(current)?;
            self.hang(current, upper, row)?;
            if current == top {
                return Some(());
            }
            upper = current;
            row = last.by;
            current = last.up;
        }
        None
    }

    /// The first event after one of the part below `top` that isn't below it.
    fn next_beside(&self, event: u32, top: u32) -> u32 {
        let mut current = event;
        for _ in 0..self.places.len() {
            if current == top {
                return NONE;
            }
            let Some(place) = self.place(current) else {
                return NONE;
            };
            if place.after != NONE {
                return place.after;
            }
            current = place.up;
        }
        NONE
    }

    /// The event after another in the part below `top`, each event before those below it; `NONE` after the last.
    pub fn following(&self, event: u32, top: u32) -> u32 {
        let below = self.place(event).map_or(NONE, |place| place.below);
        if below != NONE {
            return below;
        }
        self.next_beside(event, top)
    }
}
