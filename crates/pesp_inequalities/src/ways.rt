//! The walks that rows outside a forest close.

use crate::pass::Pass;
use crate::spanning::Spanning;
use pesp_forest::{Frame, Tree};
use std::alloc::{AllocError, Global};

/// A walk, and the part of it that leads down, from below.
#[derive(Drop)]
pub(crate) struct TreeWalk {
    passes: Vec<Pass>,
    down: Vec<Pass>,
}

/// A row up from the lower of two events, and the event above: on the way up from the first, or against the way down to the
/// second.
#[derive(Clone, Copy)]
struct Climb {
    pass: Pass,
    from_first: bool,
    up: u32,
}

/// The row up from the lower of two events.
fn row_up(frame: &Frame, tree: &Tree, first: u32, second: u32) -> Option<Climb> {
    let here = tree.place(first)?;
    let there = tree.place(second)?;
    if here.depth >= there.depth {
        let row = frame.row(here.by)?;
        return Some(Climb {
            pass: Pass::plain(here.by, row.tail == first),
            from_first: true,
            up: here.up,
        });
    }
    let row = frame.row(there.by)?;
    Some(Climb {
        pass: Pass::plain(there.by, row.head == second),
        from_first: false,
        up: there.up,
    })
}

impl TreeWalk {
    /// No walk.
    pub(crate) fn new(alloc: Global) -> TreeWalk {
        TreeWalk {
            passes: Vec::new(alloc),
            down: Vec::new(alloc),
        }
    }

    /// The passes of the walk.
    pub(crate) fn passes(&self) -> &[Pass] {
        &self.passes
    }

    /// Puts a row up to the walk, or to its part that leads down.
    fn put(&mut self, climb: Climb) -> Result<(), AllocError> {
        if climb.from_first {
            self.passes.push(climb.pass)?;
        } else {
            self.down.push(climb.pass)?;
        }
        Ok(())
    }

    /// Goes along the trees from one event to another; false where they are in two trees.
    fn lead(&mut self, frame: &Frame, tree: &Tree, from: u32, to: u32) -> Result<bool, AllocError> {
        let mut first = from;
        let mut second = to;
        for _ in 0..tree.events().saturating_mul(2) {
            if first == second {
                break;
            }
            let Some(climb) = row_up(frame, tree, first, second) else {
                return Ok(false);
            };
            self.put(climb)?;
            if climb.from_first {
                first = climb.up;
            } else {
                second = climb.up;
            }
        }
        Ok(first == second)
    }

    /// Makes the walk that passes a row forwards and goes back along the trees; false where there is none.
    pub(crate) fn close(
        &mut self,
        frame: &Frame,
        tree: &Tree,
        row: u32,
    ) -> Result<bool, AllocError> {
        self.passes.clear();
        self.down.clear();
        let Some(ends) = frame.row(row) else {
            return Ok(false);
        };
        self.passes.push(Pass::plain(row, true))?;
        let is_closed = self.lead(frame, tree, ends.head, ends.tail)?;
        self.down.reverse();
        self.passes.extend_from_slice(&self.down)?;
        Ok(is_closed)
    }
}

/// The fundamental walks of the forest that takes rows by rising key, one key a row. Each begins with its row outside the
/// forest, forwards, and these rows rise. No pass is flipped.
pub fn walks_by(alloc: Global, frame: &Frame, keys: &[i64]) -> Result<Vec<Vec<Pass>>, AllocError> {
    let mut spanning = Spanning::new(alloc, frame)?;
    spanning.draw(frame, keys);
    let mut way = TreeWalk::new(alloc);
    let mut walks = Vec::new(alloc);
    for place in 0..frame.rows().len() {
        let row = u32::try_from(place).unwrap_or(u32::MAX);
        if !spanning.has(row) && way.close(frame, spanning.tree(), row)? {
            walks.push(Vec::from_slice(alloc, way.passes())?)?;
        }
    }
    Ok(walks)
}
