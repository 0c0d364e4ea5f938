//! Spanning forests of a network's rows.

use crate::frame::Frame;
use crate::tree::{NONE, Tree};
use std::alloc::{AllocError, Global};

/// A forest of rows with its trees.
#[derive(Drop)]
pub struct RowForest {
    is_in: Vec<bool>,
    tree: Tree,
}

/// Whether a row is chosen.
fn is_chosen(chosen: &[bool], row: u32) -> bool {
    chosen.get(row as usize).copied().unwrap_or(false)
}

/// Hangs below an event the roots to which chosen rows lead from it.
fn hang_beside(
    frame: &Frame,
    chosen: &[bool],
    tree: &mut Tree,
    event: u32,
    root: u32,
) -> Option<()> {
    for link in frame.star(event) {
        let other = link.other;
        if is_chosen(chosen, link.row) && other != root && tree.is_root(other) {
            tree.hang(other, event, link.row)?;
            tree.set_depth(other)?;
        }
    }
    Some(())
}

/// Hangs below a root all to which chosen rows lead.
fn grow(frame: &Frame, chosen: &[bool], tree: &mut Tree, root: u32) -> Option<()> {
    let mut event = root;
    for _ in 0..tree.events() {
        hang_beside(frame, chosen, tree, event, root)?;
        event = tree.following(event, root);
        if event == NONE {
            return Some(());
        }
    }
    None
}

/// Makes trees of the chosen rows, which close no cycle, from roots alone; the root of each tree is the event in the middle of
/// the network, or else the first event of the tree.
pub fn grow_all(frame: &Frame, chosen: &[bool], tree: &mut Tree) -> Option<()> {
    if let Some(middle) = frame.middle() {
        grow(frame, chosen, tree, middle)?;
    }
    for place in 0..tree.events() {
        let root = u32::try_from(place).ok()?;
        if tree.is_root(root) {
            grow(frame, chosen, tree, root)?;
        }
    }
    Some(())
}

/// Marks the rows of these numbers, from 1.
fn mark(chosen: &mut [bool], numbers: &[u32]) {
    for number in numbers {
        let place = (*number as usize).wrapping_sub(1);
        if let Some(slot) = chosen.get_mut(place) {
            *slot = true;
        }
    }
}

impl RowForest {
    /// The forest of these rows, numbered from 1, which close no cycle.
    pub fn new(
        alloc: Global,
        frame: &Frame,
        numbers: &[u32],
    ) -> Result<Option<RowForest>, AllocError> {
        let mut is_in = vec![in alloc; false; frame.rows().len()]?;
        mark(&mut is_in, numbers);
        let mut tree = Tree::apart(alloc, frame.events())?;
        if grow_all(frame, &is_in, &mut tree).is_none() {
            return Ok(None);
        }
        Ok(Some(RowForest { is_in, tree }))
    }

    /// Whether a row is in the forest.
    pub fn has(&self, row: u32) -> bool {
        is_chosen(&self.is_in, row)
    }

    /// The trees.
    pub fn tree(&self) -> &Tree {
        &self.tree
    }

    /// The rows of the forest, or those outside it, by rising place.
    pub fn rows(&self, alloc: Global, inside: bool) -> Result<Vec<u32>, AllocError> {
        let mut rows = Vec::new(alloc);
        for (place, is_in) in self.is_in.iter().enumerate() {
            if *is_in == inside {
                rows.push(u32::try_from(place).unwrap_or(NONE))?;
            }
        }
        Ok(rows)
    }

    /// The events of a tree, each before those below it.
    fn list_down(&self, list: &mut Vec<u32>, root: u32) -> Result<(), AllocError> {
        let mut event = root;
        for _ in 0..self.tree.events() {
            list.push(event)?;
            event = self.tree.following(event, root);
            if event == NONE {
                return Ok(());
            }
        }
        Ok(())
    }

    /// All events, each before those below it.
    pub fn downwards(&self, alloc: Global) -> Result<Vec<u32>, AllocError> {
        let mut list = Vec::new(alloc);
        for place in 0..self.tree.events() {
            let event = u32::try_from(place).unwrap_or(NONE);
            if self.tree.is_root(event) {
                self.list_down(&mut list, event)?;
            }
        }
        Ok(list)
    }

    /// Takes in a row whose way along the forest passes another row, which goes out.
    pub fn exchange(&mut self, frame: &Frame, enters: u32, leaves: u32) -> Option<u32> {
        let top = self.lower_end(frame, leaves)?;
        let row = frame.row(enters)?;
        let (inner, outer) = if self.is_below(row.tail, top) {
            (row.tail, row.head)
        } else {
            (row.head, row.tail)
        };
        self.tree.rehang(inner, top, outer, enters)?;
        *self.is_in.get_mut(leaves as usize)? = false;
        *self.is_in.get_mut(enters as usize)? = true;
        Some(inner)
    }

    /// Sets the depth of an event that hangs by that of the event above it.
    pub fn set_depth(&mut self, event: u32) -> Option<()> {
        self.tree.set_depth(event)
    }

    /// The end of a row of the forest that hangs below the other.
    pub fn lower_end(&self, frame: &Frame, row: u32) -> Option<u32> {
        let ends = frame.row(row)?;
        if self.tree.place(ends.tail)?.by == row {
            Some(ends.tail)
        } else {
            Some(ends.head)
        }
    }

    /// Whether an event is another one or lies below it.
    fn is_below(&self, event: u32, top: u32) -> bool {
        let mut current = event;
        for _ in 0..self.tree.events() {
            if current == top {
                return true;
            }
            match self.tree.place(current) {
                Some(place) => current = place.up,
                None => return false,
            }
        }
        false
    }
}
