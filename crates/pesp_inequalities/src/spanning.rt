//! Spanning forests that take rows by rising key.

use pesp_forest::{Frame, Groups, Tree, grow_all};
use std::alloc::{AllocError, Global};

/// A row with the key by which it is taken.
#[derive(Clone, Copy)]
struct Keyed {
    key: i64,
    row: u32,
}

/// A spanning forest, and what the next one is drawn with: the rows with their keys, the trees as they are joined, which rows
/// are in the forest, and its trees.
#[derive(Drop)]
pub(crate) struct Spanning {
    keyed: Vec<Keyed>,
    groups: Groups,
    is_in: Vec<bool>,
    tree: Tree,
}

/// Gives each row its key, in the order of the rows.
fn give_keys(keyed: &mut [Keyed], keys: &[i64]) {
    let mut row = 0u32;
    for (item, key) in keyed.iter_mut().zip(keys.iter()) {
        *item = Keyed { key: *key, row };
        row = row.wrapping_add(1);
    }
}

/// Takes all rows out.
fn take_out(is_in: &mut [bool]) {
    for slot in is_in.iter_mut() {
        *slot = false;
    }
}

impl Spanning {
    /// Room for the forests of a network.
    pub(crate) fn new(alloc: Global, frame: &Frame) -> Result<Spanning, AllocError> {
        let rows = frame.rows().len();
        let events = u32::try_from(frame.events()).unwrap_or(0);
        Ok(Spanning {
            keyed: vec![in alloc; Keyed { key: 0, row: 0 }; rows]?,
            groups: Groups::apart(alloc, events)?,
            is_in: vec![in alloc; false; rows]?,
            tree: Tree::apart(alloc, frame.events())?,
        })
    }

    /// The trees.
    pub(crate) fn tree(&self) -> &Tree {
        &self.tree
    }

    /// Whether a row is in the forest.
    pub(crate) fn has(&self, row: u32) -> bool {
        self.is_in.get(row as usize).copied().unwrap_or(false)
    }

    /// Takes each row, in order, that joins two trees (Kruskal 1956).
    fn join_rows(&mut self, frame: &Frame) -> Option<()> {
        for keyed in self.keyed.iter() {
            let row = frame.row(keyed.row)?;
            if self.groups.join(row.tail, row.head)? {
                *self.is_in.get_mut(keyed.row as usize)? = true;
            }
        }
        Some(())
    }

    /// Draws the forest that takes rows by rising key, and by rising row where keys are the same.
    pub(crate) fn draw(&mut self, frame: &Frame, keys: &[i64]) -> Option<()> {
        give_keys(&mut self.keyed, keys);
        self.keyed
            .sort_unstable_by_key(|keyed| (keyed.key, keyed.row));
        self.groups.part();
        take_out(&mut self.is_in);
        self.tree.clear();
        self.join_rows(frame)?;
        grow_all(frame, &self.is_in, &mut self.tree)
    }

    /// The rows of the forest, by their numbers from 1.
    fn numbers(&self, alloc: Global) -> Result<Vec<u32>, AllocError> {
        let mut numbers = Vec::new(alloc);
        let mut number = 0u32;
        for is_in in self.is_in.iter() {
            number = number.wrapping_add(1);
            if *is_in {
                numbers.push(number)?;
            }
        }
        Ok(numbers)
    }
}

/// The rows, by their numbers from 1, of the spanning forest that takes rows by rising key, one key a row.
pub fn forest_by(alloc: Global, frame: &Frame, keys: &[i64]) -> Result<Vec<u32>, AllocError> {
    let mut spanning = Spanning::new(alloc, frame)?;
    spanning.draw(frame, keys);
    spanning.numbers(alloc)
}
