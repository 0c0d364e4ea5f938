//! The tree, as it is told.

use crate::sharpened::LeafMultipliers;
use pesp_sharp_nodes::{OffsetCut, Pool, Setting};
use std::alloc::{AllocError, Global};
use std::mem::replace;

/// How many lines a certificate's tree has at most.
const MOST_LINES: usize = 1_000_000;

/// How many pairs it has in all at most.
const MOST_PAIRS: usize = 20_000_000;

/// How many walks it has at most.
const MOST_WALKS: usize = 100_000;

/// How many passes these have at most: half of what a certificate may have, since rows that were contracted are put back.
const MOST_PASSES: usize = 5_000_000;

/// How many inequalities are found for both parts of a leaf at most.
const MOST_NEW: usize = 400;

/// A place of the tree: a cut, with the places of its parts; a leaf, with the cost that it shows; a leaf that was given and shows
/// that no timetable is there; a cycle without an offset; or lines that were given, with the cost that they show.
#[derive(Drop)]
pub enum Knot {
    Split { cut: OffsetCut, low: u32, high: u32 },
    Leaf { leaf: LeafMultipliers, bound: u64 },
    Shut { leaf: LeafMultipliers },
    Gap { cycle: u32 },
    Kept { first: u32, count: u32, bound: u64 },
}

/// The places of a tree, the root first, and how many pairs its leaves have.
#[derive(Drop)]
pub struct SharpTree {
    pub knots: Vec<Knot>,
    pairs: usize,
}

/// No multipliers.
fn no_multipliers(alloc: Global) -> LeafMultipliers {
    LeafMultipliers {
        pairs: Vec::new(alloc),
        walks: Vec::new(alloc),
    }
}

/// How many pairs a leaf has.
fn pairs_of(leaf: &LeafMultipliers) -> usize {
    leaf.pairs.len().saturating_add(leaf.walks.len())
}

impl SharpTree {
    /// A tree without a place.
    pub fn new(alloc: Global) -> SharpTree {
        SharpTree {
            knots: Vec::new(alloc),
            pairs: 0,
        }
    }

    /// The root: a leaf without multipliers, or a gap where a cycle has no offset.
    pub fn begin(&mut self, alloc: Global, setting: &Setting) -> Result<(), AllocError> {
        self.add(match setting.first_gap() {
            Some(cycle) => Knot::Gap { cycle },
            None => Knot::Leaf {
                leaf: no_multipliers(alloc),
                bound: 0,
            },
        })?;
        Ok(())
    }

    /// Whether the tree is one leaf.
    pub fn is_leaf(&self) -> bool {
        matches!(self.knots.first(), Some(Knot::Leaf { .. }))
    }

    /// A place more; its number.
    pub fn add(&mut self, knot: Knot) -> Result<u32, AllocError> {
        let place = u32::try_from(self.knots.len()).unwrap_or(u32::MAX);
        self.knots.push(knot)?;
        Ok(place)
    }

    /// A leaf more, of multipliers of inequalities of the pool; its place.
    pub fn add_leaf(
        &mut self,
        pool: &mut Pool,
        leaf: LeafMultipliers,
        bound: u64,
    ) -> Result<u32, AllocError> {
        self.told_leaf(pool, &leaf);
        self.add(Knot::Leaf { leaf, bound })
    }

    /// Counts a leaf of multipliers of inequalities of the pool.
    fn told_leaf(&mut self, pool: &mut Pool, leaf: &LeafMultipliers) {
        for (number, _) in &leaf.walks {
            pool.tell(*number);
        }
        self.pairs = self.pairs.saturating_add(pairs_of(leaf));
    }

    /// Puts a place in behind the others, or the first one in the place of the root.
    pub fn put(
        &mut self,
        alloc: Global,
        pool: &mut Pool,
        place: u32,
        knot: Knot,
    ) -> Result<(), AllocError> {
        if let Knot::Leaf { leaf, .. } | Knot::Shut { leaf } = &knot {
            self.told_leaf(pool, leaf);
        }
        if place == 0 {
            self.replace(alloc, pool, place, knot)
        } else {
            self.add(knot)?;
            Ok(())
        }
    }

    /// Puts something in the place of a leaf.
    pub fn replace(
        &mut self,
        alloc: Global,
        pool: &mut Pool,
        place: u32,
        knot: Knot,
    ) -> Result<(), AllocError> {
        let old = match self.knots.get_mut(place as usize) {
            Some(slot) => replace(slot, knot),
            None => knot,
        };
        let left = self.leave(alloc, pool, &old);
        drop(old);
        left
    }

    /// A place is no longer there.
    fn leave(&mut self, alloc: Global, pool: &mut Pool, knot: &Knot) -> Result<(), AllocError> {
        match knot {
            Knot::Leaf { leaf, .. } | Knot::Shut { leaf } => {
                self.pairs = self.pairs.saturating_sub(pairs_of(leaf));
                untell(alloc, pool, leaf)
            }
            _ => Ok(()),
        }
    }

    /// Puts another leaf in the place of one.
    pub fn replace_leaf(
        &mut self,
        alloc: Global,
        pool: &mut Pool,
        place: u32,
        leaf: LeafMultipliers,
        bound: u64,
    ) -> Result<(), AllocError> {
        self.told_leaf(pool, &leaf);
        self.replace(alloc, pool, place, Knot::Leaf { leaf, bound })
    }

    /// Puts a leaf in the place of one that shows that no timetable is there.
    pub fn shut(
        &mut self,
        alloc: Global,
        pool: &mut Pool,
        place: u32,
        leaf: LeafMultipliers,
    ) -> Result<(), AllocError> {
        self.told_leaf(pool, &leaf);
        self.replace(alloc, pool, place, Knot::Shut { leaf })
    }

    /// A leaf more that shows that no timetable is there; its place.
    pub fn add_shut(&mut self, pool: &mut Pool, leaf: LeafMultipliers) -> Result<u32, AllocError> {
        self.told_leaf(pool, &leaf);
        self.add(Knot::Shut { leaf })
    }

    /// A copy of the leaf at a place; one without multipliers where there is none.
    pub fn copied(&self, alloc: Global, place: u32) -> Result<LeafMultipliers, AllocError> {
        match self.knots.get(place as usize) {
            Some(Knot::Leaf { leaf, .. }) => Ok(LeafMultipliers {
                pairs: Vec::from_slice(alloc, &leaf.pairs)?,
                walks: Vec::from_slice(alloc, &leaf.walks)?,
            }),
            _ => Ok(no_multipliers(alloc)),
        }
    }

    /// How many walks the leaf at a place has multipliers of.
    fn walks_at(&self, place: u32) -> usize {
        match self.knots.get(place as usize) {
            Some(Knot::Leaf { leaf, .. }) => leaf.walks.len(),
            _ => 0,
        }
    }

    /// Whether the leaf at a place, whose node has so many inequalities, may be split without passing what a certificate
    /// has at most.
    pub fn has_room(&self, pool: &Pool, place: u32, count: usize) -> bool {
        let more_pairs = count.saturating_mul(2).saturating_add(MOST_NEW);
        let untold = count.saturating_sub(self.walks_at(place));
        let more_walks = untold.saturating_add(MOST_NEW);
        self.knots.len().saturating_add(2) <= MOST_LINES
            && self.pairs.saturating_add(more_pairs) <= MOST_PAIRS
            && pool.told().saturating_add(more_walks) <= MOST_WALKS
            && pool.told_passes() <= MOST_PASSES
    }

    /// How many lines, pairs and passes of walks it has in all.
    pub fn size(&self, pool: &Pool) -> usize {
        let pairs = self.knots.len().saturating_add(self.pairs);
        pairs.saturating_add(pool.told_passes())
    }
}

/// A leaf is no longer there.
fn untell(alloc: Global, pool: &mut Pool, leaf: &LeafMultipliers) -> Result<(), AllocError> {
    for (number, _) in &leaf.walks {
        pool.untell(*number);
        pool.sweep(alloc, *number)?;
    }
    Ok(())
}
