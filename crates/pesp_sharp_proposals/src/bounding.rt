//! Regions beside the tree: what they show, and whose turn it is of both.

use pesp_offset_tree::Sharpened;
use pesp_problem::Memory;
use pesp_regions::Regions;
use pesp_sharp_trees::Left;
use pesp_sharpening::{Sharpening, Step};

/// From how many rows on regions are looked at.
const LEAST_ROWS: usize = 1_200;

/// How many events the smallest and the greatest regions have at most.
const LEAST_EVENTS: u32 = 350;

const MOST_EVENTS: u32 = 1_400;

/// The one that shows less has one such part of the other's work at least.
const LEAST_PART: u64 = 8;

/// Regions come first until they had such a part of the root's work.
const FIRST_PART: u64 = 2;

/// Regions stall where they gained nothing by such a part of their work before.
const STALL_PART: u64 = 2;

/// The root as it is told, the regions by its multipliers, what they show together, their work when that rose last, and the work at
/// the root.
#[derive(Drop)]
pub(crate) struct Bounding {
    pub(crate) root: Sharpened,
    pub(crate) regions: Regions,
    pub(crate) bound: u64,
    gained_at: u64,
    root_work: u64,
}

/// Whether there are so many rows that regions are looked at.
pub(crate) fn may_have_regions(left: Left<'_>) -> bool {
    left.network.rows().len() >= LEAST_ROWS
}

/// The regions by a root, whose multipliers are told by a scale; None where there are none.
fn regions_of(
    left: Left<'_>,
    root: &Sharpened,
    slacks: &[i64],
    scale: u32,
) -> Result<Option<Regions>, Memory> {
    Regions::new(
        left.alloc,
        left.network,
        root,
        slacks,
        scale,
        LEAST_EVENTS,
        MOST_EVENTS,
    )
}

impl Bounding {
    /// The regions of a network whose root was sharpened; None where rows are few, or there are no two regions.
    pub(crate) fn of(
        left: Left<'_>,
        sharpening: &Sharpening,
    ) -> Result<Option<Box<Bounding>>, Memory> {
        if !may_have_regions(left) {
            return Ok(None);
        }
        let root = sharpening.sharpened()?;
        let slacks = sharpening.slacks().unwrap_or(&[]);
        Bounding::by_root(left, root, slacks, sharpening.scale(), sharpening.work())
    }

    /// The regions by a root, whose multipliers are told by a scale, and which took so much work, and by its slacks, in 1/65536, where
    /// they are known; None where there are no two regions.
    pub(crate) fn by_root(
        left: Left<'_>,
        root: Sharpened,
        slacks: &[i64],
        scale: u32,
        root_work: u64,
    ) -> Result<Option<Box<Bounding>>, Memory> {
        match regions_of(left, &root, slacks, scale) {
            Ok(Some(regions)) => {
                let bounding = Bounding {
                    root,
                    regions,
                    bound: 0,
                    gained_at: 0,
                    root_work,
                };
                Ok(Some(Box::new(left.alloc, bounding)?))
            }
            Ok(None) => {
                drop(root);
                Ok(None)
            }
            Err(refused) => {
                drop(root);
                Err(refused)
            }
        }
    }

    /// Whether regions had much work since they gained last.
    fn is_stalled(&self, own: u64) -> bool {
        own.saturating_sub(self.gained_at) > self.gained_at / STALL_PART
    }

    /// Whether it is the regions' turn beside a tree of this bound and work. They come first. Then the one that shows more goes on,
    /// and the other has its least part; where regions show more and stall, the tree has as much as they had.
    pub(crate) fn is_next(&self, tree_bound: u64, tree_work: u64) -> bool {
        let tree = tree_work.saturating_sub(self.root_work);
        let own = self.regions.work();
        if own < self.root_work / FIRST_PART {
            return true;
        }
        if self.bound < tree_bound {
            own.saturating_mul(LEAST_PART) < tree
        } else if self.is_stalled(own) {
            tree >= own
        } else {
            tree.saturating_mul(LEAST_PART) >= own
        }
    }

    /// Makes a step in a region; over where nothing is left to be done.
    pub(crate) fn step(&mut self) -> Result<Step, Memory> {
        if !self.regions.step()? {
            return Ok(Step::Over);
        }
        let bound = self.regions.bound()?;
        if bound > self.bound {
            self.bound = bound;
            self.gained_at = self.regions.work();
        }
        Ok(Step::Made)
    }
}
