//! Trees that are given, and taken up.

use crate::opens::{LeafStart, Open};
use crate::sharpening::Sharpening;
use pesp_inequalities::Pass;
use pesp_offset_tree::{Knot, LeafMultipliers, PseudoCosts, Shape, SharpLine, Sharpened};
use pesp_problem::Memory;
use pesp_sharp_nodes::{
    BoundSense, Limit, NodeProgram, OffsetBound, OffsetCut, ProgramNode, Range,
};
use pesp_warm_nodes::NodeBasis;
use std::alloc::{AllocError, Global};
use std::mem::replace;

/// What the lines of a given tree share: the lines with their shape, the number in the pool of each walk, none where it says
/// nothing, the inequalities that leaves without any get, and what closes leaves.
#[derive(Clone, Copy)]
struct Given<'a> {
    lines: &'a [SharpLine],
    shape: &'a Shape,
    walks: &'a [Option<u32>],
    common: &'a [u32],
    limit: Limit,
}

/// The bound on an offset of which a cycle has a multiplier, where offsets have this range.
fn end_of(ranges: &[Range], cycle: u32, multiplier: i64) -> OffsetBound {
    let range = ranges.get(cycle as usize).copied();
    let Range { least, most } = range.unwrap_or(Range { least: 0, most: 0 });
    if multiplier < 0 {
        OffsetBound {
            cycle,
            side: BoundSense::AtMost,
            offset: most,
        }
    } else {
        OffsetBound {
            cycle,
            side: BoundSense::AtLeast,
            offset: least,
        }
    }
}

/// Whether no bound of the other ones on the same offset is stronger.
fn is_end(ranges: &[Range], branch: OffsetBound) -> bool {
    match ranges.get(branch.cycle as usize) {
        Some(range) => match branch.side {
            BoundSense::AtMost => branch.offset == range.most,
            BoundSense::AtLeast => branch.offset == range.least,
        },
        None => false,
    }
}

/// The bounds on offsets with their multipliers: those that pairs multiply, and the others that lead to a leaf.
fn offsets_of(
    alloc: Global,
    ranges: &[Range],
    path: &[OffsetBound],
    pairs: &[(u32, i64)],
) -> Result<Vec<(OffsetBound, i64)>, AllocError> {
    let mut offsets: Vec<(OffsetBound, i64)> = Vec::new(alloc);
    for (cycle, multiplier) in pairs {
        let size = multiplier.wrapping_abs();
        offsets.push((end_of(ranges, *cycle, *multiplier), size))?;
    }
    for branch in path {
        let is_there = offsets.iter().any(|offset| offset.0 == *branch);
        if is_end(ranges, *branch) && !is_there {
            offsets.push((*branch, 0))?;
        }
    }
    Ok(offsets)
}

/// Multipliers of walks by their numbers in the pool, in rising order.
fn walks_of(
    alloc: Global,
    numbers: &[Option<u32>],
    walks: &[(u32, i64)],
) -> Result<Vec<(u32, i64)>, AllocError> {
    let mut pooled = Vec::new(alloc);
    for (walk, multiplier) in walks {
        if let Some(Some(number)) = numbers.get(*walk as usize).copied() {
            pooled.push((number, *multiplier))?;
        }
    }
    pooled.sort_unstable_by_key(|walk| walk.0);
    Ok(pooled)
}

impl Sharpening {
    /// The ranges of offsets below bounds on them.
    fn ranges_below(&self, path: &[OffsetBound]) -> Result<Vec<Range>, AllocError> {
        let mut ranges = self.sharpener.setting.ranges(self.alloc)?;
        for branch in path {
            if let Some(range) = ranges.get_mut(branch.cycle as usize) {
                *range = range.narrowed(*branch);
            }
        }
        Ok(ranges)
    }

    /// What a leaf that is given goes on from, which has so many multipliers.
    fn start_of(
        &mut self,
        given: Given<'_>,
        relaxation: &NodeProgram,
        ranges: &[Range],
        path: &[OffsetBound],
        count: usize,
    ) -> Result<LeafStart, AllocError> {
        if self.shared.is_some() {
            let basis = NodeBasis::given(self.alloc, ranges, path, count)?;
            return Ok(LeafStart::Exchanges(basis));
        }
        let node = ProgramNode::cold(self.alloc, relaxation, given.common)?;
        node.keep_in(&mut self.sharpener.pool);
        Ok(LeafStart::Steps(node))
    }

    /// A bound leaf that is given; it is open where what it shows doesn't reach the limit.
    fn take_leaf(
        &mut self,
        given: Given<'_>,
        place: u32,
        leaf: &LeafMultipliers,
    ) -> Result<Knot, AllocError> {
        let walks = walks_of(self.alloc, given.walks, &leaf.walks)?;
        let bound = self.open_given(given, place, &leaf.pairs, &walks)?;
        let pairs = Vec::from_slice(self.alloc, &leaf.pairs)?;
        Ok(Knot::Leaf {
            leaf: LeafMultipliers { pairs, walks },
            bound,
        })
    }

    /// What these multipliers show at a leaf, which is open where that doesn't reach the limit.
    fn open_given(
        &mut self,
        given: Given<'_>,
        place: u32,
        pairs: &[(u32, i64)],
        walks: &[(u32, i64)],
    ) -> Result<u64, AllocError> {
        let path = given.shape.path(self.alloc, given.lines, place)?;
        let ranges = self.ranges_below(&path)?;
        let offsets = offsets_of(self.alloc, &ranges, &path, pairs)?;
        let mut relaxation = self.sharpener.told(&offsets, walks)?;
        let bound = relaxation.bound();
        let start = if bound < given.limit.cost {
            let count = pairs.len().saturating_add(walks.len());
            Some(self.start_of(given, &relaxation, &ranges, &path, count))
        } else {
            None
        };
        drop(relaxation);
        if let Some(start) = start {
            let start = start?;
            self.leaves.push(Open {
                place,
                bound,
                start,
            })?;
        }
        Ok(bound)
    }

    /// What a line that is given becomes.
    fn knot_of(
        &mut self,
        given: Given<'_>,
        place: u32,
        line: &SharpLine,
    ) -> Result<Knot, AllocError> {
        match line {
            SharpLine::Branch { cycle, most } => Ok(Knot::Split {
                cut: OffsetCut {
                    cycle: *cycle,
                    most: *most,
                },
                low: place.saturating_add(1),
                high: given.shape.second(place),
            }),
            SharpLine::Bound(leaf) => self.take_leaf(given, place, leaf),
            SharpLine::Nothing(leaf) => Ok(Knot::Shut {
                leaf: LeafMultipliers {
                    pairs: Vec::from_slice(self.alloc, &leaf.pairs)?,
                    walks: walks_of(self.alloc, given.walks, &leaf.walks)?,
                },
            }),
            SharpLine::Gap { cycle } => Ok(Knot::Gap { cycle: *cycle }),
            SharpLine::Kept {
                first,
                count,
                bound,
            } => Ok(Knot::Kept {
                first: *first,
                count: *count,
                bound: *bound,
            }),
        }
    }

    /// Takes in the walks that are given; their numbers in the pool.
    pub(crate) fn take_walks(
        &mut self,
        walks: &[Vec<Pass>],
    ) -> Result<Vec<Option<u32>>, AllocError> {
        let mut numbers = Vec::with_capacity(self.alloc, walks.len())?;
        for passes in walks {
            let passes = Vec::from_slice(self.alloc, passes)?;
            numbers.push(self.sharpener.take_walk(passes)?)?;
        }
        Ok(numbers)
    }

    /// Puts the lines that are given in the place of the tree.
    fn take_lines(&mut self, given: Given<'_>) -> Result<(), AllocError> {
        for (place, line) in given.lines.iter().enumerate() {
            let number = u32::try_from(place).unwrap_or(u32::MAX);
            let knot = self.knot_of(given, number, line)?;
            let pool = &mut self.sharpener.pool;
            self.tree.put(self.alloc, pool, number, knot)?;
        }
        Ok(())
    }

    /// Takes up a tree that is given in the place of its own, which is one leaf: its bound leaves that don't reach the best cost
    /// that is known are open. Leaves without walks get the inequalities that were found so far. False, and nothing is done,
    /// where a step was made, or the lines aren't those of one tree.
    pub fn take_up(&mut self, given: &Sharpened, best: Option<u64>) -> Result<bool, Memory> {
        if self.tree.knots.len() > 1 {
            return Ok(false);
        }
        let Some(shape) = Shape::of(self.alloc, &given.lines)? else {
            return Ok(false);
        };
        let old = replace(&mut self.leaves, Vec::new(self.alloc));
        let limit = self.sharpener.setting.limit(best);
        let taken = self.take_tree(given, &shape, &old, limit);
        drop(old);
        taken?;
        Ok(true)
    }

    /// Puts a tree of this shape in the place of its own, whose open leaves these were.
    fn take_tree(
        &mut self,
        given: &Sharpened,
        shape: &Shape,
        old: &[Open],
        limit: Limit,
    ) -> Result<(), AllocError> {
        let common = match old.first() {
            Some(open) => open.pooled(self.alloc)?,
            None => Vec::new(self.alloc),
        };
        self.leave_shared();
        self.begin_with(given)?;
        let walks = self.take_walks(&given.walks)?;
        self.share_given(&common, &walks, limit)?;
        self.take_lines(Given {
            lines: &given.lines,
            shape,
            walks: &walks,
            common: &common,
            limit,
        })?;
        self.sort_leaves();
        self.leave(old)?;
        self.sharpener.let_go(&walks)
    }

    /// The program that leaves shared goes.
    fn leave_shared(&mut self) {
        if let Some(shared) = replace(&mut self.shared, None) {
            shared.leave(&mut self.sharpener.pool);
            drop(shared);
        }
        self.carried = None;
    }

    /// Cycles that are given stand before the others, and no cut has gained anything.
    fn begin_with(&mut self, given: &Sharpened) -> Result<(), AllocError> {
        let setting = &mut self.sharpener.setting;
        setting.put_first(self.alloc, &given.cycles)?;
        self.experience = PseudoCosts::new(self.alloc, setting.cycles.len())?;
        self.given = given.cycles.len();
        self.is_begun = true;
        Ok(())
    }

    /// Leaves are open no longer.
    fn leave(&mut self, leaves: &[Open]) -> Result<(), AllocError> {
        for open in leaves {
            open.leave(self.alloc, &mut self.sharpener.pool)?;
        }
        Ok(())
    }
}
