//! The tree of a certificate as one over what is left of the instance.

use crate::kept::name_walk;
use crate::left::Left;
use crate::lifted::offset_shifts;
use crate::lowered::Lowering;
use crate::scales::{growth_of, scale_over};
use pesp_cert::Fronted;
use pesp_inequalities::Pass;
use pesp_offset_tree::{LeafMultipliers, SharpLine, Sharpened};
use pesp_problem::{Memory, Pair};
use pesp_truth::TreeLine;
use std::alloc::Global;

/// The greatest multiplier that is taken up.
const MOST_MULTIPLIER: i64 = 1_000_000_000_000;

/// A certificate whose tree is taken up: which of its cycles and marked walks are walks of what is left, by how much the
/// offsets of these cycles are above those of what is left, and by what the multipliers grow of leaves that name marked walks
/// and of leaves that name none.
#[derive(Clone, Copy)]
struct BaseTree<'a> {
    cycles: &'a [bool],
    walks: &'a [bool],
    shifts: &'a [i64],
    sharp_factor: i64,
    plain_factor: i64,
    least: u64,
}

/// Walks of a base: which are walks of what is left, and the rows of these.
#[derive(Drop)]
struct LoweredWalks {
    are_there: Vec<bool>,
    passes: Vec<Vec<Pass>>,
}

/// Which walks are there.
fn are_there(alloc: Global, walks: &[Option<Vec<Pass>>]) -> Result<Vec<bool>, Memory> {
    let mut marks = Vec::with_capacity(alloc, walks.len())?;
    for walk in walks {
        marks.push(walk.is_some())?;
    }
    Ok(marks)
}

/// The walks that are there, and no rows for the others.
fn or_empty(alloc: Global, walks: Vec<Option<Vec<Pass>>>) -> Result<Vec<Vec<Pass>>, Memory> {
    let mut passes = Vec::with_capacity(alloc, walks.len())?;
    for walk in walks {
        passes.push(walk.unwrap_or(Vec::new(alloc)))?;
    }
    Ok(passes)
}

/// How many lines the subtree of each line has.
fn sizes_of(alloc: Global, lines: &[TreeLine]) -> Result<Vec<usize>, Memory> {
    let mut sizes = vec![in alloc; 1usize; lines.len()]?;
    for (place, line) in lines.iter().enumerate().rev() {
        if let TreeLine::Slack { .. } | TreeLine::Offset { .. } = line {
            let first = place.wrapping_add(1);
            let low = sizes.get(first).copied().unwrap_or(0);
            let high = sizes.get(first.wrapping_add(low)).copied().unwrap_or(0);
            if let Some(slot) = sizes.get_mut(place) {
                *slot = low.wrapping_add(high).wrapping_add(1);
            }
        }
    }
    Ok(sizes)
}

/// Whether a line shows a bound.
fn has_bound(lines: &[TreeLine]) -> bool {
    for line in lines {
        if let TreeLine::Bound(_) = line {
            return true;
        }
    }
    false
}

impl LoweredWalks {
    /// Walks of which some aren't there.
    fn of(alloc: Global, lowered: Vec<Option<Vec<Pass>>>) -> Result<LoweredWalks, Memory> {
        let are_there = are_there(alloc, &lowered)?;
        let passes = or_empty(alloc, lowered)?;
        Ok(LoweredWalks { are_there, passes })
    }
}

impl BaseTree<'_> {
    /// Whether a place is marked.
    fn has(marks: &[bool], place: u32) -> bool {
        marks.get(place as usize).copied().unwrap_or(false)
    }

    /// How many cycles there are.
    fn count(&self) -> u32 {
        u32::try_from(self.cycles.len()).unwrap_or(u32::MAX)
    }

    /// Takes a pair up; None where its walk isn't one of what is left, or its multiplier grows too great.
    fn take_pair(
        &self,
        leaf: &mut LeafMultipliers,
        pair: &Pair,
        factor: i64,
    ) -> Result<Option<()>, Memory> {
        let Some(multiplier) = pair.mult.checked_mul(factor) else {
            return Ok(None);
        };
        if multiplier > MOST_MULTIPLIER || multiplier < -MOST_MULTIPLIER {
            return Ok(None);
        }
        let cycle = pair.cycle.wrapping_sub(1);
        let walk = cycle.wrapping_sub(self.count());
        if cycle < self.count() {
            leaf.pairs.push((cycle, multiplier))?;
            Ok(BaseTree::has(self.cycles, cycle).then_some(()))
        } else {
            leaf.walks.push((walk, multiplier))?;
            Ok(BaseTree::has(self.walks, walk).then_some(()))
        }
    }

    /// The leaf of pairs; None where one can't be taken up.
    fn leaf(&self, alloc: Global, pairs: &[Pair]) -> Result<Option<LeafMultipliers>, Memory> {
        let factor = if name_walk(self.count(), pairs) {
            self.sharp_factor
        } else {
            self.plain_factor
        };
        let mut leaf = LeafMultipliers {
            pairs: Vec::new(alloc),
            walks: Vec::new(alloc),
        };
        for pair in pairs {
            if self.take_pair(&mut leaf, pair, factor)?.is_none() {
                return Ok(None);
            }
        }
        Ok(Some(leaf))
    }

    /// A branch on a cycle's offset; None where the cycle isn't a walk of what is left.
    fn branch(&self, number: u32, k: i64) -> Option<SharpLine> {
        let cycle = number.wrapping_sub(1);
        let shift = self.shifts.get(cycle as usize).copied()?;
        let most = k.checked_sub(shift)?;
        BaseTree::has(self.cycles, cycle).then_some(SharpLine::Branch { cycle, most })
    }

    /// A line; None where it can't be taken up.
    fn line(&self, alloc: Global, line: &TreeLine) -> Result<Option<SharpLine>, Memory> {
        match line {
            TreeLine::Offset { cycle, k } => Ok(self.branch(*cycle, *k)),
            TreeLine::Gap(cycle) => Ok(Some(SharpLine::Gap {
                cycle: cycle.wrapping_sub(1),
            })),
            TreeLine::Bound(pairs) => {
                match self.leaf(alloc, pairs.as_slice())? {
                    Some(leaf) => Ok(Some(SharpLine::Bound(leaf))),
                    None => Ok(None),
                }
            }
            TreeLine::Nothing(pairs) => {
                match self.leaf(alloc, pairs.as_slice())? {
                    Some(leaf) => Ok(Some(SharpLine::Nothing(leaf))),
                    None => Ok(None),
                }
            }
            TreeLine::Slack { .. } | TreeLine::Propagated => Ok(None),
        }
    }

    /// A line that may be taken up. A leaf that is to be kept as it is shows the cost that is told of it.
    fn line_at(
        &self,
        alloc: Global,
        line: &TreeLine,
        place: usize,
        cost: Option<u64>,
    ) -> Result<Option<SharpLine>, Memory> {
        match cost {
            Some(bound) => Ok(Some(SharpLine::Kept {
                first: u32::try_from(place).unwrap_or(u32::MAX),
                count: 1,
                bound,
            })),
            None => self.line(alloc, line),
        }
    }

    /// Lines that are kept as they are.
    fn kept(&self, lines: &[TreeLine], place: usize, count: usize) -> SharpLine {
        let end = place.saturating_add(count);
        let kept = lines.get(place..end).unwrap_or(&[]);
        SharpLine::Kept {
            first: u32::try_from(place).unwrap_or(u32::MAX),
            count: u32::try_from(count).unwrap_or(u32::MAX),
            bound: if has_bound(kept) {
                self.least
            } else {
                u64::MAX
            },
        }
    }

    /// The lines of the tree; below a branch that can't be taken up all are kept, and so is each leaf of which a cost is told.
    fn lines(
        &self,
        alloc: Global,
        tree: &[TreeLine],
        spared: &[Option<u64>],
    ) -> Result<Vec<SharpLine>, Memory> {
        let sizes = sizes_of(alloc, tree)?;
        let mut lines = Vec::new(alloc);
        let mut next = 0usize;
        for (place, line) in tree.iter().enumerate() {
            if place < next {
                continue;
            }
            let cost = spared.get(place).copied().unwrap_or(None);
            let (taken, count) = match self.line_at(alloc, line, place, cost)? {
                Some(taken) => (taken, 1),
                None => {
                    let count = sizes.get(place).copied().unwrap_or(1);
                    (self.kept(tree, place, count), count)
                }
            };
            lines.push(taken)?;
            next = place.saturating_add(count);
        }
        Ok(lines)
    }
}

/// The marked walks of a base along the rows that are left.
fn walks_of(
    alloc: Global,
    lowering: &Lowering,
    base: &Fronted,
) -> Result<Vec<Option<Vec<Pass>>>, Memory> {
    match &base.front {
        Some(front) => lowering.walks(alloc, front.marks().walks()),
        None => Ok(Vec::new(alloc)),
    }
}

/// The cycles and the marked walks of a base along the rows that are left.
fn lowered_walks(
    alloc: Global,
    lowering: &Lowering,
    base: &Fronted,
) -> Result<(LoweredWalks, LoweredWalks), Memory> {
    let cycles = lowering.cycles(alloc, base.certificate.cycles())?;
    let walks = walks_of(alloc, lowering, base)?;
    let cycles = LoweredWalks::of(alloc, cycles)?;
    match LoweredWalks::of(alloc, walks) {
        Ok(walks) => Ok((cycles, walks)),
        Err(refused) => {
            drop(cycles);
            Err(refused)
        }
    }
}

/// The lines of a base's tree, with these cycles and marked walks.
fn lines_over(
    left: Left<'_>,
    base: &Fronted,
    cycles: &LoweredWalks,
    walks: &LoweredWalks,
    spared: &[Option<u64>],
) -> Result<Vec<SharpLine>, Memory> {
    let certificate = &base.certificate;
    let shifts = offset_shifts(left, &cycles.passes, certificate.cycles())?;
    let base_tree = BaseTree {
        cycles: &cycles.are_there,
        walks: &walks.are_there,
        shifts: &shifts,
        sharp_factor: growth_of(base, left.network),
        plain_factor: i64::from(scale_over(base, left.network)),
        least: certificate.answer().least().unwrap_or(u64::MAX),
    };
    base_tree.lines(left.alloc, certificate.tree(), spared)
}

/// The tree of a base as one over what is left of the instance, to be taken up. What isn't one is kept as it is, and so is each
/// line for which the cost is told that it shows.
pub fn given_of(
    left: Left<'_>,
    base: &Fronted,
    spared: &[Option<u64>],
) -> Result<Sharpened, Memory> {
    let lowering = Lowering::of(left)?;
    let lowered = lowered_walks(left.alloc, &lowering, base);
    drop(lowering);
    let (cycles, walks) = lowered?;
    match lines_over(left, base, &cycles, &walks, spared) {
        Ok(lines) => Ok(Sharpened {
            bound: 0,
            lines,
            cycles: cycles.passes,
            walks: walks.passes,
            steps_used: 0,
        }),
        Err(refused) => {
            drop(cycles);
            drop(walks);
            Err(refused)
        }
    }
}
