//! The lines by which a tree is told, in preorder, and the numbers of what they name.

use crate::sharpened::{LeafMultipliers, SharpLine, Sharpened};
use crate::tree::{Knot, SharpTree};
use pesp_inequalities::Pass;
use pesp_sharp_nodes::{Pool, Setting};
use std::alloc::{AllocError, Global};
use std::mem::replace;

/// The numbers that cycles and walks are told by, for each cycle and each inequality of the pool.
#[derive(Drop)]
struct ToldNumbers {
    cycles: Vec<u32>,
    walks: Vec<u32>,
}

/// Marks a cycle.
fn mark(marks: &mut [bool], cycle: u32) {
    if let Some(slot) = marks.get_mut(cycle as usize) {
        *slot = true;
    }
}

/// Marks the cycles that a place of the tree names.
fn mark_named(marks: &mut [bool], knot: &Knot) {
    match knot {
        Knot::Split { cut, .. } => mark(marks, cut.cycle),
        Knot::Gap { cycle } => mark(marks, *cycle),
        Knot::Leaf { leaf, .. } | Knot::Shut { leaf } => {
            for (cycle, _) in &leaf.pairs {
                mark(marks, *cycle);
            }
        }
        Knot::Kept { .. } => {}
    }
}

/// Whether each cycle was given, or is named by the tree.
fn named_cycles(
    alloc: Global,
    setting: &Setting,
    tree: &SharpTree,
    given: usize,
) -> Result<Vec<bool>, AllocError> {
    let mut is_named = Vec::with_capacity(alloc, setting.cycles.len())?;
    for place in 0..setting.cycles.len() {
        is_named.push(place < given)?;
    }
    for knot in &tree.knots {
        mark_named(&mut is_named, knot);
    }
    Ok(is_named)
}

/// For each place its number among those that are marked.
fn ranks(alloc: Global, marks: &[bool]) -> Result<Vec<u32>, AllocError> {
    let mut ranks = Vec::with_capacity(alloc, marks.len())?;
    let mut next = 0u32;
    for is_marked in marks {
        ranks.push(next)?;
        if *is_marked {
            next = next.wrapping_add(1);
        }
    }
    Ok(ranks)
}

/// Puts the marked cycles into a list.
fn tell_cycles(
    alloc: Global,
    setting: &Setting,
    marks: &[bool],
    cycles: &mut Vec<Vec<Pass>>,
) -> Result<(), AllocError> {
    for (place, cycle) in setting.cycles.iter().enumerate() {
        if let Some(true) = marks.get(place) {
            cycles.push(Vec::from_slice(alloc, &cycle.passes)?)?;
        }
    }
    Ok(())
}

/// The same list by other numbers.
fn renumbered(
    alloc: Global,
    list: &[(u32, i64)],
    numbers: &[u32],
) -> Result<Vec<(u32, i64)>, AllocError> {
    let mut told = Vec::with_capacity(alloc, list.len())?;
    for (number, multiplier) in list {
        let rank = numbers.get(*number as usize).copied().unwrap_or(u32::MAX);
        told.push((rank, *multiplier))?;
    }
    Ok(told)
}

impl ToldNumbers {
    /// The number of a cycle.
    fn cycle(&self, cycle: u32) -> u32 {
        self.cycles.get(cycle as usize).copied().unwrap_or(u32::MAX)
    }

    /// A leaf by these numbers.
    fn leaf(&self, alloc: Global, leaf: &LeafMultipliers) -> Result<LeafMultipliers, AllocError> {
        Ok(LeafMultipliers {
            pairs: renumbered(alloc, &leaf.pairs, &self.cycles)?,
            walks: renumbered(alloc, &leaf.walks, &self.walks)?,
        })
    }

    /// The line of a place.
    fn line(&self, alloc: Global, setting: &Setting, knot: &Knot) -> Result<SharpLine, AllocError> {
        match knot {
            Knot::Split { cut, .. } => Ok(SharpLine::Branch {
                cycle: self.cycle(cut.cycle),
                most: cut.most,
            }),
            Knot::Gap { cycle } => Ok(SharpLine::Gap {
                cycle: self.cycle(*cycle),
            }),
            Knot::Leaf { leaf, bound } if setting.is_shut_by(*bound) => {
                Ok(SharpLine::Nothing(self.leaf(alloc, leaf)?))
            }
            Knot::Leaf { leaf, .. } => Ok(SharpLine::Bound(self.leaf(alloc, leaf)?)),
            Knot::Shut { leaf } => Ok(SharpLine::Nothing(self.leaf(alloc, leaf)?)),
            Knot::Kept {
                first,
                count,
                bound,
            } => Ok(SharpLine::Kept {
                first: *first,
                count: *count,
                bound: *bound,
            }),
        }
    }
}

/// Puts the lines of a tree into a list, in preorder.
fn tell_lines(
    alloc: Global,
    setting: &Setting,
    tree: &SharpTree,
    numbers: &ToldNumbers,
    lines: &mut Vec<SharpLine>,
) -> Result<(), AllocError> {
    let mut waiting = Vec::new(alloc);
    waiting.push(0u32)?;
    for _ in 0..tree.knots.len() {
        let Some(place) = waiting.pop() else {
            return Ok(());
        };
        let Some(knot) = tree.knots.get(place as usize) else {
            return Ok(());
        };
        lines.push(numbers.line(alloc, setting, knot)?)?;
        if let Knot::Split { low, high, .. } = knot {
            waiting.push(*high)?;
            waiting.push(*low)?;
        }
    }
    Ok(())
}

/// The least cost that a leaf shows in which there may be a timetable; `u64::MAX` where there is no such leaf.
pub fn bound_of(setting: &Setting, tree: &SharpTree) -> u64 {
    let mut least = u64::MAX;
    for knot in &tree.knots {
        match knot {
            Knot::Leaf { bound, .. } if !setting.is_shut_by(*bound) => least = least.min(*bound),
            Knot::Kept { bound, .. } => least = least.min(*bound),
            _ => {}
        }
    }
    least
}

/// What is told of a tree, with so many cycles that were given, after so many steps.
pub fn told(
    alloc: Global,
    setting: &Setting,
    pool: &Pool,
    tree: &SharpTree,
    given: usize,
    steps: u32,
) -> Result<Sharpened, AllocError> {
    let lines = Vec::with_capacity(alloc, tree.knots.len())?;
    let mut told = Sharpened {
        bound: bound_of(setting, tree),
        cycles: Vec::new(alloc),
        walks: Vec::new(alloc),
        lines,
        steps_used: steps,
    };
    match tell(alloc, setting, pool, tree, given, &mut told) {
        Ok(()) => Ok(told),
        Err(refused) => {
            drop(told);
            Err(refused)
        }
    }
}

/// Puts in the cycles, the walks and the lines of a tree.
fn tell(
    alloc: Global,
    setting: &Setting,
    pool: &Pool,
    tree: &SharpTree,
    given: usize,
    told: &mut Sharpened,
) -> Result<(), AllocError> {
    let marks = named_cycles(alloc, setting, tree, given)?;
    let numbers = ToldNumbers {
        cycles: ranks(alloc, &marks)?,
        walks: pool.numbers(alloc)?,
    };
    tell_cycles(alloc, setting, &marks, &mut told.cycles)?;
    drop(replace(&mut told.walks, pool.walks(alloc)?));
    tell_lines(alloc, setting, tree, &numbers, &mut told.lines)
}
