//! The lines of a tree with a certificate's numbers: cycles from 1, and marked walks on from them.

use crate::kept::KeptLines;
use pesp_offset_tree::{LeafMultipliers, SharpLine};
use pesp_problem::{Memory, Pair, Pairs};
use pesp_truth::TreeLine;
use std::alloc::Global;

/// How a certificate numbers what a tree names.
#[derive(Clone, Copy)]
pub struct CertificateNumbers<'a> {
    /// How many cycles there are.
    pub cycles: u32,
    /// How many marked walks the tree names; the walk that only gives leaves the scale comes behind them.
    pub walks: u32,
    /// By how much the offset of each cycle is above the one that the tree speaks of.
    pub shifts: &'a [i64],
}

/// Whether a leaf names a marked walk under a multiplier.
fn names_walk(leaf: &LeafMultipliers) -> bool {
    for walk in &leaf.walks {
        if walk.1 > 0 {
            return true;
        }
    }
    false
}

/// Whether a line is a leaf that has to have the scale, though it names no marked walk.
fn wants_scale(line: &SharpLine) -> bool {
    match line {
        SharpLine::Bound(leaf) => !leaf.pairs.is_empty() && !names_walk(leaf),
        _ => false,
    }
}

/// Whether some leaf has to have the scale, though it names no marked walk.
pub fn some_wants_scale(lines: &[SharpLine]) -> bool {
    lines.iter().any(wants_scale)
}

/// Adds pairs under the numbers behind this one.
fn add_pairs(pairs: &mut Vec<Pair>, behind: u32, named: &[(u32, i64)]) -> Result<(), Memory> {
    for pair in named {
        pairs.push(Pair {
            cycle: behind.saturating_add(pair.0).saturating_add(1),
            mult: pair.1,
        })?;
    }
    Ok(())
}

/// Pairs in rising order, each number once and under no multiplier 0.
fn joined(alloc: Global, mut pairs: Vec<Pair>) -> Result<Pairs, Memory> {
    pairs.sort_unstable_by_key(|pair| pair.cycle);
    let mut rising: Vec<Pair> = Vec::new(alloc);
    let mut last = None;
    for pair in &pairs {
        if pair.mult != 0 && last != Some(pair.cycle) {
            rising.push(*pair)?;
            last = Some(pair.cycle);
        }
    }
    Ok(Pairs::new(rising))
}

/// The pairs of a leaf.
fn pairs_of(
    alloc: Global,
    numbers: CertificateNumbers<'_>,
    leaf: &LeafMultipliers,
) -> Result<Vec<Pair>, Memory> {
    let mut pairs = Vec::new(alloc);
    add_pairs(&mut pairs, 0, &leaf.pairs)?;
    add_pairs(&mut pairs, numbers.cycles, &leaf.walks)?;
    Ok(pairs)
}

/// The pairs of a bound leaf.
fn bound_pairs(
    alloc: Global,
    numbers: CertificateNumbers<'_>,
    line: &SharpLine,
    leaf: &LeafMultipliers,
) -> Result<Pairs, Memory> {
    let mut pairs = pairs_of(alloc, numbers, leaf)?;
    if wants_scale(line) {
        add_pairs(&mut pairs, numbers.cycles, &[(numbers.walks, 1)])?;
    }
    joined(alloc, pairs)
}

/// The offset of a cycle that is as far as this one of the tree.
fn shifted(numbers: CertificateNumbers<'_>, cycle: u32, most: i64) -> i64 {
    match numbers.shifts.get(cycle as usize) {
        Some(shift) => most.wrapping_add(*shift),
        None => most,
    }
}

/// A line of the tree.
fn line_of(
    alloc: Global,
    numbers: CertificateNumbers<'_>,
    line: &SharpLine,
) -> Result<TreeLine, Memory> {
    match line {
        SharpLine::Branch { cycle, most } => Ok(TreeLine::Offset {
            cycle: cycle.saturating_add(1),
            k: shifted(numbers, *cycle, *most),
        }),
        SharpLine::Bound(leaf) => Ok(TreeLine::Bound(bound_pairs(alloc, numbers, line, leaf)?)),
        SharpLine::Nothing(leaf) => {
            let pairs = pairs_of(alloc, numbers, leaf)?;
            Ok(TreeLine::Nothing(joined(alloc, pairs)?))
        }
        SharpLine::Gap { cycle } => Ok(TreeLine::Gap(cycle.saturating_add(1))),
        // Lines that are kept are told by their base.
        SharpLine::Kept { .. } => Ok(TreeLine::Propagated),
    }
}

impl CertificateNumbers<'_> {
    /// How many cycles and marked walks stand in front of those that kept lines name.
    fn behind(&self, lines: &[SharpLine]) -> u32 {
        let scale = if some_wants_scale(lines) { 1 } else { 0 };
        let own = self.walks.saturating_add(scale);
        self.cycles.saturating_add(own)
    }
}

/// Puts a line behind others, or the lines of a base that it keeps.
fn add_line(
    alloc: Global,
    numbers: CertificateNumbers<'_>,
    tree: &mut Vec<TreeLine>,
    line: &SharpLine,
    kept: &Option<KeptLines<'_>>,
    behind: u32,
) -> Result<(), Memory> {
    if let Some(kept) = kept
        && let SharpLine::Kept { .. } = line
    {
        return kept.add_lines(alloc, tree, line, behind);
    }
    tree.push(line_of(alloc, numbers, line)?)?;
    Ok(())
}

/// The lines of the tree, with those of a base that are kept.
pub fn lines_of(
    alloc: Global,
    numbers: CertificateNumbers<'_>,
    lines: &[SharpLine],
    kept: &Option<KeptLines<'_>>,
) -> Result<Vec<TreeLine>, Memory> {
    let behind = numbers.behind(lines);
    let mut tree = Vec::new(alloc);
    for line in lines {
        add_line(alloc, numbers, &mut tree, line, kept, behind)?;
    }
    Ok(tree)
}
