//! Copies of a certificate's parts.

use pesp_cert::ShownLemma;
use pesp_problem::{MarkedWalk, Memory, Pairs, Walk};
use pesp_truth::TreeLine;
use std::alloc::Global;

/// A copy of pairs.
fn copied_pairs(alloc: Global, pairs: &Pairs) -> Result<Pairs, Memory> {
    Ok(Pairs::new(Vec::from_slice(alloc, pairs.as_slice())?))
}

/// A copy of a line.
fn copied_line(alloc: Global, line: &TreeLine) -> Result<TreeLine, Memory> {
    match line {
        TreeLine::Slack { row, k } => Ok(TreeLine::Slack { row: *row, k: *k }),
        TreeLine::Offset { cycle, k } => Ok(TreeLine::Offset {
            cycle: *cycle,
            k: *k,
        }),
        TreeLine::Bound(pairs) => Ok(TreeLine::Bound(copied_pairs(alloc, pairs)?)),
        TreeLine::Nothing(pairs) => Ok(TreeLine::Nothing(copied_pairs(alloc, pairs)?)),
        TreeLine::Gap(cycle) => Ok(TreeLine::Gap(*cycle)),
        TreeLine::Propagated => Ok(TreeLine::Propagated),
    }
}

/// Copies of lines.
pub fn copied_lines(alloc: Global, lines: &[TreeLine]) -> Result<Vec<TreeLine>, Memory> {
    let mut copies = Vec::with_capacity(alloc, lines.len())?;
    for line in lines {
        copies.push(copied_line(alloc, line)?)?;
    }
    Ok(copies)
}

/// Copies of walks.
pub fn copied_walks(alloc: Global, walks: &[Walk]) -> Result<Vec<Walk>, Memory> {
    let mut copies = Vec::with_capacity(alloc, walks.len())?;
    for walk in walks {
        copies.push(Walk::new(Vec::from_slice(alloc, walk.rows())?))?;
    }
    Ok(copies)
}

/// A copy of a marked walk.
pub fn copied_marked(alloc: Global, walk: &MarkedWalk) -> Result<MarkedWalk, Memory> {
    Ok(MarkedWalk::new(Vec::from_slice(alloc, walk.rows())?))
}

/// Copies of marked walks.
pub fn copied_marks(alloc: Global, walks: &[MarkedWalk]) -> Result<Vec<MarkedWalk>, Memory> {
    let mut copies = Vec::with_capacity(alloc, walks.len())?;
    for walk in walks {
        copies.push(copied_marked(alloc, walk)?)?;
    }
    Ok(copies)
}

/// Copies of the cycles and of the tree of a lemma.
fn copied_tree(alloc: Global, lemma: &ShownLemma) -> Result<(Vec<Walk>, Vec<TreeLine>), Memory> {
    let cycles = copied_walks(alloc, &lemma.cycles)?;
    match copied_lines(alloc, &lemma.tree) {
        Ok(tree) => Ok((cycles, tree)),
        Err(refused) => {
            drop(cycles);
            Err(refused)
        }
    }
}

/// A copy of a lemma with what shows it.
fn copied_lemma(alloc: Global, lemma: &ShownLemma) -> Result<ShownLemma, Memory> {
    let weights = Vec::from_slice(alloc, &lemma.weights)?;
    let walks = copied_marks(alloc, &lemma.walks)?;
    match copied_tree(alloc, lemma) {
        Ok((cycles, tree)) => Ok(ShownLemma {
            weights,
            least: lemma.least,
            scale: lemma.scale,
            walks,
            cycles,
            tree,
        }),
        Err(refused) => {
            drop(walks);
            Err(refused)
        }
    }
}

/// Puts copies of lemmas into a list.
fn add_copies(
    alloc: Global,
    lemmas: &[ShownLemma],
    copies: &mut Vec<ShownLemma>,
) -> Result<(), Memory> {
    for lemma in lemmas {
        copies.push(copied_lemma(alloc, lemma)?)?;
    }
    Ok(())
}

/// Copies of lemmas.
pub fn copied_lemmas(alloc: Global, lemmas: &[ShownLemma]) -> Result<Vec<ShownLemma>, Memory> {
    let mut copies = Vec::with_capacity(alloc, lemmas.len())?;
    match add_copies(alloc, lemmas, &mut copies) {
        Ok(()) => Ok(copies),
        Err(refused) => {
            drop(copies);
            Err(refused)
        }
    }
}
