//! The lemmas of the certificate that comes of two.

use crate::lines::Retelling;
use crate::names::Numbering;
use pesp_cert::{Front, ShownLemma};
use pesp_problem::{MarkedWalk, Memory, Walk};
use pesp_truth::TreeLine;
use std::alloc::Global;

/// The lemmas of a front.
pub(crate) fn lemmas_of(front: &Option<Front>) -> &[ShownLemma] {
    match front {
        Some(front) => front.lemmas(),
        None => &[],
    }
}

/// Whether two lemmas say the same.
fn say_the_same(own: &ShownLemma, other: &ShownLemma) -> bool {
    own.least == other.least && own.weights.as_slice() == other.weights.as_slice()
}

/// For each of the other lemmas its place, where ours at that place says the same.
pub(crate) fn common_lemmas(
    alloc: Global,
    own: &[ShownLemma],
    other: &[ShownLemma],
) -> Result<Vec<Option<u32>>, Memory> {
    let mut places = Vec::with_capacity(alloc, other.len())?;
    for (place, lemma) in other.iter().enumerate() {
        let number = u32::try_from(place).unwrap_or(u32::MAX);
        let is_ours = own.get(place).is_some_and(|ours| say_the_same(ours, lemma));
        places.push(is_ours.then_some(number))?;
    }
    Ok(places)
}

/// A copy of marked walks.
fn copied_marks(alloc: Global, walks: &[MarkedWalk]) -> Result<Vec<MarkedWalk>, Memory> {
    let mut copies = Vec::with_capacity(alloc, walks.len())?;
    for walk in walks {
        copies.push(MarkedWalk::new(Vec::from_slice(alloc, walk.rows())?))?;
    }
    Ok(copies)
}

/// A copy of cycles.
pub(crate) fn copied_cycles(alloc: Global, cycles: &[Walk]) -> Result<Vec<Walk>, Memory> {
    let mut copies = Vec::with_capacity(alloc, cycles.len())?;
    for walk in cycles {
        copies.push(Walk::new(Vec::from_slice(alloc, walk.rows())?))?;
    }
    Ok(copies)
}

/// How the tree of a lemma is told again, where the lemmas before it have these numbers, from 1: its own cycles and marked
/// walks keep theirs.
fn retelling_of<'a>(lemma: &ShownLemma, numbers: &'a [u32]) -> Retelling<'a> {
    let cycles = lemma.cycles.len();
    let first = u32::try_from(cycles.saturating_add(lemma.walks.len())).unwrap_or(u32::MAX);
    Retelling {
        cycles,
        first,
        behind: first,
        numbers,
        factor: 1,
    }
}

/// The tree of a lemma; None where a line can't be told.
fn told_tree(
    alloc: Global,
    lemma: &ShownLemma,
    numbers: &[u32],
) -> Result<Option<Vec<TreeLine>>, Memory> {
    let retelling = retelling_of(lemma, numbers);
    let mut tree = Vec::with_capacity(alloc, lemma.tree.len())?;
    for line in &lemma.tree {
        match retelling.line(alloc, line)? {
            Some(line) => tree.push(line)?,
            None => return Ok(None),
        }
    }
    Ok(Some(tree))
}

/// A lemma, where the lemmas before it have these numbers, from 1; None where a line of its tree can't be told.
fn told(alloc: Global, lemma: &ShownLemma, numbers: &[u32]) -> Result<Option<ShownLemma>, Memory> {
    let Some(tree) = told_tree(alloc, lemma, numbers)? else {
        return Ok(None);
    };
    let weights = Vec::from_slice(alloc, &lemma.weights)?;
    let walks = copied_marks(alloc, &lemma.walks)?;
    let cycles = copied_cycles(alloc, &lemma.cycles)?;
    Ok(Some(ShownLemma {
        weights,
        least: lemma.least,
        scale: lemma.scale,
        walks,
        cycles,
        tree,
    }))
}

/// Adds the lemmas at some places, of those that have these numbers, from 1; false where one can't be told.
fn add_lemmas(
    alloc: Global,
    lemmas: &mut Vec<ShownLemma>,
    from: &[ShownLemma],
    places: &[u32],
    numbers: &[u32],
) -> Result<bool, Memory> {
    for place in places {
        let Some(lemma) = from.get(*place as usize) else {
            return Ok(false);
        };
        match told(alloc, lemma, numbers)? {
            Some(lemma) => lemmas.push(lemma)?,
            None => return Ok(false),
        }
    }
    Ok(true)
}

/// Our lemmas, and behind them those of the other certificate that are new; None where one can't be told.
pub(crate) fn joined_lemmas(
    alloc: Global,
    own: &[ShownLemma],
    other: &[ShownLemma],
    numbering: &Numbering,
) -> Result<Option<Vec<ShownLemma>>, Memory> {
    let mut lemmas = Vec::with_capacity(alloc, own.len())?;
    let kept = &numbering.kept_lemmas;
    if !add_lemmas(alloc, &mut lemmas, own, kept, &numbering.own_lemmas)? {
        return Ok(None);
    }
    let new = &numbering.new_lemmas;
    if !add_lemmas(alloc, &mut lemmas, other, new, &numbering.other_lemmas)? {
        return Ok(None);
    }
    Ok(Some(lemmas))
}
