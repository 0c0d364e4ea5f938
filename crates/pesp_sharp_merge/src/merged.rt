//! The certificate that comes of two.

use crate::answers::lesser;
use crate::codes::{codes_of_marks, codes_of_walks};
use crate::common::matched;
use crate::fronts::walks_of;
use crate::lemmas::{common_lemmas, lemmas_of};
use crate::names::Common;
use crate::pairing::{Pairing, ShownCertificate};
use crate::runs::{Run, Trees};
use crate::shape::Shape;
use pesp_cert::{Certificate, Front, Fronted};
use pesp_problem::Memory;
use std::alloc::Global;

/// What comes of two certificates: one that shows more than the first, nothing new, or nothing since a part would pass a limit.
#[derive(Drop)]
pub enum Merged {
    Better(Fronted),
    NothingNew,
    TooLarge,
}

/// The places of the other certificate's cycles among the first one's.
pub(crate) fn common_cycles(
    alloc: Global,
    own: &Certificate,
    other: &Certificate,
) -> Result<Vec<Option<u32>>, Memory> {
    let ours = codes_of_walks(alloc, own.cycles())?;
    let theirs = codes_of_walks(alloc, other.cycles())?;
    matched(alloc, &ours, &theirs)
}

/// The places of the other certificate's marked walks among the first one's.
pub(crate) fn common_walks(
    alloc: Global,
    own: &Option<Front>,
    other: &Option<Front>,
) -> Result<Vec<Option<u32>>, Memory> {
    let ours = codes_of_marks(alloc, walks_of(own))?;
    let theirs = codes_of_marks(alloc, walks_of(other))?;
    matched(alloc, &ours, &theirs)
}

/// What comes of both, once their trees were walked through, where they share these marked walks and lemmas.
fn paired(alloc: Global, pairing: Pairing<'_>) -> Result<Merged, Memory> {
    if pairing.is_nothing_new() {
        return Ok(Merged::NothingNew);
    }
    match pairing.fronted(alloc)? {
        Some(fronted) => Ok(Merged::Better(fronted)),
        None => Ok(Merged::TooLarge),
    }
}

/// What comes of both, once their trees were walked through.
fn joined(
    alloc: Global,
    own: ShownCertificate<'_>,
    other: ShownCertificate<'_>,
    trees: Trees<'_>,
    runs: &[Run],
) -> Result<Merged, Memory> {
    let walks = common_walks(alloc, own.front(), other.front())?;
    let lemmas = common_lemmas(alloc, lemmas_of(own.front()), lemmas_of(other.front()))?;
    let common = Common {
        cycles: trees.cycles,
        walks: &walks,
        lemmas: &lemmas,
    };
    paired(
        alloc,
        Pairing {
            own,
            other,
            trees,
            runs,
            common,
        },
    )
}

/// What comes of both, where the trees have these shapes and the certificates share these cycles.
fn walked(
    alloc: Global,
    own: ShownCertificate<'_>,
    other: ShownCertificate<'_>,
    shapes: (&Shape, &Shape),
    cycles: &[Option<u32>],
) -> Result<Merged, Memory> {
    let trees = Trees {
        own: own.certificate().tree(),
        own_shape: shapes.0,
        other: other.certificate().tree(),
        other_shape: shapes.1,
        cycles,
        cost: lesser(own.cost(), other.cost()).unwrap_or(u64::MAX),
    };
    let runs = trees.runs(alloc)?;
    joined(alloc, own, other, trees, &runs)
}

/// What comes of both, where our tree has this shape.
fn shaped(
    alloc: Global,
    own: ShownCertificate<'_>,
    other: ShownCertificate<'_>,
    shape: &Shape,
) -> Result<Merged, Memory> {
    let cycles = common_cycles(alloc, own.certificate(), other.certificate())?;
    let others_shape = Shape::of(alloc, other.certificate().tree(), other.costs)?;
    let merged = walked(alloc, own, other, (shape, &others_shape), &cycles);
    drop(others_shape);
    merged
}

/// Two certificates of one instance as one. Where both have the same branch both of its parts are walked through; elsewhere the
/// subtree is taken that shows more, or as much where it goes on from an open leaf. Cycles and marked walks are the same where they
/// pass the same rows, and lemmas where they stand at the same place and say the same; those that are new are put behind the others.
/// Leaves keep what they show: where the scales differ, their
/// multipliers are told by a multiple of both. The times are the cheaper ones.
pub fn merge(
    alloc: Global,
    own: ShownCertificate<'_>,
    other: ShownCertificate<'_>,
) -> Result<Merged, Memory> {
    let shape = Shape::of(alloc, own.certificate().tree(), own.costs)?;
    let merged = shaped(alloc, own, other, &shape);
    drop(shape);
    merged
}
