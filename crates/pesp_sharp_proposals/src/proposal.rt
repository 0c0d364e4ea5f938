//! The certificates that a search proposes. They are judged by others.

use crate::bounding::Bounding;
use crate::search::SharpSearch;
use pesp_cert::Fronted;
use pesp_problem::Memory;
use pesp_search::Proposals;
use pesp_sharp_certificates::{Best, TreeParts, timed_of, told_fronted};
use pesp_sharp_trees::Left;

/// What regions show beside the best timetable, as a certificate with a front; None where a part would pass a limit.
fn region_fronted(
    left: Left<'_>,
    bounding: &Bounding,
    best: &Option<Best>,
) -> Result<Option<Fronted>, Memory> {
    let told = bounding.regions.told()?;
    let fronted = told_fronted(left, &told, &bounding.root, best);
    drop(told);
    fronted
}

/// What the tree shows beside the best timetable, as a certificate with a front; None where a part would pass a limit.
fn tree_fronted(
    left: Left<'_>,
    search: &SharpSearch,
    base: &Fronted,
) -> Result<Option<Fronted>, Memory> {
    let sharpened = search.sharpening.sharpened()?;
    let parts = TreeParts {
        left,
        sharpened: &sharpened,
        scale: search.sharpening.scale(),
        best: &search.best,
        base: search.has_taken_up.then_some(base),
    };
    let sharp = parts.fronted(left.alloc);
    drop(sharpened);
    sharp
}

/// What the tree shows, as a certificate; what regions show, where they show more.
fn sharp_of(
    left: Left<'_>,
    search: &SharpSearch,
    base: &Fronted,
) -> Result<Option<Fronted>, Memory> {
    match &search.bounding {
        Some(bounding) if bounding.bound > search.sharpening.bound() => {
            region_fronted(left, bounding, &search.best)
        }
        _ if search.is_shared => Ok(None),
        _ => tree_fronted(left, search, base),
    }
}

/// What a search proposes that began with a certificate, in the place of an answer.
pub(crate) fn proposals_of(
    left: Left<'_>,
    search: &SharpSearch,
    base: &Fronted,
    old: &Fronted,
) -> Result<Proposals, Memory> {
    let sharp = sharp_of(left, search, base)?;
    match timed_of(left.alloc, left.instance, old, &search.best) {
        Ok(timed) => Ok(Proposals { sharp, timed }),
        Err(refused) => {
            drop(sharp);
            Err(refused)
        }
    }
}
