//! What regions show, as a certificate with a front: one leaf that names a lemma for each.

use crate::answers::{MOST_BOUND, answer_beside, labelled, some_front};
use crate::best::Best;
use pesp_cert::{Certificate, Front, Fronted, Marks};
use pesp_offset_tree::Sharpened;
use pesp_partition::ToldRegions;
use pesp_problem::Memory;
use pesp_sharp_trees::{Left, crossing_walks, lemmas_of_regions, region_leaf};

/// The front of regions, with the walks that cross them; None where it would pass a limit.
fn region_front(
    left: Left<'_>,
    told: &ToldRegions,
    root: &Sharpened,
) -> Result<Option<Front>, Memory> {
    let Some(walks) = crossing_walks(left, told, &root.walks)? else {
        return Ok(None);
    };
    let Ok(marks) = Marks::new(told.scale, walks) else {
        return Ok(None);
    };
    match lemmas_of_regions(left, told) {
        Ok(Some(lemmas)) => Ok(Front::new(marks, lemmas).ok()),
        Ok(None) => {
            drop(marks);
            Ok(None)
        }
        Err(refused) => {
            drop(marks);
            Err(refused)
        }
    }
}

/// The certificate of regions behind its front: one leaf that names them all.
fn region_certificate(
    left: Left<'_>,
    told: &ToldRegions,
    best: &Option<Best>,
) -> Result<Option<Certificate>, Memory> {
    let alloc = left.alloc;
    let answer = answer_beside(Some(told.bound.min(MOST_BOUND)), best);
    let times = labelled(alloc, left.instance, best)?;
    let leaf = region_leaf(alloc, told)?;
    let mut tree = Vec::new(alloc);
    tree.push(leaf)?;
    let cycles = Vec::new(alloc);
    let period = left.instance.period();
    Ok(Certificate::new(1, period, answer, times, cycles, tree).ok())
}

/// What is told of regions beside the best timetable, as a certificate with a front; None where a part would pass a limit.
pub fn told_fronted(
    left: Left<'_>,
    told: &ToldRegions,
    root: &Sharpened,
    best: &Option<Best>,
) -> Result<Option<Fronted>, Memory> {
    let Some(certificate) = region_certificate(left, told, best)? else {
        return Ok(None);
    };
    match region_front(left, told, root) {
        Ok(Some(front)) => Ok(Some(Fronted {
            front: some_front(front),
            certificate,
        })),
        Ok(None) => {
            drop(certificate);
            Ok(None)
        }
        Err(refused) => {
            drop(certificate);
            Err(refused)
        }
    }
}
