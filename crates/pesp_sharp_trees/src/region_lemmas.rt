//! Regions as lemmas of a certificate.

use crate::left::Left;
use crate::lifted::{lifted_of, offset_shifts};
use crate::lines::{CertificateNumbers, lines_of, some_wants_scale};
use crate::marked::{marked_of, scale_walk};
use pesp_cert::ShownLemma;
use pesp_inequalities::Pass;
use pesp_network::NetRow;
use pesp_partition::{ToldRegion, ToldRegions};
use pesp_problem::{MarkedWalk, Memory, Pair, Pairs, Walk};
use pesp_truth::TreeLine;
use std::alloc::{AllocError, Global};

/// A pass of a region's row as one of what is left: a row that is turned is passed the other way, and at its other end.
fn pass_of(region: &ToldRegion, pass: Pass) -> Option<Pass> {
    let row = region.rows.get(pass.row as usize).copied()?;
    let is_turned = region.turned.get(pass.row as usize).copied()?;
    Some(Pass {
        row,
        forwards: pass.forwards != is_turned,
        flipped: pass.flipped != is_turned,
    })
}

/// The passes of a region's walk as those of what is left.
fn passes_of(alloc: Global, region: &ToldRegion, passes: &[Pass]) -> Result<Vec<Pass>, AllocError> {
    let mut own = Vec::with_capacity(alloc, passes.len())?;
    for pass in passes {
        if let Some(pass) = pass_of(region, *pass) {
            own.push(pass)?;
        }
    }
    Ok(own)
}

/// The walks of a region as walks of what is left.
fn lists_of(
    alloc: Global,
    region: &ToldRegion,
    lists: &[Vec<Pass>],
) -> Result<Vec<Vec<Pass>>, AllocError> {
    let mut own = Vec::with_capacity(alloc, lists.len())?;
    for passes in lists {
        own.push(passes_of(alloc, region, passes)?)?;
    }
    Ok(own)
}

/// A weight of a row, below 0 where the row is turned.
fn weight_of(weight: u64, is_turned: bool) -> i64 {
    let amount = i64::try_from(weight).unwrap_or(i64::MAX);
    if is_turned {
        amount.wrapping_neg()
    } else {
        amount
    }
}

/// The weight of the row at a place of a region; None where it has none.
fn weight_at(region: &ToldRegion, place: usize) -> Option<i64> {
    let weight = region.weights.get(place).copied()?;
    let is_turned = region.turned.get(place).copied()?;
    (weight > 0).then_some(weight_of(weight, is_turned))
}

/// The instance's rows of a region with their weights, in rising order.
fn weights_of(
    alloc: Global,
    rows: &[NetRow],
    region: &ToldRegion,
) -> Result<Vec<Pair>, AllocError> {
    let mut weights = Vec::new(alloc);
    for (place, number) in region.rows.iter().enumerate() {
        if let Some(row) = rows.get(*number as usize)
            && let Some(weight) = weight_at(region, place)
        {
            weights.push(Pair {
                cycle: row.origin,
                mult: weight,
            })?;
        }
    }
    weights.sort_unstable_by_key(|pair| pair.cycle);
    Ok(weights)
}

/// The lines of a region's tree, behind its cycles.
fn tree_of(
    left: Left<'_>,
    region: &ToldRegion,
    lists: &[Vec<Pass>],
    cycles: &[Walk],
) -> Result<Vec<TreeLine>, Memory> {
    let shifts = offset_shifts(left, lists, cycles)?;
    let numbers = CertificateNumbers {
        cycles: u32::try_from(cycles.len()).unwrap_or(u32::MAX),
        walks: u32::try_from(region.tree.walks.len()).unwrap_or(u32::MAX),
        shifts: &shifts,
    };
    lines_of(left.alloc, numbers, &region.tree.lines, &None)
}

/// The marked walks of a region's tree; None where they would pass a limit.
fn walks_of(left: Left<'_>, region: &ToldRegion) -> Result<Option<Vec<MarkedWalk>>, Memory> {
    let lists = lists_of(left.alloc, region, &region.tree.walks)?;
    let walks = marked_of(left.alloc, left.reduced, &lists);
    drop(lists);
    let Some(mut walks) = walks? else {
        return Ok(None);
    };
    if some_wants_scale(&region.tree.lines) {
        walks.push(scale_walk(left.alloc)?)?;
    }
    Ok(Some(walks))
}

/// What the sum of a region's weights times slacks is at least.
fn least_of(region: &ToldRegion) -> i64 {
    let least = i64::try_from(region.least).unwrap_or(0);
    least.saturating_add(region.constant)
}

/// The cycles of a region that these lists of passes name, and its tree behind them; None where they would pass a limit.
fn shown_by(
    left: Left<'_>,
    region: &ToldRegion,
    lists: &[Vec<Pass>],
) -> Result<Option<(Vec<Walk>, Vec<TreeLine>)>, Memory> {
    let Some(cycles) = lifted_of(left.alloc, left.reduced, lists)? else {
        return Ok(None);
    };
    match tree_of(left, region, lists, &cycles) {
        Ok(tree) => Ok(Some((cycles, tree))),
        Err(refused) => {
            drop(cycles);
            Err(refused)
        }
    }
}

/// The cycles of a region, and its tree behind them; None where they would pass a limit.
fn shown_of(
    left: Left<'_>,
    region: &ToldRegion,
) -> Result<Option<(Vec<Walk>, Vec<TreeLine>)>, Memory> {
    let lists = lists_of(left.alloc, region, &region.tree.cycles)?;
    let shown = shown_by(left, region, &lists);
    drop(lists);
    shown
}

/// The lemma of a region; None where a part would pass a limit.
fn lemma_of(left: Left<'_>, region: &ToldRegion) -> Result<Option<ShownLemma>, Memory> {
    let weights = weights_of(left.alloc, left.network.rows(), region)?;
    let Some(walks) = walks_of(left, region)? else {
        return Ok(None);
    };
    match shown_of(left, region) {
        Ok(Some((cycles, tree))) => Ok(Some(ShownLemma {
            weights,
            least: least_of(region),
            scale: region.scale,
            walks,
            cycles,
            tree,
        })),
        Ok(None) => {
            drop(walks);
            Ok(None)
        }
        Err(refused) => {
            drop(walks);
            Err(refused)
        }
    }
}

/// Puts the lemmas of regions into a list; whether none has a part that would pass a limit.
fn add_lemmas(
    left: Left<'_>,
    told: &ToldRegions,
    lemmas: &mut Vec<ShownLemma>,
) -> Result<bool, Memory> {
    for region in &told.regions {
        let Some(lemma) = lemma_of(left, region)? else {
            return Ok(false);
        };
        lemmas.push(lemma)?;
    }
    Ok(true)
}

/// The lemmas of regions; None where a part would pass a limit.
pub fn lemmas_of_regions(
    left: Left<'_>,
    told: &ToldRegions,
) -> Result<Option<Vec<ShownLemma>>, Memory> {
    let mut lemmas = Vec::with_capacity(left.alloc, told.regions.len())?;
    match add_lemmas(left, told, &mut lemmas) {
        Ok(true) => Ok(Some(lemmas)),
        Ok(false) => {
            drop(lemmas);
            Ok(None)
        }
        Err(refused) => {
            drop(lemmas);
            Err(refused)
        }
    }
}

/// The passes of a walk; none where there is no such walk.
fn passes_at(alloc: Global, walks: &[Vec<Pass>], walk: u32) -> Result<Vec<Pass>, AllocError> {
    match walks.get(walk as usize) {
        Some(passes) => Vec::from_slice(alloc, passes),
        None => Ok(Vec::new(alloc)),
    }
}

/// The passes of walks that cross regions.
fn crossing_lists(
    alloc: Global,
    told: &ToldRegions,
    walks: &[Vec<Pass>],
) -> Result<Vec<Vec<Pass>>, AllocError> {
    let mut lists = Vec::with_capacity(alloc, told.crossing.len())?;
    for crossing in &told.crossing {
        lists.push(passes_at(alloc, walks, crossing.walk)?)?;
    }
    Ok(lists)
}

/// The marked walks that cross regions, of those of a root; None where they would pass a limit.
pub fn crossing_walks(
    left: Left<'_>,
    told: &ToldRegions,
    walks: &[Vec<Pass>],
) -> Result<Option<Vec<MarkedWalk>>, Memory> {
    let lists = crossing_lists(left.alloc, told, walks)?;
    marked_of(left.alloc, left.reduced, &lists)
}

/// The leaf of a tree without a cycle that names the walks that cross regions, and the lemmas of these.
pub fn region_leaf(alloc: Global, told: &ToldRegions) -> Result<TreeLine, Memory> {
    let mut pairs = Vec::new(alloc);
    let mut number = 0u32;
    for crossing in &told.crossing {
        number = number.saturating_add(1);
        pairs.push(Pair {
            cycle: number,
            mult: crossing.multiplier,
        })?;
    }
    for _ in 0..told.regions.len() {
        number = number.saturating_add(1);
        pairs.push(Pair {
            cycle: number,
            mult: i64::from(told.factor),
        })?;
    }
    Ok(TreeLine::Bound(Pairs::new(pairs)))
}
