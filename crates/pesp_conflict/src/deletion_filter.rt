//! Rows are left out, in groups and then one by one.

ghost use Rattle.std.specs.Prelude.{◌≤◌, OnOk, IfErr};
ghost use Rattle.pesp_problem.specs.declared.limits.TheConstants.{MOST_STEPS};
ghost use Rattle.pesp_conflict.specs.Refusals.{IsConflictRefusal};
ghost use Rattle.pesp_conflict.specs.Insides.{ConflictIsKnown};

use crate::attempts::try_without;
use crate::known::{Known, mark, take};
use crate::settings::{FIRST_GROUPS, HALVINGS};
use pesp_forest::TimesFinder;
use pesp_problem::Instance;
use pesp_search::SolveRefusal;
use std::alloc::{AllocError, Global};
use std::cmp::Reverse;

/// By how much the duration of a row may vary.
fn span_of(instance: &Instance, row: u32) -> i64 {
    match instance.rows().get((row as usize).wrapping_sub(1)) {
        Some(row) => row.upper.checked_sub(row.lower).unwrap_or(0),
        None => 0,
    }
}

/// The listed rows that need a trial, with their spans.
fn untried(
    alloc: Global,
    instance: &Instance,
    known: &Known,
) -> Result<Vec<(i64, u32)>, AllocError> {
    let mut rows = Vec::new(alloc);
    for row in &known.listed {
        if !known.tried.contains(row) && !known.needed.contains(row) {
            rows.push((span_of(instance, *row), *row))?;
        }
    }
    Ok(rows)
}

/// So many rows that need a trial, or fewer where there aren't so many: those of the greatest span.
fn next_group(
    alloc: Global,
    instance: &Instance,
    known: &Known,
    size: usize,
) -> Result<Vec<u32>, AllocError> {
    let mut rows = untried(alloc, instance, known)?;
    rows.sort_unstable_by_key(|row| (Reverse(row.0), row.1));
    rows.truncate(size);
    rows.iter().map(|row| row.1).collect(alloc)
}

/// How many rows may still be searched, where a trial of these is made.
fn left_after(known: &Known) -> Option<usize> {
    known.left.checked_sub(known.listed.len())
}

/// One trial; `false` where none is left to make.
fn try_next<F: TimesFinder>(
    alloc: Global,
    instance: &Instance,
    known: &mut Known,
    size: usize,
    steps: u32,
    finder: &mut F,
) -> Result<bool, SolveRefusal>
    requires steps { steps ≤ MOST_STEPS }
    requires known { ConflictIsKnown instance.now known.old }
    ensures known { OnOk result (ConflictIsKnown instance.now known.new) }
    ensures refused { IfErr result (IsConflictRefusal instance.now steps) }
{
    let group = next_group(alloc, instance, known, size)?;
    let Some(left) = left_after(known) else {
        return Ok(false);
    };
    if group.is_empty() {
        return Ok(false);
    }
    known.left = left;
    let trial = try_without(alloc, instance, &known.listed, &group, steps, finder)?;
    take(known, trial)?;
    mark(known, &group)?;
    Ok(true)
}

/// Trials of groups of one size.
fn sift<F: TimesFinder>(
    alloc: Global,
    instance: &Instance,
    known: &mut Known,
    size: usize,
    steps: u32,
    finder: &mut F,
) -> Result<(), SolveRefusal>
    requires steps { steps ≤ MOST_STEPS }
    requires known { ConflictIsKnown instance.now known.old }
    ensures known { OnOk result (ConflictIsKnown instance.now known.new) }
    ensures refused { IfErr result (IsConflictRefusal instance.now steps) }
{
    for _ in 0..known.listed.len() {
        if !try_next(alloc, instance, known, size, steps, finder)? {
            return Ok(());
        }
    }
    Ok(())
}

/// Trials of groups, each time of half the size, down to single rows.
pub fn sift_all<F: TimesFinder>(
    alloc: Global,
    instance: &Instance,
    known: &mut Known,
    steps: u32,
    finder: &mut F,
) -> Result<(), SolveRefusal>
    requires steps { steps ≤ MOST_STEPS }
    requires known { ConflictIsKnown instance.now known.old }
    ensures known { OnOk result (ConflictIsKnown instance.now known.new) }
    ensures refused { IfErr result (IsConflictRefusal instance.now steps) }
{
    let mut size = known.listed.len() / FIRST_GROUPS;
    for _ in 0..HALVINGS {
        known.tried.clear();
        sift(alloc, instance, known, size.max(1), steps, finder)?;
        if size <= 1 {
            return Ok(());
        }
        size /= 2;
    }
    Ok(())
}
