//! The rows that a certificate of no timetable uses.

ghost use Rattle.std.specs.Prelude.{◌≡◌, ℕ, ◌-◌, ◌<◌, List, All, Contains, IsTrue, IfOk, IfSome, true, length};
ghost use Rattle.pesp_problem.specs.Walks.{Names};
ghost use Rattle.pesp_problem.specs.Forests.{KeepsTo};
ghost use Rattle.pesp_truth.specs.Used.{CycleIsListed, LineUsesOnly, UsesOnly};

use crate::lists::{are_named, is_listed, is_whole};
use pesp_cert::Certificate;
use pesp_problem::{Pair, SignedRow, Walk};
use pesp_truth::TreeLine;
use std::alloc::{AllocError, Global};

// ---- what is collected

/// Marks the rows of a walk.
fn mark_walk(marks: &mut [bool], walk: &Walk) {
    for signed in walk.rows() {
        if let Some(mark) = marks.get_mut((signed.row as usize).wrapping_sub(1)) {
            *mark = true;
        }
    }
}

/// Marks the rows of the cycles that pairs name.
fn mark_pairs(marks: &mut [bool], cycles: &[Walk], pairs: &[Pair]) {
    for pair in pairs {
        if let Some(walk) = cycles.get((pair.cycle as usize).wrapping_sub(1)) {
            mark_walk(marks, walk);
        }
    }
}

/// Marks all rows.
fn mark_all(marks: &mut [bool]) {
    for place in 0..marks.len() {
        if let Some(mark) = marks.get_mut(place) {
            *mark = true;
        }
    }
}

/// Marks the rows that a line of a tree uses.
fn mark_line(marks: &mut [bool], cycles: &[Walk], line: &TreeLine) {
    match line {
        TreeLine::Slack { .. } => {}
        TreeLine::Offset { .. } => {}
        TreeLine::Bound(pairs) => mark_pairs(marks, cycles, pairs.as_slice()),
        TreeLine::Nothing(pairs) => mark_pairs(marks, cycles, pairs.as_slice()),
        TreeLine::Gap(cycle) => {
            if let Some(walk) = cycles.get((*cycle as usize).wrapping_sub(1)) {
                mark_walk(marks, walk);
            }
        }
        TreeLine::Propagated => mark_all(marks),
    }
}

/// The numbers of the places that are marked.
fn marked(alloc: Global, marks: &[bool]) -> Result<Vec<u32>, AllocError> {
    let mut rows = Vec::new(alloc);
    let mut number = 0u32;
    for mark in marks {
        number = number.wrapping_add(1);
        if *mark {
            rows.push(number)?;
        }
    }
    Ok(rows)
}

/// The numbers of the rows that the lines of a certificate use, of so many rows.
fn collected(alloc: Global, certificate: &Certificate, rows: u32) -> Result<Vec<u32>, AllocError> {
    let mut marks = vec![in alloc; false; rows as usize]?;
    for line in certificate.tree() {
        mark_line(&mut marks, certificate.cycles(), line);
    }
    marked(alloc, &marks)
}

// ---- what is judged

/// Whether the rows of a walk are listed.
fn walk_is_listed(listed: &[u32], walk: &[SignedRow]) -> bool
    ensures { IsTrue result → KeepsTo listed.now walk.now }
{
    for signed in walk {
        if !is_listed(listed, signed.row) {
            return false;
        }
    }
    true
}

/// Whether the cycle exists and its rows are listed.
fn cycle_is_listed(listed: &[u32], cycles: &[Walk], cycle: u32) -> bool
    ensures { IsTrue result → CycleIsListed cycles.now listed.now cycle }
{
    if cycle < 1 || cycle as usize > cycles.len() {
        return false;
    }
    walk_is_listed(listed, cycles[cycle as usize - 1].rows())
}

/// Whether the rows of the cycles that pairs name are listed.
fn pairs_are_listed(listed: &[u32], cycles: &[Walk], pairs: &[Pair]) -> bool
    ensures { IsTrue result
        → All (λ pair. CycleIsListed cycles.now listed.now pair.cycle) pairs.now }
{
    for pair in pairs {
        if !cycle_is_listed(listed, cycles, pair.cycle) {
            return false;
        }
    }
    true
}

/// Whether the rows that a line uses are listed; `whole` says whether all rows are.
fn line_is_listed(listed: &[u32], whole: bool, cycles: &[Walk], line: &TreeLine) -> bool
    ensures { (rows : ℕ) → (whole ≡ true → (row : ℕ) → Names rows row → Contains listed.now row)
        → IsTrue result → LineUsesOnly rows cycles.now listed.now line.now }
{
    match line {
        TreeLine::Slack { .. } => true,
        TreeLine::Offset { .. } => true,
        TreeLine::Bound(pairs) => pairs_are_listed(listed, cycles, pairs.as_slice()),
        TreeLine::Nothing(pairs) => pairs_are_listed(listed, cycles, pairs.as_slice()),
        TreeLine::Gap(cycle) => cycle_is_listed(listed, cycles, *cycle),
        TreeLine::Propagated => whole,
    }
}

/// Whether the lines of a certificate use listed rows alone, of so many rows.
fn uses_only(listed: &[u32], certificate: &Certificate, rows: u32) -> bool
    ensures { IsTrue result → UsesOnly rows certificate.now listed.now }
{
    let whole = is_whole(listed, rows);
    let cycles = certificate.cycles();
    for line in certificate.tree() {
        if !line_is_listed(listed, whole, cycles, line) {
            return false;
        }
    }
    true
}

/// The rows that a certificate's lines use, by their numbers from 1, of so many rows.
pub fn used_rows(
    alloc: Global,
    certificate: &Certificate,
    rows: u32,
) -> Result<Option<Vec<u32>>, AllocError>
    ensures named { IfOk result (λ found. IfSome found (λ used. All (Names rows) used.items)) }
    ensures used { IfOk result
        (λ found. IfSome found (λ used. UsesOnly rows certificate.now used.items)) }
{
    let used = collected(alloc, certificate, rows)?;
    if are_named(&used, rows as usize) && uses_only(&used, certificate, rows) {
        return Ok(Some(used));
    }
    Ok(None)
}
