//! The parts of a tree at the ends of paths. What is cut out is judged by its caller.

ghost use Rattle.std.specs.Prelude.{◌≡◌, ◌∷◌, []};
ghost use Rattle.pesp_truth.specs.Trees.{line_of};
ghost use Rattle.pesp_branching.specs.Rooms.{branch_lines};

use crate::copies::copy_lines;
use pesp_problem::{Cut, Memory, Side};
use pesp_truth::TreeLine;
use std::alloc::Global;

/// How many branches a line has: 1 for a branch, 0 for a leaf.
pub(crate) fn branches_in(line: &TreeLine) -> u32
    ensures { result ≡ branch_lines (line_of line.now ∷ []) }
{
    match line {
        TreeLine::Slack { .. } | TreeLine::Offset { .. } => 1,
        TreeLine::Bound(_) | TreeLine::Nothing(_) | TreeLine::Gap(_) | TreeLine::Propagated => 0,
    }
}

/// How many branches a tree has.
pub(crate) fn count_branches(lines: &[TreeLine]) -> u32 {
    let mut count = 0u32;
    for line in lines {
        count = count.saturating_add(branches_in(line));
    }
    count
}

/// The place behind the tree that begins at a place.
fn end_at(ends: &[usize], place: usize) -> usize {
    ends.get(place).copied().unwrap_or(ends.len())
}

/// For each line of a tree the place behind the tree that begins there.
pub(crate) fn ends_of(alloc: Global, lines: &[TreeLine]) -> Result<Vec<usize>, Memory> {
    let mut ends = vec![in alloc; lines.len(); lines.len()]?;
    for back in 1..=lines.len() {
        let place = lines.len() - back;
        let mut end = place + 1;
        if branches_in(&lines[place]) > 0 {
            end = end_at(&ends, end_at(&ends, end));
        }
        if let Some(slot) = ends.get_mut(place) {
            *slot = end;
        }
    }
    Ok(ends)
}

/// The place of the line at the end of a path.
fn place_of(ends: &[usize], path: &[(Cut, Side)]) -> usize {
    let mut place = 0usize;
    for step in path {
        let low = place.saturating_add(1);
        place = match step.1 {
            Side::Low => low,
            Side::High => end_at(ends, low),
        };
    }
    place
}

/// The lines of the tree at the end of a path, where `ends` are those of all lines.
pub(crate) fn cut_out(
    alloc: Global,
    lines: &[TreeLine],
    ends: &[usize],
    path: &[(Cut, Side)],
) -> Result<Vec<TreeLine>, Memory> {
    let start = place_of(ends, path);
    match lines.get(start..end_at(ends, start)) {
        Some(part) => copy_lines(alloc, part),
        None => Ok(Vec::new(alloc)),
    }
}
