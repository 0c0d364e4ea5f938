//! What is given for a lent leaf, judged with the size of the tree before anything changes.

ghost use Rattle.std.specs.Prelude.{◌≡◌, ◌+◌, ◌<◌, ◌≤◌, length, sum_by, MatchOption};
ghost use Rattle.pesp_truth.specs.Trees.{EndLine};
ghost use Rattle.pesp_tree.specs.Leaves.{leaf_of};
ghost use Rattle.pesp_tree.specs.Limits.{pairs_in};
ghost use Rattle.pesp_board.specs.Parts.{part_line, part_lines};
ghost use Rattle.pesp_board.specs.Giving.{LendsOrRefuses, HasRoom, IsWorkable, MakesAt};

use crate::lend::bound_pairs;
use crate::made_parts::make;
use crate::part::{Part, parts_of};
use crate::slot::Slot;
use pesp_nodes::Problem;
use pesp_problem::{MOST_LINES, MOST_PAIRS};
use pesp_tree::{GiveRefusal, Leaf, Work, WorkTree};
use std::alloc::Global;

/// The node with whose leaf the number is lent; refused where it isn't lent.
pub(crate) fn lent_with(slots: &[Slot], number: u64) -> Result<u32, GiveRefusal>
    ensures { LendsOrRefuses slots.now number result }
{
    let place = number as usize;
    if place >= slots.len() {
        return Err(GiveRefusal::UnknownJob);
    }
    match slots[place] {
        Slot::Lent(node) => Ok(node),
        Slot::Given => Err(GiveRefusal::AlreadyGiven),
        Slot::Recalled => Err(GiveRefusal::UnknownJob),
    }
}

/// How many pairs a leaf has.
fn count_of(leaf: &Leaf) -> u64
    ensures { result ≡ pairs_in (EndLine (leaf_of leaf.now)) }
{
    match leaf {
        Leaf::Bound(pairs) => pairs.as_slice().len() as u64,
        Leaf::Nothing(pairs) => pairs.as_slice().len() as u64,
        Leaf::Gap(_) => 0,
        Leaf::Propagated => 0,
    }
}

/// How many pairs a part has.
fn count_in(part: &Part) -> u64
    ensures { result ≡ pairs_in (part_line part.now) }
{
    match part {
        Part::Cut(_) => 0,
        Part::Leaf(part) => count_of(&part.leaf),
    }
}

/// The count with those of a part; None where that passes the limit.
fn add_pairs(count: u64, part: &Part) -> Option<u64>
    requires { count ≤ MOST_PAIRS }
    ensures { MatchOption result (MOST_PAIRS < count + pairs_in (part_line part.now))
        (λ n. (n ≡ count + pairs_in (part_line part.now)) × (n ≤ MOST_PAIRS)) }
{
    let own = count_in(part);
    if own > MOST_PAIRS as u64 - count {
        return None;
    }
    Some(count + own)
}

/// How many pairs a tree has with these parts, where it has so many lines, and so many pairs beside those of the leaf that
/// goes; None where lines or pairs would pass their limits.
pub(crate) fn size_with(lines: u32, rest: u64, parts: &[Part]) -> Option<u64>
    requires lines { lines ≤ MOST_LINES }
    requires rest { rest ≤ MOST_PAIRS }
    ensures { MatchOption result (HasRoom lines rest (part_lines parts.now) → ⊥)
        (λ n. HasRoom lines rest (part_lines parts.now)
        × (n ≡ rest + sum_by pairs_in (part_lines parts.now))) }
{
    if parts.len() > MOST_LINES + 1 - lines as usize {
        return None;
    }
    let mut count = rest;
    for part in parts {
        count = add_pairs(count, part)?;
    }
    Some(count)
}

/// What a work makes of a node's bound leaf, and how many pairs the tree has with it. Nothing changes yet.
pub(crate) fn make_at(
    alloc: Global,
    problem: &Problem,
    tree: &WorkTree,
    count: u64,
    node: u32,
    work: &Work,
) -> Result<(Vec<Part>, u64), GiveRefusal>
    requires { IsWorkable problem.now tree.now node count }
    ensures { MakesAt problem.now tree.now node work.now result }
{
    let lines = tree.nodes();
    let Some(old) = bound_pairs(tree, node) else {
        return Err(GiveRefusal::NotValid);
    };
    let path = tree.path(alloc, node)?;
    let made = make(alloc, problem, &path, old, work)?;
    let parts = parts_of(alloc, made)?;
    let rest = count - old.len() as u64;
    match size_with(lines, rest, &parts) {
        Some(count) => Ok((parts, count)),
        None => Err(GiveRefusal::TooLarge),
    }
}
