//! A waiting leaf is lent.

ghost use Rattle.std.specs.Prelude.{◌≡◌, ◌<◌, ◌↔◌, IsTrue, length, option_copied};
ghost use Rattle.pesp_tree.specs.Events.{IsCheaper};
ghost use Rattle.pesp_board.specs.Insides.{best_cost_of};
ghost use Rattle.pesp_board.specs.Lending.{HasJob, HasPairs, LendsEntry};

use crate::best::Best;
use crate::slot::Slot;
use pesp_problem::{MOST_LINES, Pair};
use pesp_tree::{Entry, Job, Leaf, LendRefusal, WorkTree};
use std::alloc::Global;

/// Whether a value is below the best cost, where there is one.
pub(crate) fn is_cheaper(value: u64, best: &Option<Best>) -> bool
    ensures { IsTrue result ↔ IsCheaper value (best_cost_of best.now) }
{
    match best {
        None => true,
        Some(best) => value < best.cost,
    }
}

/// Whether a reply has a job.
pub(crate) fn is_lent(reply: &Result<Option<Job>, LendRefusal>) -> bool
    ensures { IsTrue result ↔ HasJob reply.now }
{
    match reply {
        Ok(Some(_)) => true,
        _ => false,
    }
}

/// The job of a waiting leaf, under the next number; None where its value isn't below the best cost. Where there is no job
/// nothing has changed.
pub(crate) fn lend_entry(
    alloc: Global,
    tree: &WorkTree,
    best: &Option<Best>,
    slots: &mut Vec<Slot>,
    entry: Entry,
) -> Result<Option<Job>, LendRefusal>
    requires { entry.item < length tree.now.leaves }
    ensures { LendsEntry tree.now best.now slots.old.items entry result slots.new.items }
{
    if !is_cheaper(entry.value, best) {
        return Ok(None);
    }
    if slots.len() >= MOST_LINES {
        return Err(LendRefusal::NumbersSpent);
    }
    slots.reserve(1)?;
    let path = tree.path(alloc, entry.item)?;
    let number = slots.len() as u64;
    slots.push(Slot::Lent(entry.item))?;
    Ok(Some(Job { number, path }))
}

/// The pairs of a node's bound leaf; None where the node has no bound leaf.
pub(crate) fn bound_pairs(tree: &WorkTree, node: u32) -> Option<&[Pair]>
    requires { node < length tree.now.leaves }
    ensures { HasPairs tree.now node (option_copied result) }
{
    match tree.leaf(node) {
        Some(Leaf::Bound(pairs)) => Some(pairs.as_slice()),
        _ => None,
    }
}
