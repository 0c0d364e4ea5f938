//! All open leaves are lent.

ghost use Rattle.std.specs.Prelude.{◌≡◌, ◌<◌, ◌≤◌, ◌+◌, ◌++◌, ◌↔◌, IsTrue, length, map, All, IfOk, vec_len, vec_capacity};
ghost use Rattle.pesp_tree.specs.WorkTrees.{path_to};
ghost use Rattle.pesp_tree.specs.Adopting.{AreNumbered};
ghost use Rattle.pesp_board.specs.declared.slot.Slot.TheVariants.{Lent as LentSlot};
ghost use Rattle.pesp_board.specs.LendingAll.{WaitsCheaper, AreWaitingOf, AreOpenNodes, LendsNodes, ParksOpen};

use crate::best::Best;
use crate::lend::is_cheaper;
use crate::slot::Slot;
use pesp_problem::{MOST_LINES, Memory};
use pesp_tree::{Job, LendRefusal, Queue, WorkTree};
use std::alloc::Global;

/// Whether a node waits with a value below the best cost.
fn is_open(queue: &Queue, best: &Option<Best>, node: u32) -> bool
    ensures { IsTrue result ↔ WaitsCheaper queue.now best.now node }
{
    match queue.waiting_value(node) {
        None => false,
        Some(value) => is_cheaper(value, best),
    }
}

/// Those of the nodes that wait with a value below the best cost, in their order.
fn pick_open(
    alloc: Global,
    queue: &Queue,
    best: &Option<Best>,
    nodes: &[u32],
) -> Result<Vec<u32>, Memory>
    ensures { IfOk result (λ opens. AreWaitingOf queue.now best.now nodes.now opens.items) }
{
    let mut opens = Vec::new(alloc);
    for node in nodes {
        if is_open(queue, best, *node) {
            opens.push(*node)?;
        }
    }
    Ok(opens)
}

/// The nodes of the open leaves, in the order of the tree's lines.
pub(crate) fn open_nodes(
    alloc: Global,
    tree: &WorkTree,
    queue: &Queue,
    best: &Option<Best>,
) -> Result<Vec<u32>, Memory>
    ensures opens { IfOk result (λ nodes. AreOpenNodes tree.now queue.now best.now nodes.items) }
    ensures within { IfOk result
        (λ nodes. All (λ node. node < length tree.now.leaves) nodes.items) }
{
    let leaves = tree.leaf_nodes(alloc)?;
    pick_open(alloc, queue, best, &leaves)
}

/// The jobs of nodes, numbered from `first` on.
fn jobs_of(alloc: Global, tree: &WorkTree, nodes: &[u32], first: u64) -> Result<Vec<Job>, Memory>
    requires nodes { All (λ node. node < length tree.now.leaves) nodes.now }
    requires few { first + length nodes.now ≤ MOST_LINES }
    ensures { IfOk result
        (λ jobs. AreNumbered first jobs.items (map (path_to tree.now) nodes.now)) }
{
    let mut jobs = Vec::new(alloc);
    let mut number = first;
    for node in nodes {
        let path = tree.path(alloc, *node)?;
        jobs.push(Job { number, path })?;
        number += 1;
    }
    Ok(jobs)
}

/// Notes that the next numbers are lent with these nodes, where there is memory for it.
fn note_lent(slots: &mut Vec<Slot>, nodes: &[u32])
    requires { vec_len slots.old + length nodes.now ≤ vec_capacity slots.old }
    ensures { slots.new.items ≡ slots.old.items ++ map LentSlot nodes.now }
{
    for node in nodes {
        if slots.push(Slot::Lent(*node)).is_err() {
            unreachable!();
        }
    }
}

/// The jobs of nodes under the next numbers, which are lent with them then. Where it is refused nothing has changed.
pub(crate) fn lend_nodes(
    alloc: Global,
    tree: &WorkTree,
    nodes: &[u32],
    slots: &mut Vec<Slot>,
) -> Result<Vec<Job>, LendRefusal>
    requires { All (λ node. node < length tree.now.leaves) nodes.now }
    ensures { LendsNodes tree.now slots.old.items nodes.now result slots.new.items }
{
    if slots.len() + nodes.len() > MOST_LINES {
        return Err(LendRefusal::NumbersSpent);
    }
    let jobs = jobs_of(alloc, tree, nodes, slots.len() as u64)?;
    slots.reserve(nodes.len())?;
    note_lent(slots, nodes);
    Ok(jobs)
}

/// Parks each node that waits with a value below the best cost. Takes no memory.
pub(crate) fn park_open(queue: &mut Queue, best: &Option<Best>)
    ensures { ParksOpen queue.old queue.new best.now }
{
    while let Some(first) = queue.first() {
        if !is_cheaper(first.value, best) {
            return;
        }
        queue.park();
    }
}
