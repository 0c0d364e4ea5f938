//! The parts of what is made take the place of a lent leaf.

ghost use Rattle.std.specs.Prelude.{◌≡◌, ◌+◌, ◌<◌, ◌≤◌, [], ◌∷◌, ◌++◌, ℕ, List, length, reverse, true, IsSome, OnOk, OnErr, vec_len, vec_capacity};
ghost use Rattle.std.specs.List.Sorted.{IsPermutation};
ghost use Rattle.pesp_problem.specs.declared.limits.TheConstants.{MOST_LINES};
ghost use Rattle.pesp_truth.specs.Trees.{are_trees};
ghost use Rattle.pesp_tree.specs.WorkTrees.{leaf_at, with_branch, IsWhole};
ghost use Rattle.pesp_tree.specs.Entries.{HasItem};
ghost use Rattle.pesp_tree.specs.Queues.{all_of, QueueKeepsLimits, KeepsRoom};
ghost use Rattle.pesp_board.specs.Parts.{part_lines};
ghost use Rattle.pesp_board.specs.Growing.{waits, blank_leaf, part_value, with_part, next, with_parts, news, HasRoomForPart, AreReady, IsPlanted};
ghost use Rattle.pesp_board.specs.Giving.{IsSameQueue};

use crate::part::{Part, Valued};
use pesp_problem::{Cut, Memory};
use pesp_tree::{Leaf, Queue, WorkTree};
use std::alloc::Global;

/// Lets a node wait with its value, where it has one.
fn wait(queue: &mut Queue, node: u32, value: Option<u64>)
    requires number { node < queue.old.numbers }
    requires room { length (all_of queue.old) < queue.old.room }
    requires fresh { ¬ HasItem (all_of queue.old) node }
    ensures waiting { IsPermutation (waits node value ++ queue.old.waiting) queue.new.waiting }
    ensures parked { IsPermutation queue.old.parked queue.new.parked }
    ensures room { KeepsRoom queue.old queue.new }
{
    if let Some(value) = value {
        queue.insert(node, value);
    }
}

/// Lets a node wait for its part, where there is memory for it.
fn note(waiting: &mut Vec<u32>, node: u32)
    requires { vec_len waiting.old < vec_capacity waiting.old }
    ensures nodes { waiting.new.items ≡ waiting.old.items ++ node ∷ [] }
    ensures memory { vec_capacity waiting.old ≤ vec_capacity waiting.new }
{
    if waiting.push(node).is_err() {
        unreachable!();
    }
}

/// A node becomes a branch, whose two nodes wait for their parts then.
fn plant_cut(tree: &mut WorkTree, waiting: &mut Vec<u32>, node: u32, cut: Cut)
    requires leaf { IsSome (leaf_at tree.old node) }
    requires room { length tree.old.leaves + 2 ≤ tree.old.room }
    requires few { length tree.old.leaves + 2 ≤ MOST_LINES }
    requires memory { vec_len waiting.old + 2 ≤ vec_capacity waiting.old }
    ensures tree { tree.new ≡ with_branch tree.old node cut blank_leaf blank_leaf }
    ensures whole { IsWhole tree.new }
    ensures nodes { waiting.new.items
        ≡ (waiting.old.items ++ (length tree.old.leaves + 1) ∷ []) ++ length tree.old.leaves ∷ [] }
    ensures memory { vec_capacity waiting.old ≤ vec_capacity waiting.new }
{
    let first = tree.nodes();
    tree.split(node, cut, Leaf::Gap(0), Leaf::Gap(0));
    note(waiting, first + 1);
    note(waiting, first);
}

/// A node gets its part. Takes no memory.
fn plant_part(tree: &mut WorkTree, queue: &mut Queue, waiting: &mut Vec<u32>, node: u32, part: Part)
    requires leaf { IsSome (leaf_at tree.old node) }
    requires grows { HasRoomForPart tree.old part }
    requires memory { vec_len waiting.old + 2 ≤ vec_capacity waiting.old }
    requires number { node < queue.old.numbers }
    requires room { length (all_of queue.old) < queue.old.room }
    requires fresh { ¬ HasItem (all_of queue.old) node }
    ensures tree { tree.new ≡ with_part tree.old node part }
    ensures whole { IsWhole tree.new }
    ensures nodes { reverse waiting.new.items
        ≡ next (length tree.old.leaves) part (reverse waiting.old.items) }
    ensures memory { vec_capacity waiting.old ≤ vec_capacity waiting.new }
    ensures waiting { IsPermutation (waits node (part_value part) ++ queue.old.waiting)
        queue.new.waiting }
    ensures parked { IsPermutation queue.old.parked queue.new.parked }
    ensures room { KeepsRoom queue.old queue.new }
{
    match part {
        Part::Cut(cut) => plant_cut(tree, waiting, node, cut),
        Part::Leaf(Valued { leaf, value }) => {
            tree.put_leaf(node, leaf);
            wait(queue, node, value);
        }
    }
}

/// The nodes that wait get the parts, the last of both lists first. Takes no memory.
pub(crate) fn plant(
    tree: &mut WorkTree,
    queue: &mut Queue,
    waiting: &mut Vec<u32>,
    parts: Vec<Part>,
)
    requires ready { AreReady tree.old queue.old (reverse waiting.old.items) (reverse parts.items) }
    requires memory { length parts.items + 1 ≤ vec_capacity waiting.old }
    ensures tree { tree.new ≡ with_parts tree.old (reverse waiting.old.items) (reverse parts.items) }
    ensures whole { IsWhole tree.new }
    ensures waiting { IsPermutation (news tree.old (reverse waiting.old.items) (reverse parts.items)
        ++ queue.old.waiting) queue.new.waiting }
    ensures parked { IsPermutation queue.old.parked queue.new.parked }
{
    let mut left = parts;
    while let Some(part) = left.pop() {
        let Some(node) = waiting.pop() else {
            unreachable!();
        };
        plant_part(tree, queue, waiting, node, part);
    }
}

/// A queue keeps its limits.
fn keeps_limits(queue: &Queue)
    ensures { QueueKeepsLimits queue.now }
{
    queue.first();
}

/// The parts of a whole tree take the place of a lent leaf; where memory is refused nothing has changed.
pub(crate) fn take(
    alloc: Global,
    tree: &mut WorkTree,
    queue: &mut Queue,
    node: u32,
    parts: Vec<Part>,
) -> Result<(), Memory>
    requires leaf { IsSome (leaf_at tree.old node) }
    requires shape { are_trees 1 (part_lines parts.items) ≡ true }
    requires room { length tree.old.leaves + length parts.items ≤ 1000001 }
    requires parked { HasItem queue.old.parked node }
    requires beyond { (item : ℕ) → length tree.old.leaves ≤ item
        → ¬ HasItem (all_of queue.old) item }
    ensures planted { OnOk result
        (IsPlanted tree.old queue.old node parts.items tree.new queue.new) }
    ensures whole { IsWhole tree.new }
    ensures same_tree { OnErr result (tree.new ≡ tree.old) }
    ensures same_queue { OnErr result (IsSameQueue queue.old queue.new) }
{
    let mut turned = parts;
    let lines = turned.len() as u32;
    let nodes = tree.nodes() + lines - 1;
    let mut waiting = Vec::new(alloc);
    waiting.push(node)?;
    waiting.reserve(turned.len())?;
    queue.reserve(nodes, lines)?;
    tree.reserve(lines - 1)?;
    keeps_limits(queue);
    queue.remove(node);
    turned.reverse();
    plant(tree, queue, &mut waiting, turned);
    Ok(())
}
