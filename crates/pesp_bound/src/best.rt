//! The best leaf that is found at a node.

ghost use Rattle.std.specs.Prelude.{◌≡◌, ℕ, ◌⊎◌, ◌-◌, ◌<◌, ◌≤◌, [], List, length, pos, ◌≤ℤ◌, ◌<ℤ◌, true, false, Some, None, unsigned_abs, All, IsTrue, IfOk, IfSome, IsSome, IsSomeAnd, MatchOption};
ghost use Rattle.pesp_problem.specs.Nodes as spec;
ghost use Rattle.pesp_bound.specs.Leaves.{HasNoGap, IsLeafOf, IsNoLess};
ghost use Rattle.pesp_bound.specs.Decided.{IsDecided, IsNothing};
ghost use Rattle.pesp_nodes.specs.Problems.{problem_net, IsNodeOf, ArePairs, Rise};

use crate::leaf::Leaf;
use crate::proposal::{LeafProposal, propose};
use crate::system::closing_pairs;
use pesp_nodes::{Node, Problem, are_pairs, first_gap, leaf_value};
use pesp_problem::{Memory, Pair, Pairs};
use std::alloc::Global;

/// The value of pairs, where they are pairs of the problem and have one.
fn judged(problem: &Problem, node: &Node, pairs: &[Pair], weighted: bool) -> Option<i128>
    requires { IsNodeOf problem.now node.now }
    ensures pairs { IfSome result (λ _. ArePairs (length problem.now.table) pairs.now) }
    ensures value { IfSome result (λ v. spec.leaf_value (problem_net problem.now) problem.now.table
        node.now pairs.now weighted ≡ Some v) }
{
    if !are_pairs(pairs, problem.table().len()) {
        return None;
    }
    leaf_value(problem, node, pairs, weighted)
}

/// Pairs with their value.
#[derive(Drop)]
struct Best {
    pairs: Vec<Pair>,
    value: i128,
}

/// The pairs of the greater value, the ones kept where equal or where the others have none.
fn better(best: Best, pairs: Vec<Pair>, value: Option<i128>) -> Best
    ensures which { ((result.pairs.items ≡ best.pairs.items) × (result.value ≡ best.value))
        ⊎ ((result.pairs.items ≡ pairs.items) × (value ≡ Some result.value)) }
    ensures no_less { best.value ≤ℤ result.value }
    ensures value { IfSome value (λ v. v ≤ℤ result.value) }
{
    match value {
        Some(value) if value > best.value => Best { pairs, value },
        _ => best,
    }
}

/// No pairs, with their value.
fn no_pairs(alloc: Global, problem: &Problem, node: &Node) -> Best
    requires { IsNodeOf problem.now node.now }
    ensures pairs { result.pairs.items ≡ [] }
    ensures value { spec.leaf_value (problem_net problem.now) problem.now.table node.now [] true
        ≡ Some result.value }
{
    match leaf_value(problem, node, &[], true) {
        Some(value) => Best {
            pairs: Vec::new(alloc),
            value,
        },
        None => unreachable!(),
    }
}

/// Whether each cycle begins with a row that no other cycle passes.
fn begin_apart(problem: &Problem) -> bool {
    let by_row = problem.passages();
    problem.table().iter().all(|walk| {
        walk.rows()
            .first()
            .and_then(|s| by_row.get((s.row as usize).saturating_sub(1)))
            .is_some_and(|passages| passages.as_slice().len() == 1)
    })
}

/// Pairs of value above 0 without weights along a closed way; at a decided node there are some.
fn closing_proof(
    alloc: Global,
    problem: &Problem,
    node: &Node,
    levels: &[usize],
) -> Result<Option<Vec<Pair>>, Memory>
    requires { IsNodeOf problem.now node.now }
    ensures pairs { IfOk result (λ o. IfSome o (λ v. ArePairs (length problem.now.table) v.items)) }
    ensures value { IfOk result (λ o. IfSome o
        (λ v. IsSomeAnd (spec.leaf_value (problem_net problem.now) problem.now.table node.now v.items
        false) (λ z. pos 0 <ℤ z))) }
    ensures decided { IfOk result (λ o. IsDecided problem.now node.now → IsSome o) }
{
    let Some(pairs) = closing_pairs(alloc, problem, node, levels)? else {
        return Ok(None);
    };
    match leaf_value(problem, node, &pairs, false) {
        Some(value) if value > 0 => Ok(Some(pairs)),
        _ => Ok(None),
    }
}

/// Pairs of value above 0 without weights that so many pivots find.
fn proposed_proof(
    alloc: Global,
    problem: &Problem,
    node: &Node,
    rounds: u32,
) -> Result<Option<Vec<Pair>>, Memory>
    requires { IsNodeOf problem.now node.now }
    ensures pairs { IfOk result (λ o. IfSome o (λ v. ArePairs (length problem.now.table) v.items)) }
    ensures value { IfOk result (λ o. IfSome o
        (λ v. IsSomeAnd (spec.leaf_value (problem_net problem.now) problem.now.table node.now v.items
        false) (λ z. pos 0 <ℤ z))) }
{
    let found = propose(alloc, problem, node, &[], false, rounds)?;
    match judged(problem, node, &found.pairs, false) {
        Some(value) if value > 0 => Ok(Some(found.pairs)),
        _ => Ok(None),
    }
}

/// Pairs of value above 0 without weights, where some are found by so many pivots; at a decided node they are.
fn proof_of_nothing(
    alloc: Global,
    problem: &Problem,
    node: &Node,
    levels: &[usize],
    rounds: u32,
) -> Result<Option<Vec<Pair>>, Memory>
    requires { IsNodeOf problem.now node.now }
    ensures pairs { IfOk result (λ o. IfSome o (λ v. ArePairs (length problem.now.table) v.items)) }
    ensures value { IfOk result (λ o. IfSome o
        (λ v. IsSomeAnd (spec.leaf_value (problem_net problem.now) problem.now.table node.now v.items
        false) (λ z. pos 0 <ℤ z))) }
    ensures decided { IfOk result (λ o. IsDecided problem.now node.now → IsSome o) }
{
    let closing = closing_proof(alloc, problem, node, levels)?;
    if closing.is_some() || begin_apart(problem) {
        return Ok(closing);
    }
    proposed_proof(alloc, problem, node, rounds)
}

/// Whether what is proposed has a value above 0 without weights.
fn is_endless(problem: &Problem, node: &Node, found: &LeafProposal) -> bool
    requires { IsNodeOf problem.now node.now }
    ensures pairs { IsTrue result → ArePairs (length problem.now.table) found.now.pairs.items }
    ensures value { IsTrue result → IsSomeAnd
        (spec.leaf_value (problem_net problem.now) problem.now.table node.now found.now.pairs.items
        false) (λ z. pos 0 <ℤ z) }
{
    if !found.endless {
        return false;
    }
    match judged(problem, node, &found.pairs, false) {
        Some(value) => value > 0,
        None => false,
    }
}

/// The best of no pairs, the start and what is found from it.
fn best_pairs(
    alloc: Global,
    problem: &Problem,
    node: &Node,
    start: &[Pair],
    found: Vec<Pair>,
) -> Result<Best, Memory>
    requires node { IsNodeOf problem.now node.now }
    requires start { ArePairs (length problem.now.table) start.now }
    ensures pairs { IfOk result (λ b. ArePairs (length problem.now.table) b.pairs.items) }
    ensures value { IfOk result (λ b. spec.leaf_value (problem_net problem.now) problem.now.table
        node.now b.pairs.items true ≡ Some b.value) }
    ensures none { IfOk result (λ b. IfSome (spec.leaf_value (problem_net problem.now) problem.now.table
        node.now [] true) (λ v. v ≤ℤ b.value)) }
    ensures start { IfOk result (λ b. IfSome (spec.leaf_value (problem_net problem.now) problem.now.table
        node.now start.now true) (λ v. v ≤ℤ b.value)) }
{
    let none = no_pairs(alloc, problem, node);
    let kept = start.to_vec(alloc)?;
    let started = better(none, kept, leaf_value(problem, node, start, true));
    let value = judged(problem, node, &found, true);
    Ok(better(started, found, value))
}

/// The best leaf that is found at a node, from the pairs of another leaf: a `Gap` wherever some cycle has no offset left; else
/// a `Nothing` where pairs of value above 0 with all weights 0 were found, or a `Bound` whose value is at least that of no
/// pairs, and at least that of the start where it has one at this node. Where the cycles are the network's own, each slack
/// range has a value, each offset range has one, and no slacks of the ranges have these offsets, it is a `Gap` or a `Nothing`,
/// however few the rounds.
///
/// A circulation with the weights takes at most so many rounds, one pivot each; where a cycle doesn't begin with a row of its
/// own, one without weights may take as many again.
pub fn best_leaf_from(
    alloc: Global,
    problem: &Problem,
    node: &Node,
    start: &[Pair],
    rounds: u32,
) -> Result<Leaf, Memory>
    requires node { IsNodeOf problem.now node.now }
    requires start { ArePairs (length problem.now.table) start.now }
    ensures leaf { IfOk result (IsLeafOf problem.now node.now) }
    ensures none { IfOk result (IsNoLess problem.now node.now []) }
    ensures start { IfOk result (IsNoLess problem.now node.now start.now) }
    ensures decided { IfOk result (λ leaf. IsDecided problem.now node.now → IsNothing leaf) }
{
    if let Some(cycle) = first_gap(problem, node) {
        return Ok(Leaf::Gap { cycle });
    }
    let found = propose(alloc, problem, node, start, true, rounds)?;
    if is_endless(problem, node, &found) {
        let pairs = Pairs::new(found.pairs);
        return Ok(Leaf::Nothing { pairs });
    }
    if let Some(pairs) = proof_of_nothing(alloc, problem, node, &found.levels, rounds)? {
        let pairs = Pairs::new(pairs);
        return Ok(Leaf::Nothing { pairs });
    }
    let Best { pairs, value } = best_pairs(alloc, problem, node, start, found.pairs)?;
    let pairs = Pairs::new(pairs);
    Ok(Leaf::Bound { pairs, value })
}

/// The best leaf that is found at a node from no pairs: a `Gap` wherever some cycle has no offset left; else a `Nothing` where
/// pairs of value above 0 with all weights 0 were found, or a `Bound` whose value is at least that of no pairs. Where the
/// cycles are the network's own, each slack range has a value, each offset range has one, and no slacks of the ranges have
/// these offsets, it is a `Gap` or a `Nothing`, however few the rounds, which bound the pivots as in `best_leaf_from`.
pub fn best_leaf(alloc: Global, problem: &Problem, node: &Node, rounds: u32) -> Result<Leaf, Memory>
    requires { IsNodeOf problem.now node.now }
    ensures leaf { IfOk result (IsLeafOf problem.now node.now) }
    ensures none { IfOk result (IsNoLess problem.now node.now []) }
    ensures decided { IfOk result (λ leaf. IsDecided problem.now node.now → IsNothing leaf) }
{
    best_leaf_from(alloc, problem, node, &[], rounds)
}
