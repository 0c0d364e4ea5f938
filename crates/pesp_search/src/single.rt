//! The single pair that is worth most at a node.

ghost use Rattle.std.specs.Prelude.{◌≡◌, ℕ, ◌+◌, [], ◌∷◌, ◌<◌, ◌≤◌, ◌≤ℤ◌, length, unsigned_abs, true, IfOk, IfSome};
ghost use Rattle.pesp_problem.specs.Walks.{Names};
ghost use Rattle.pesp_problem.specs.Nodes as spec;
ghost use Rattle.pesp_nodes.specs.Problems.{problem_net, IsNodeOf};
ghost use Rattle.pesp_board.specs.Giving.{HaveValue};
ghost use Rattle.pesp_search.specs.Singles.{plus_pair, minus_pair, IsBestSingle};

use pesp_nodes::{Node, Problem, leaf_value, single_value};
use pesp_problem::{Memory, Pair};
use std::alloc::Global;

/// Pairs with their value.
#[derive(Drop)]
struct Valued {
    pairs: Vec<Pair>,
    value: i128,
}

/// No pairs, with their value.
fn no_pairs(alloc: Global, problem: &Problem, node: &Node) -> Valued
    requires { IsNodeOf problem.now node.now }
    ensures pairs { result.pairs.items ≡ [] }
    ensures value { HaveValue problem.now node.now [] true result.value }
{
    match leaf_value(problem, node, &[], true) {
        Some(value) => Valued {
            pairs: Vec::new(alloc),
            value,
        },
        None => unreachable!(),
    }
}

/// The pair where it is worth more than the best so far.
fn with_pair(
    alloc: Global,
    problem: &Problem,
    node: &Node,
    none: i128,
    pair: &Pair,
    best: Valued,
) -> Result<Valued, Memory>
    requires node { IsNodeOf problem.now node.now }
    requires cycle { Names (length problem.now.table) pair.now.cycle }
    requires one { unsigned_abs pair.now.mult ≡ 1 }
    requires none { HaveValue problem.now node.now [] true none }
    requires best { HaveValue problem.now node.now best.pairs.items true best.value }
    ensures value { IfOk result (λ b. HaveValue problem.now node.now b.pairs.items true b.value) }
    ensures no_less { IfOk result (λ b. best.value ≤ℤ b.value) }
    ensures pair { IfOk result (λ b. IfSome (spec.leaf_value (problem_net problem.now) problem.now.table
        node.now (pair.now ∷ []) true) (λ v. v ≤ℤ b.value)) }
{
    match single_value(problem, node, pair, none) {
        Some(value) if value > best.value => {
            let mut pairs = Vec::new(alloc);
            pairs.push(*pair)?;
            Ok(Valued { pairs, value })
        }
        _ => Ok(best),
    }
}

/// The pairs of a cycle, with either sign, where one is worth more than the best so far.
fn with_cycle(
    alloc: Global,
    problem: &Problem,
    node: &Node,
    none: i128,
    cycle: u32,
    best: Valued,
) -> Result<Valued, Memory>
    requires node { IsNodeOf problem.now node.now }
    requires cycle { Names (length problem.now.table) cycle }
    requires none { HaveValue problem.now node.now [] true none }
    requires best { HaveValue problem.now node.now best.pairs.items true best.value }
    ensures value { IfOk result (λ b. HaveValue problem.now node.now b.pairs.items true b.value) }
    ensures no_less { IfOk result (λ b. best.value ≤ℤ b.value) }
    ensures plus { IfOk result (λ b. IfSome (spec.leaf_value (problem_net problem.now) problem.now.table
        node.now (plus_pair cycle) true) (λ v. v ≤ℤ b.value)) }
    ensures minus { IfOk result (λ b. IfSome (spec.leaf_value (problem_net problem.now) problem.now.table
        node.now (minus_pair cycle) true) (λ v. v ≤ℤ b.value)) }
{
    let plus = Pair { cycle, mult: 1 };
    let minus = Pair { cycle, mult: -1 };
    let better = with_pair(alloc, problem, node, none, &plus, best)?;
    with_pair(alloc, problem, node, none, &minus, better)
}

/// The pairs that are worth most at a node among no pairs and each single pair whose multiplier is 1 or -1.
pub(crate) fn best_single(
    alloc: Global,
    problem: &Problem,
    node: &Node,
) -> Result<Vec<Pair>, Memory>
    requires { IsNodeOf problem.now node.now }
    ensures { IfOk result (λ v. IsBestSingle problem.now node.now v.items) }
{
    let _few = problem.arcs();
    let mut best = no_pairs(alloc, problem, node);
    let none = best.value;
    for place in 0..problem.table().len() {
        best = with_cycle(alloc, problem, node, none, place as u32 + 1, best)?;
    }
    let Valued { pairs, .. } = best;
    Ok(pairs)
}
