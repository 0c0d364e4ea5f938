//! Problems, their nodes, what pairs are worth there, and the leaves that are found.

ghost use Rattle.std.specs.Prelude.{IsTrue, IfSome};
ghost use Rattle.pesp_nodes.specs.Problems.{IsNodeOf, IsCutOf};

use crate::given::Case;
use crate::rows::{cuts_of, network_of, table_of};
use crate::spelling::{tell_number, tell_ranges};
use crate::words::{look_up, pairs_of, words_of};
use pesp_bound::{Leaf, Pairs, best_leaf, best_leaf_from};
use pesp_network::Network;
use pesp_nodes::{
    Cut, Node, Pair, Problem, ProblemRefusal, Side, are_pairs, leaf_value, offset_range,
};
use pesp_problem::Walk;
use std::alloc::Global;

/// The given cycles, or the network's own where none are given.
fn cycles_of(case: Case<'_>, network: &Network) -> Option<Vec<Walk>> {
    let table = table_of(case)?;
    if table.is_empty() {
        return network.cycles(case.alloc).ok();
    }
    Some(table)
}

/// The problem of the network with these cycles.
fn made(case: Case<'_>) -> Option<Result<Problem, ProblemRefusal>> {
    let network = network_of(case)?.ok()?;
    match cycles_of(case, &network) {
        Some(table) => Some(Problem::new(case.alloc, network, table)),
        None => {
            drop(network);
            None
        }
    }
}

/// Tells the size of the problem, or why there is none.
pub(crate) fn ask_problem(case: Case<'_>, told: &mut String) -> Option<()> {
    match made(case)? {
        Ok(problem) => {
            let done = tell_size(&problem, told);
            drop(problem);
            done
        }
        Err(refusal) => write!(told, " {refusal:?}").ok(),
    }
}

fn tell_size(problem: &Problem, told: &mut String) -> Option<()> {
    let events = problem.network().events();
    let cycles = problem.table().len();
    write!(told, " {events} events, {cycles} cycles").ok()
}

/// Whether a node has what the cut names, and the cut keeps its limit.
fn has_cut(node: &Node, cut: Cut) -> bool
    ensures { IsTrue result → IsCutOf node.now cut }
{
    match cut {
        Cut::Slack { row, k } => 1 <= row && row as usize <= node.slacks().len() && k < 10_000,
        Cut::Offset { cycle, k } => {
            1 <= cycle
                && cycle as usize <= node.offsets().len()
                && k.unsigned_abs() <= 100_000_000_000_000
        }
    }
}

/// The part of the root by the given cuts.
fn node_of(alloc: Global, problem: &Problem, cuts: &[(Cut, Side)]) -> Option<Node>
    ensures { IfSome result (IsNodeOf problem.now) }
{
    let Ok(mut node) = problem.root(alloc) else {
        return None;
    };
    for (cut, side) in cuts {
        if !has_cut(&node, *cut) {
            return None;
        }
        node.cut(*cut, *side);
    }
    Some(node)
}

/// Tells the answer to a question to the node of the given cuts.
pub(crate) fn ask_node(case: Case<'_>, told: &mut String) -> Option<()> {
    let cuts = cuts_of(case)?;
    let problem = made(case)?.ok()?;
    let done = tell_node(case, &problem, &cuts, told);
    drop(problem);
    done
}

fn tell_node(
    case: Case<'_>,
    problem: &Problem,
    cuts: &[(Cut, Side)],
    told: &mut String,
) -> Option<()> {
    match node_of(case.alloc, problem, cuts) {
        Some(node) => {
            let done = answer(case, problem, &node, told);
            drop(node);
            done
        }
        None => None,
    }
}

/// What is asked of a node.
#[derive(Clone, Copy)]
enum Asked {
    Slacks,
    Offsets,
    Left,
    Value,
    Emptiness,
    Leaf,
}

/// The second word of each question.
const ASKED: [(&str, Asked); 6] = [
    ("slacks", Asked::Slacks),
    ("offsets", Asked::Offsets),
    ("left", Asked::Left),
    ("value", Asked::Value),
    ("emptiness", Asked::Emptiness),
    ("leaf", Asked::Leaf),
];

fn answer(case: Case<'_>, problem: &Problem, node: &Node, told: &mut String) -> Option<()>
    requires { IsNodeOf problem.now node.now }
{
    match look_up(&ASKED, case.word(0)?)? {
        Asked::Slacks => tell_ranges(node.slacks(), told),
        Asked::Offsets => tell_ranges(node.offsets(), told),
        Asked::Left => tell_left(problem, node, case.number(1)?, told),
        Asked::Leaf => tell_best(case, problem, node, told),
        Asked::Value => tell_value(problem, node, &given_pairs(case)?, true, told),
        Asked::Emptiness => tell_value(problem, node, &given_pairs(case)?, false, told),
    }
}

/// Tells the offsets left of a cycle.
fn tell_left(problem: &Problem, node: &Node, cycle: u32, told: &mut String) -> Option<()>
    requires { IsNodeOf problem.now node.now }
{
    if cycle == 0 || cycle as usize > problem.table().len() {
        return None;
    }
    match offset_range(problem, node, cycle) {
        Some((low, high)) => write!(told, " {low}..{high}").ok(),
        None => told.push_str(" none").ok(),
    }
}

/// The pairs behind the second word of the question.
fn given_pairs(case: Case<'_>) -> Option<Vec<Pair>> {
    pairs_of(case.alloc, words_of(case.alloc, case.rest)?.get(1..)?)
}

/// Tells the value of pairs, with the rows' weights or with all weights 0.
fn tell_value(
    problem: &Problem,
    node: &Node,
    pairs: &[Pair],
    weighted: bool,
    told: &mut String,
) -> Option<()>
    requires { IsNodeOf problem.now node.now }
{
    if !are_pairs(pairs, problem.table().len()) {
        return None;
    }
    tell_number(leaf_value(problem, node, pairs, weighted), told)
}

/// Tells the leaf that is found in so many rounds.
/// Behind `start` these are 1000 rounds from no pairs.
fn tell_best(case: Case<'_>, problem: &Problem, node: &Node, told: &mut String) -> Option<()>
    requires { IsNodeOf problem.now node.now }
{
    let alloc = case.alloc;
    if case.word(1)? == "start" {
        return tell_leaf(&best_leaf_from(alloc, problem, node, &[], 1000).ok()?, told);
    }
    let rounds = case.number(1)?;
    tell_leaf(&best_leaf(alloc, problem, node, rounds).ok()?, told)
}

fn with_pairs(pairs: &Pairs) -> &'static str {
    if pairs.as_slice().is_empty() {
        "without pairs"
    } else {
        "with pairs"
    }
}

/// Tells the kind of a leaf, its number, and whether it has pairs.
fn tell_leaf(leaf: &Leaf, told: &mut String) -> Option<()> {
    match leaf {
        Leaf::Gap { cycle } => write!(told, " gap {cycle}").ok(),
        Leaf::Nothing { pairs } => write!(told, " nothing {}", with_pairs(pairs)).ok(),
        Leaf::Bound { pairs, value } => write!(told, " bound {value} {}", with_pairs(pairs)).ok(),
    }
}
