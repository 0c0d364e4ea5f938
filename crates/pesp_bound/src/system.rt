//! Pairs that show that no slacks of the ranges have offsets of the ranges, where a system of differences shows it.

ghost use Rattle.std.specs.Prelude.{◌≡◌, ℕ, ◌<◌, ◌≤◌, ◌<ℤ◌, length, pos, false, IfOk, IfSome, IsSome, IsSomeAnd, MatchOption};
ghost use Rattle.pesp_problem.specs.declared.limits.TheConstants.{MOST_EVENTS, MOST_ROWS};
ghost use Rattle.pesp_problem.specs.Nodes as spec;
ghost use Rattle.pesp_nodes.specs.Problems.{problem_net, IsNodeOf, ArePairs};
ghost use Rattle.pesp_bound.specs.Settling.{EdgesAreWithin, AreSettled, GainsForEver};
ghost use Rattle.pesp_bound.specs.Leaves.{HasNoGap};
ghost use Rattle.pesp_bound.specs.Decided.{IsDecided};
ghost use Rattle.pesp_bound.specs.Differences.{IsSystem};

use crate::closed_way::{flows_along, pairs_of};
use crate::differences::{MOST, edges_along, passed_rows};
use crate::edge::{Edge, Outcome, are_settled};
use crate::passes::settle;
use crate::shifts::shifts_of;
use pesp_nodes::{Node, Problem};
use pesp_problem::{Pair, SignedRow};
use std::alloc::{AllocError, Global};

/// The rows that cycles pass, under both signs, and an edge along each.
#[derive(Drop)]
struct System {
    rows: Vec<SignedRow>,
    edges: Vec<Edge>,
}

/// The system of differences of a node; None where some cycle has no offset left.
fn system_of(alloc: Global, problem: &Problem, node: &Node) -> Result<Option<System>, AllocError>
    requires { IsNodeOf problem.now node.now }
    ensures system { IfOk result (λ o. IfSome o
        (λ s. IsSystem (problem_net problem.now) problem.now.table node.now s.rows.items
        s.edges.items)) }
    ensures found { HasNoGap problem.now node.now → IfOk result (λ o. IsSome o) }
{
    let Some(shifts) = shifts_of(alloc, problem, node)? else {
        return Ok(None);
    };
    let period = problem.network().period();
    let arcs = problem.arcs();
    let rows = passed_rows(alloc, problem.passages())?;
    let edges = edges_along(alloc, period, arcs, node.slacks(), &shifts, &rows)?;
    Ok(Some(System { rows, edges }))
}

/// A closed way along which no levels meet the demands of the edges, where the given levels don't meet them.
fn closing_way(
    alloc: Global,
    edges: &[Edge],
    events: usize,
    levels: &[usize],
) -> Result<Option<Vec<usize>>, AllocError>
    requires within { EdgesAreWithin events 10300001030000 edges.now }
    requires few { events ≤ MOST_EVENTS }
    ensures { IfOk result (λ o. MatchOption o ((h : ℕ → ℕ) × AreSettled edges.now h)
        (λ way. GainsForEver edges.now way.items × (length way.items ≤ MOST_ROWS))) }
{
    if are_settled(edges, levels) {
        return Ok(None);
    }
    match settle(alloc, edges, events, MOST)? {
        Outcome::Levels(_) => Ok(None),
        Outcome::Gains(way) => Ok(Some(way)),
    }
}

/// The multipliers of a closed way along which levels of events would have to rise for ever, where there is one. Levels
/// that meet all demands, where they are given, show at once that there is none.
pub fn closing_pairs(
    alloc: Global,
    problem: &Problem,
    node: &Node,
    levels: &[usize],
) -> Result<Option<Vec<Pair>>, AllocError>
    requires { IsNodeOf problem.now node.now }
    ensures pairs { IfOk result (λ o. IfSome o (λ v. ArePairs (length problem.now.table) v.items)) }
    ensures decided { IfOk result (λ o. IsDecided problem.now node.now
        → IsSomeAnd o (λ v. IsSomeAnd (spec.leaf_value (problem_net problem.now) problem.now.table
        node.now v.items false) (λ z. pos 0 <ℤ z))) }
{
    let network = problem.network();
    let count = network.rows().len();
    let table = problem.table();
    let Some(system) = system_of(alloc, problem, node)? else {
        return Ok(None);
    };
    match closing_way(alloc, &system.edges, network.events() as usize, levels)? {
        None => Ok(None),
        Some(way) => {
            let flows = flows_along(alloc, count, &system.rows, &way)?;
            Ok(Some(pairs_of(alloc, table, &flows)?))
        }
    }
}
