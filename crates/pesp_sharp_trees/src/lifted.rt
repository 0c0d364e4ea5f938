//! Walks of what is left as walks of the instance.

ghost use Rattle.std.specs.Prelude.{All, IfOk, IfSome};
ghost use Rattle.pesp_problem.specs.Walks.{IsWalk};
ghost use Rattle.pesp_network.specs.Networks.{arcs_of_network};

use crate::left::Left;
use pesp_inequalities::Pass;
use pesp_nodes::{Problem, ProblemRefusal};
use pesp_problem::{Arc, Memory, SignedRow, Walk};
use pesp_reduce::Reduced;
use std::alloc::Global;

/// The walk along the rows of what is left that these passes name.
fn walk_of(alloc: Global, passes: &[Pass]) -> Result<Walk, Memory> {
    let mut rows = Vec::new(alloc);
    for pass in passes {
        rows.push(SignedRow {
            row: pass.row.saturating_add(1),
            plus: pass.forwards,
        })?;
    }
    Ok(Walk::new(rows))
}

/// The walks that these lists of passes name.
fn walks_of(alloc: Global, lists: &[Vec<Pass>]) -> Result<Vec<Walk>, Memory> {
    let mut walks = Vec::new(alloc);
    for passes in lists {
        walks.push(walk_of(alloc, passes)?)?;
    }
    Ok(walks)
}

/// The walks as a table over what is left; None where one isn't closed, or they pass a limit.
fn table_of(alloc: Global, reduced: &Reduced, walks: Vec<Walk>) -> Result<Option<Problem>, Memory>
    ensures { IfOk result (λ table. IfSome table
        (λ p. All (IsWalk (arcs_of_network reduced.now.network.rows)) p.table)) }
{
    let network = reduced.network().with_forest(alloc, &[])?;
    match Problem::new(alloc, network, walks) {
        Ok(problem) => Ok(Some(problem)),
        Err(ProblemRefusal::Memory) => Err(Memory),
        Err(_) => Ok(None),
    }
}

/// Closed walks of what is left, as they are lifted.
fn lifted_walks(alloc: Global, reduced: &Reduced, walks: &[Walk]) -> Result<Vec<Walk>, Memory>
    requires { All (IsWalk (arcs_of_network reduced.now.network.rows)) walks.now }
{
    let mut lifted = Vec::new(alloc);
    for walk in walks {
        lifted.push(reduced.lift_walk(alloc, walk)?)?;
    }
    Ok(lifted)
}

/// The walks that lists of passes name, as walks of the instance; None where one isn't closed, or they pass a limit.
pub fn lifted_of(
    alloc: Global,
    reduced: &Reduced,
    lists: &[Vec<Pass>],
) -> Result<Option<Vec<Walk>>, Memory> {
    let walks = walks_of(alloc, lists)?;
    let Some(table) = table_of(alloc, reduced, walks)? else {
        return Ok(None);
    };
    let lifted = lifted_walks(alloc, reduced, table.table());
    drop(table);
    Ok(Some(lifted?))
}

/// A number, or less it.
fn signed(plus: bool, number: i64) -> i64 {
    if plus { number } else { number.wrapping_neg() }
}

/// The sum of the lower bounds along passes of what is left.
fn sum_of_passes(arcs: &[Arc], passes: &[Pass]) -> i64 {
    let mut sum = 0i64;
    for pass in passes {
        if let Some(arc) = arcs.get(pass.row as usize) {
            sum = sum.wrapping_add(signed(pass.forwards, arc.lower));
        }
    }
    sum
}

/// The sum of the lower bounds along signed rows of the instance.
fn sum_of_rows(arcs: &[Arc], rows: &[SignedRow]) -> i64 {
    let mut sum = 0i64;
    for row in rows {
        if let Some(arc) = arcs.get((row.row as usize).wrapping_sub(1)) {
            sum = sum.wrapping_add(signed(row.plus, arc.lower));
        }
    }
    sum
}

/// For each list of passes, by how much the offset of the lifted walk is above its own, where rows have the same slack.
pub fn offset_shifts(
    left: Left<'_>,
    lists: &[Vec<Pass>],
    lifted: &[Walk],
) -> Result<Vec<i64>, Memory> {
    let arcs = left.instance.arcs(left.alloc)?;
    let period = i64::from(left.instance.period());
    let mut shifts = Vec::new(left.alloc);
    for (place, passes) in lists.iter().enumerate() {
        if let Some(walk) = lifted.get(place) {
            let own = sum_of_passes(left.network.arcs(), passes);
            let more = sum_of_rows(&arcs, walk.rows()).wrapping_sub(own);
            shifts.push(more.checked_div_euclid(period).unwrap_or(0))?;
        }
    }
    Ok(shifts)
}
