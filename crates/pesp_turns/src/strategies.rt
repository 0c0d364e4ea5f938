//! What proposes cuts for a board's problem, where its cycles are fundamental walks of what is left of the instance.

ghost use Rattle.std.specs.Prelude.{All, IfOk, IfSome};
ghost use Rattle.pesp_problem.specs.Walks.{IsWalk};
ghost use Rattle.pesp_problem.specs.Forests.{AreFundamental};
ghost use Rattle.pesp_network.specs.Networks.{arcs_of_network};

use crate::known::Known;
use pesp_network::NetRefusal;
use pesp_nodes::Problem;
use pesp_problem::{Memory, Walk};
use pesp_reduce::Reduced;
use pesp_strategy::Strategy;
use std::alloc::Global;

/// The fundamental walks of what is left; None where they have too many signed rows.
fn walks_of(alloc: Global, reduced: &Reduced) -> Result<Option<Vec<Walk>>, Memory>
    ensures { IfOk result (λ found. IfSome found
        (λ walks. AreFundamental (arcs_of_network reduced.now.network.rows)
        reduced.now.network.forest walks.items)) }
{
    match reduced.network().cycles(alloc) {
        Ok(walks) => Ok(Some(walks)),
        Err(NetRefusal::TableTooLarge) => Ok(None),
        Err(_) => Err(Memory),
    }
}

/// Whether two walks pass the same rows with the same signs.
fn is_same(walk: &Walk, other: &Walk) -> bool {
    walk.rows() == other.rows()
}

/// Whether each walk, as it is lifted, is the cycle at its place.
fn lift_to(alloc: Global, reduced: &Reduced, walks: &[Walk], table: &[Walk]) -> Result<bool, Memory>
    requires { All (IsWalk (arcs_of_network reduced.now.network.rows)) walks.now }
{
    let mut cycles = table.iter();
    for walk in walks {
        let lifted = reduced.lift_walk(alloc, walk)?;
        match cycles.next() {
            Some(cycle) if is_same(&lifted, cycle) => {}
            _ => return Ok(false),
        }
    }
    Ok(true)
}

/// Whether the fundamental walks, as they are lifted, are the table.
fn are_lifted(
    alloc: Global,
    reduced: &Reduced,
    walks: &[Walk],
    table: &[Walk],
) -> Result<bool, Memory>
    requires { AreFundamental (arcs_of_network reduced.now.network.rows) reduced.now.network.forest
        walks.now }
{
    if walks.len() != table.len() {
        return Ok(false);
    }
    lift_to(alloc, reduced, walks, table)
}

/// A strategy for the network of what is left, whose cycles are those of the problem.
pub fn strategy_of(alloc: Global, known: &Known) -> Result<Option<Strategy>, Memory> {
    Strategy::new(alloc, known.reduced.network(), known.root.offsets())
}

/// A strategy; None where the cycles are another table than that of the forest of what is left.
pub(crate) fn strategy_for(
    alloc: Global,
    known: &Known,
    problem: &Problem,
) -> Result<Option<Strategy>, Memory> {
    let reduced = &known.reduced;
    let Some(walks) = walks_of(alloc, reduced)? else {
        return Ok(None);
    };
    if !are_lifted(alloc, reduced, &walks, problem.table())? {
        return Ok(None);
    }
    strategy_of(alloc, known)
}
