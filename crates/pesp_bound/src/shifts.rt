//! Offsets of cycles, taken to the rows with which the cycles begin.

ghost use Rattle.std.specs.Prelude.{◌≡◌, ℕ, ◌-◌, ◌<◌, ◌≤◌, length, All, IfOk, IfSome, IsSome, vec_len};
ghost use Rattle.pesp_problem.specs.Forests.{own_row};
ghost use Rattle.pesp_nodes.specs.Offsets.{IsSmallOffset};
ghost use Rattle.pesp_nodes.specs.Problems.{problem_net, IsNodeOf};
ghost use Rattle.pesp_bound.specs.Leaves.{HasNoGap};
ghost use Rattle.pesp_bound.specs.Differences.{AreRowShifts};

use pesp_nodes::{Node, Problem, offset_range};
use pesp_problem::Walk;
use std::alloc::{AllocError, Global};

/// The place, from 0, of the row with which a walk begins.
pub fn own_place(walk: &Walk) -> usize
    requires { 1 ≤ own_row walk.now }
    ensures { result ≡ own_row walk.now - 1 }
{
    walk.rows()[0].row as usize - 1
}

/// For each row the least and the greatest offset left of the last cycle that begins with it, 0 where none does. None where
/// some cycle has no offset left.
pub fn shifts_of(
    alloc: Global,
    problem: &Problem,
    node: &Node,
) -> Result<Option<Vec<(i64, i64)>>, AllocError>
    requires { IsNodeOf problem.now node.now }
    ensures long { IfOk result (λ o. IfSome o (λ v. vec_len v ≡ length problem.now.network.rows)) }
    ensures shifts { IfOk result (λ o. IfSome o
        (λ v. AreRowShifts (problem_net problem.now) problem.now.table node.now (length problem.now.table)
        v.items)) }
    ensures small { IfOk result (λ o. IfSome o
        (λ v. All (λ s. IsSmallOffset problem.now.network.period s.0
        × IsSmallOffset problem.now.network.period s.1) v.items)) }
    ensures found { HasNoGap problem.now node.now → IfOk result (λ o. IsSome o) }
{
    let table = problem.table();
    let mut shifts = vec![in alloc; (0i64, 0i64); problem.arcs().len()]?;
    for place in 0..table.len() {
        let Some(left) = offset_range(problem, node, place as u32 + 1) else {
            return Ok(None);
        };
        shifts[own_place(&table[place])] = left;
    }
    Ok(Some(shifts))
}
