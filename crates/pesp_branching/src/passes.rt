//! The rows that cycles pass.

ghost use Rattle.std.specs.Prelude.{◌≡◌, ◌<◌, ◌+◌, ◌||◌, ℕ, length, All, IfOk, false, slice_index_or, ◌==◌};
ghost use Rattle.std.specs.List.{list_any};
ghost use Rattle.pesp_problem.specs.Walks.{Names};
ghost use Rattle.pesp_branching.specs.Passing.{ArePassedRows};

use pesp_nodes::Problem;
use pesp_problem::{Memory, SignedRow};
use std::alloc::Global;

/// Marks the rows of a walk.
fn mark(passed: &mut [bool], rows: &[SignedRow])
    requires { All (λ s. Names (length passed.old) s.row) rows.now }
    ensures long { length passed.new ≡ length passed.old }
    ensures each { (i : ℕ) → i < length passed.old → slice_index_or passed.new i false
        ≡ (slice_index_or passed.old i false || list_any (λ s. s.row == i + 1) rows.now) }
{
    for s in rows {
        passed[s.row as usize - 1] = true;
    }
}

/// For each row whether some cycle passes it.
pub fn passed_rows(alloc: Global, problem: &Problem) -> Result<Vec<bool>, Memory>
    ensures { IfOk result (λ passed. ArePassedRows problem.now passed.items) }
{
    let mut passed = vec![in alloc; false; problem.arcs().len()]?;
    for walk in problem.table() {
        mark(&mut passed, walk.rows());
    }
    Ok(passed)
}
