//! What stays as it is while turns are taken.

ghost use Rattle.std.specs.Prelude.{◌≡◌, IfOk};
ghost use Rattle.pesp_nodes.specs.Problems.{IsNodeOf};
ghost use Rattle.pesp_tree.specs.States.{root_of};
ghost use Rattle.pesp_branching.specs.Passing.{ArePassedRows};
ghost use Rattle.pesp_turns.specs.Knowing.{IsKnown};

use pesp_branching::passed_rows;
use pesp_nodes::{Node, Problem};
use pesp_problem::Memory;
use pesp_reduce::Reduced;
use std::alloc::Global;

/// What is known of a board's problem: what is left of its instance, for each row of the instance whether some cycle passes it,
/// and the root.
#[derive(Drop)]
pub struct Known {
    pub reduced: Reduced,
    pub passed: Vec<bool>,
    pub root: Node,
}

/// For each row whether some cycle of the problem passes it, and its root.
fn rows_and_root(alloc: Global, problem: &Problem) -> Result<(Vec<bool>, Node), Memory>
    ensures passed { IfOk result (λ made. ArePassedRows problem.now made.0.items) }
    ensures root { IfOk result (λ made. made.1 ≡ root_of problem.now) }
    ensures node { IfOk result (λ made. IsNodeOf problem.now made.1) }
{
    let passed = passed_rows(alloc, problem)?;
    let root = problem.root(alloc)?;
    Ok((passed, root))
}

/// What is known of a problem, with what is left of its instance.
pub fn known_of(alloc: Global, problem: &Problem, reduced: Reduced) -> Result<Known, Memory>
    ensures known { IfOk result (IsKnown problem.now) }
    ensures reduced { IfOk result (λ known. known.reduced ≡ reduced) }
{
    match rows_and_root(alloc, problem) {
        Ok((passed, root)) => Ok(Known {
            reduced,
            passed,
            root,
        }),
        Err(refused) => {
            drop(reduced);
            Err(refused)
        }
    }
}
