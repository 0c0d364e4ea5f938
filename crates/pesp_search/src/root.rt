//! The root of the tree.

ghost use Rattle.std.specs.Prelude.{◌≡◌, IfOk, IfErr, OnOk};
ghost use Rattle.pesp_nodes.specs.Problems.{IsNodeOf};
ghost use Rattle.pesp_tree.specs.States.{opening, root_of};
ghost use Rattle.pesp_tree.specs.Events.{LendsLeaf};
ghost use Rattle.pesp_branching.specs.Turns.{IsWorked};
ghost use Rattle.pesp_search.specs.Rooting.{work_of, IsRootBound};
ghost use Rattle.pesp_search.specs.Searching.{AreTurnsRefused};

use crate::refusal::SolveRefusal;
use crate::single::best_single;
use pesp_board::{Board, Job, LendRefusal, Work, is_shut_by_propagation};
use pesp_bound::{Leaf, best_leaf_from};
use pesp_nodes::Node;
use pesp_problem::Memory;
use pesp_turns::hand_in;
use std::alloc::Global;

/// How many pivots look for the leaf of the root at most. With 1,000 the bound of a railway of 20,000 activities was a quarter of
/// what it is with so many, in no less time.
const ROUNDS: u32 = 100_000;

/// The work that a leaf is; where propagation shuts a bound, that it does.
fn work_of(leaf: Leaf, shut: bool) -> Work
    ensures { result ≡ work_of shut leaf }
{
    match leaf {
        Leaf::Gap { cycle } => Work::Gap(cycle),
        Leaf::Nothing { pairs } => Work::Nothing(pairs),
        Leaf::Bound { .. } if shut => Work::Propagated,
        Leaf::Bound { pairs, .. } => Work::Leaf(pairs),
    }
}

/// Lends the root of a new board.
fn lend_root(alloc: Global, board: &mut Board) -> Result<Job, Memory>
    requires { board.old.state ≡ opening }
    ensures problem { board.new.problem ≡ board.old.problem }
    ensures lends { IfOk result
        (λ job. LendsLeaf board.old.problem board.old.state job board.new.state) }
{
    match board.lend(alloc) {
        Ok(Some(job)) => Ok(job),
        Ok(None) => unreachable!(),
        Err(LendRefusal::NumbersSpent) => unreachable!(),
        Err(LendRefusal::Memory) => Err(Memory),
    }
}

/// Lends the root of a new board, and gives the best leaf that is found there from the best single pair. A bound isn't given
/// where propagation shuts the root.
pub(crate) fn look_at_root(
    alloc: Global,
    board: &mut Board,
    root: &Node,
) -> Result<(), SolveRefusal>
    requires opening { board.old.state ≡ opening }
    requires root { root.now ≡ root_of board.old.problem }
    requires node { IsNodeOf board.old.problem root.now }
    ensures problem { board.new.problem ≡ board.old.problem }
    ensures worked { OnOk result (IsWorked board.old.problem 0 board.new.state) }
    ensures least { OnOk result (IsRootBound board.old.problem board.new.state) }
    ensures refused { IfErr result (AreTurnsRefused board.old.problem 0) }
{
    board.problem().keeps_limits();
    let job = lend_root(alloc, board)?;
    let start = best_single(alloc, board.problem(), root)?;
    let leaf = best_leaf_from(alloc, board.problem(), root, &start, ROUNDS)?;
    let shut = is_shut_by_propagation(alloc, board.problem(), root)?;
    let taken = hand_in(alloc, board, &job, &work_of(leaf, shut))?;
    if !taken {
        return Err(SolveRefusal::PairsTooMany);
    }
    Ok(())
}
