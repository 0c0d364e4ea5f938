//! Open leaves are looked at anew: each gets the best pairs that are found from its own.

ghost use Rattle.std.specs.Prelude.{◌≡◌, ◌≢◌, length, IfOk, IfSome};
ghost use Rattle.pesp_turns.specs.Growing.{Grows};
ghost use Rattle.pesp_branching.specs.Turns.{splits_of};
ghost use Rattle.pesp_turns.specs.ResumeEndings.{IsEndedAs, AreTold};
ghost use Rattle.pesp_turns.specs.Looking.{IsLentTo, IsNextLeaf, IsLook};

use crate::resume_ending::ResumeEnding;
use crate::watcher::Watcher;
use pesp_board::{Board, GiveRefusal, Job, LendRefusal, Work, is_shut_by_propagation, node_along};
use pesp_bound::{Leaf, best_leaf_from};
use pesp_problem::Memory;
use std::alloc::Global;

/// How often a leaf is looked at at most: no board lends more leaves.
const MOST_LOOKS: u32 = 1_000_000;

/// How many pivots look for the leaf of a node.
const ROUNDS: u32 = 1_000;

/// The leaf that is looked at next, or why none is.
#[derive(Drop)]
pub(crate) enum Next {
    Lent(Job),
    Over(ResumeEnding),
}

/// Lends an open leaf, where one is open and a number is left.
#[tactic(auto, using(crate::proofs::Looks::lend_grows))]
fn lend_next(alloc: Global, board: &mut Board) -> Result<Next, Memory>
    ensures problem { board.new.problem ≡ board.old.problem }
    ensures next { IfOk result (λ next. IsNextLeaf board.old.problem board.old.state next board.new.state) }
    ensures grows { IfOk result
        (λ next. Grows board.old.problem 0 board.old.state board.new.state) }
{
    match board.lend(alloc) {
        Ok(Some(job)) => Ok(Next::Lent(job)),
        Ok(None) => Ok(Next::Over(ResumeEnding::StepsUsed)),
        Err(LendRefusal::NumbersSpent) => Ok(Next::Over(ResumeEnding::Full)),
        Err(LendRefusal::Memory) => Err(Memory),
    }
}

/// The work that a leaf is, where it is better than one of this value.
fn better_work(leaf: Leaf, value: u64) -> Option<Work>
    ensures { IfSome result (λ work. splits_of work ≡ 0) }
{
    match leaf {
        Leaf::Gap { cycle } => Some(Work::Gap(cycle)),
        Leaf::Nothing { pairs } => Some(Work::Nothing(pairs)),
        Leaf::Bound {
            pairs,
            value: found,
        } => {
            if found > i128::from(value) {
                Some(Work::Leaf(pairs))
            } else {
                None
            }
        }
    }
}

/// Work for the leaf that was just lent, where better work than its own pairs is found.
fn work_for(alloc: Global, board: &Board, job: &Job) -> Result<Option<Work>, Memory>
    requires { IsLentTo board.now.problem board.now.state job.now }
    ensures { IfOk result (λ found. IfSome found (λ work. splits_of work ≡ 0)) }
{
    let problem = board.problem();
    let node = node_along(alloc, problem, &job.path)?;
    let Some((value, pairs)) = board.job_leaf(job.number) else {
        return Ok(None);
    };
    if is_shut_by_propagation(alloc, problem, &node)? {
        return Ok(Some(Work::Propagated));
    }
    let leaf = best_leaf_from(alloc, problem, &node, pairs, ROUNDS)?;
    Ok(better_work(leaf, value))
}

/// Gives work, where it is taken.
#[tactic(auto, using(crate::proofs::Looks::give_grows))]
fn give(alloc: Global, board: &mut Board, number: u64, work: &Work) -> Result<(), Memory>
    requires { splits_of work.now ≡ 0 }
    ensures problem { board.new.problem ≡ board.old.problem }
    ensures grows { IfOk result
        (λ given. Grows board.old.problem 0 board.old.state board.new.state) }
    ensures numbers { length board.new.state.numbers ≡ length board.old.state.numbers }
{
    match board.give(alloc, number, work) {
        Err(GiveRefusal::Memory) => Err(Memory),
        _ => Ok(()),
    }
}

/// Gives better work for the leaf that was just lent, where some is found; else it stays lent, and isn't lent again.
#[tactic(auto, using(crate::proofs::Growth::none_grows))]
fn look_at(alloc: Global, board: &mut Board, job: &Job) -> Result<(), Memory>
    requires { IsLentTo board.old.problem board.old.state job.now }
    ensures problem { board.new.problem ≡ board.old.problem }
    ensures grows { IfOk result
        (λ given. Grows board.old.problem 0 board.old.state board.new.state) }
    ensures numbers { length board.new.state.numbers ≡ length board.old.state.numbers }
{
    match work_for(alloc, board, job)? {
        Some(work) => give(alloc, board, job.number, &work),
        None => Ok(()),
    }
}

/// Looks at an open leaf of least value; where none is looked at, says why.
fn look_at_next(alloc: Global, board: &mut Board) -> Result<Option<ResumeEnding>, Memory>
    ensures problem { board.new.problem ≡ board.old.problem }
    ensures grows { IfOk result
        (λ found. Grows board.old.problem 0 board.old.state board.new.state) }
    ensures look { IfOk result (λ found. IsLook board.old.problem board.old.state found board.new.state) }
{
    let job = match lend_next(alloc, board)? {
        Next::Lent(job) => job,
        Next::Over(ending) => return Ok(Some(ending)),
    };
    board.best();
    board.problem().keeps_limits();
    look_at(alloc, board, &job)?;
    Ok(None)
}

/// Looks at open leaves, that of least value first, until none gets better or the watcher ends it; says why it ends.
pub(crate) fn look_again<W: Watcher>(
    alloc: Global,
    board: &mut Board,
    watcher: &mut W,
) -> Result<ResumeEnding, Memory>
    ensures problem { board.new.problem ≡ board.old.problem }
    ensures grows { IfOk result
        (λ ending. Grows board.old.problem 0 board.old.state board.new.state) }
    ensures ended { IfOk result (IsEndedAs board.old.problem 0
        (W.may_end watcher.old × W.has_ended watcher.new) board.old.state board.new.state 0) }
    ensures told { IfOk result (AreTold (W.has_said watcher.new) 0) }
    ensures heeded { IfOk result
        (λ ending. ending ≢ ResumeEnding.Stopped → W.has_ended watcher.new → W.has_ended watcher.old) }
{
    for _look in 0..MOST_LOOKS {
        if let Some(ending) = look_at_next(alloc, board)? {
            return Ok(ending);
        }
        if !watcher.goes_on(0, board) {
            return Ok(ResumeEnding::Stopped);
        }
    }
    Ok(ResumeEnding::Full)
}
