//! Solutions.

ghost use Rattle.std.specs.Prelude.{◌≡◌, ℕ, ◌≤◌, List, IfOk, IfErr, OnOk};
ghost use Rattle.pesp_problem.specs.declared.limits.TheConstants.{MOST_STEPS};
ghost use Rattle.pesp_tree.specs.States.{State, opening};
ghost use Rattle.pesp_tree.specs.Certificates.{IsProblemOf};
ghost use Rattle.pesp_branching.specs.Lifted.{IsFrugal};
ghost use Rattle.pesp_branching.specs.Turns.{IsWorked};
ghost use Rattle.pesp_turns.specs.Knowing.{IsKnown};
ghost use Rattle.pesp_turns.specs.Settling.{IsSearched};
ghost use Rattle.pesp_search.specs.Beginning.{IsBegun};
ghost use Rattle.pesp_search.specs.Rooting.{IsRootBound};
ghost use Rattle.pesp_search.specs.Searching.{IsAsCheapAs, IsReady, AreAllTurns, AreTurnsRefused};
ghost use Rattle.pesp_search.specs.Refusals.{MeetsLimit};
ghost use Rattle.pesp_search.specs.Solving.{IsSolved, CostsNoMore, IsSearchRefusal};

use crate::begun::begin;
use crate::given_times::{begin_with, offer_given};
use crate::planted_forest::Planting;
use crate::refusal::SolveRefusal;
use crate::root::look_at_root;
use pesp_board::Board;
use pesp_branching::offer_times;
use pesp_cert::Certificate;
use pesp_forest::TimesFinder;
use pesp_problem::{Instance, Memory};
use pesp_turns::{Ending, Known, Observer, Search, SearchPhase};
use std::alloc::Global;

/// What is known of an instance, and how many leaves were split to find it.
#[derive(Drop)]
pub struct Solved {
    pub certificate: Certificate,
    pub steps_used: u32,
}

/// From more steps on a forest is looked for longer, or two are compared.
const STEPS_OF_ONE: u32 = 64;

/// How a forest is looked for, for a search of so many steps.
fn planting_for(steps: u32) -> Planting {
    if steps > STEPS_OF_ONE {
        Planting::Long
    } else {
        Planting::Whole
    }
}

/// Looks at the root of a new board, and offers times, first those that are given, then those that are found.
fn look_and_offer<F: TimesFinder, O: Observer>(
    alloc: Global,
    instance: &Instance,
    board: &mut Board,
    known: &Known,
    times: &[u32],
    finder: &mut F,
    observer: &mut O,
) -> Result<(), SolveRefusal>
    requires known { IsKnown board.old.problem known.now }
    requires opening { board.old.state ≡ opening }
    requires original { known.now.reduced.original ≡ instance.now }
    ensures problem { board.new.problem ≡ board.old.problem }
    ensures ready { OnOk result
        (IsReady board.old.problem times.now board.new.state) }
    ensures refused { IfErr result (AreTurnsRefused board.old.problem 0) }
{
    board.problem().keeps_limits();
    observer.at(SearchPhase::Root);
    look_at_root(alloc, board, &known.root)?;
    observer.at(SearchPhase::Times);
    offer_given(alloc, board, times)?;
    begin_with(alloc, instance, &known.reduced, times, finder)?;
    offer_times(alloc, board, &known.reduced, finder)?;
    Ok(())
}

/// Looks at the root of what was begun, and offers times, first those that are given.
fn make_ready<F: TimesFinder, O: Observer>(
    alloc: Global,
    instance: &Instance,
    search: &mut Search,
    times: &[u32],
    finder: &mut F,
    observer: &mut O,
) -> Result<(), SolveRefusal>
    requires known { IsKnown search.old.board.problem search.old.known }
    requires opening { search.old.board.state ≡ opening }
    requires original { search.old.known.reduced.original ≡ instance.now }
    ensures problem { search.new.board.problem ≡ search.old.board.problem }
    ensures known { search.new.known ≡ search.old.known }
    ensures ready { OnOk result
        (IsReady search.old.board.problem times.now search.new.board.state) }
    ensures refused { IfErr result (AreTurnsRefused search.old.board.problem 0) }
{
    let Search { board, known, .. } = search;
    look_and_offer(alloc, instance, board, known, times, finder, observer)
}

/// Takes turns until so many leaves were split or no leaf is open; says how many were split. A finder looks for times, and an
/// observer looks on.
fn take_turns<F: TimesFinder, O: Observer>(
    alloc: Global,
    search: &mut Search,
    steps: u32,
    finder: &mut F,
    observer: &mut O,
) -> Result<u32, SolveRefusal>
    requires known { IsKnown search.old.board.problem search.old.known }
    requires searched { IsSearched search.old.board.problem search.old.known.reduced }
    requires worked { IsWorked search.old.board.problem 0 search.old.board.state }
    requires most { steps ≤ MOST_STEPS }
    ensures problem { search.new.board.problem ≡ search.old.board.problem }
    ensures turns { IfOk result (λ used. AreAllTurns search.old.board.problem steps
        search.old.board.state used search.new.board.state) }
    ensures refused { IfErr result (AreTurnsRefused search.old.board.problem steps) }
{
    search.board.problem().keeps_limits();
    let ended = search.run(alloc, steps, finder, observer)?;
    match ended.ending {
        Ending::StepsUsed => Ok(ended.used),
        Ending::NoneOpen => Ok(ended.used),
        Ending::TreeTooLarge => Err(SolveRefusal::PairsTooMany),
        Ending::NumbersSpent => unreachable!(),
        Ending::TurnsUsed => unreachable!(),
    }
}

/// What the board certifies after a search.
fn certify(
    alloc: Global,
    instance: &Instance,
    board: &Board,
    steps_used: u32,
) -> Result<Solved, Memory>
    requires of { IsProblemOf instance.now board.now.problem }
    requires frugal { IsFrugal board.now.problem.table }
    ensures solved { (steps : ℕ) (first : State) → IsRootBound board.now.problem first
        → AreAllTurns board.now.problem steps first steps_used board.now.state
        → IfOk result (λ s. IsSolved instance.now steps s.steps_used s.certificate) }
    ensures improved { (times : List ℕ) → IsAsCheapAs board.now.problem times board.now.state
        → IfOk result (λ s. CostsNoMore instance.now times s.certificate) }
{
    instance.rows();
    board.problem().keeps_limits();
    let certificate = board.certificate(alloc, instance)?;
    Ok(Solved {
        certificate,
        steps_used,
    })
}

/// Searches on what was begun, and certifies what is known then.
pub(crate) fn solve_on<F: TimesFinder, O: Observer>(
    alloc: Global,
    instance: &Instance,
    search: &mut Search,
    times: &[u32],
    steps: u32,
    finder: &mut F,
    observer: &mut O,
) -> Result<Solved, SolveRefusal>
    requires begun { IsBegun instance.now search.old }
    requires most { steps ≤ MOST_STEPS }
    ensures solved { IfOk result (λ s. IsSolved instance.now steps s.steps_used s.certificate) }
    ensures improved { IfOk result (λ s. CostsNoMore instance.now times.now s.certificate) }
    ensures refused { IfErr result (IsSearchRefusal instance.now steps) }
    ensures passed { IfErr result (MeetsLimit instance.now steps) }
{
    make_ready(alloc, instance, search, times, finder, observer)?;
    let steps_used = take_turns(alloc, search, steps, finder, observer)?;
    let solved = certify(alloc, instance, &search.board, steps_used)?;
    Ok(solved)
}

/// Searches for a best timetable, by at most so many splits of a leaf. The certificate is valid for the instance. An answer
/// that is open has used all splits, and propagation doesn't shut the root of its tree; its bound is at least the value at the
/// root of no pairs and of each single pair whose multiplier is 1 or -1. The tree has as many branches as splits were used, fewer than the room of its root, and each of them
/// leaves both its parts a value. Each cycle passes no row twice, and some row that no other cycle passes.
///
/// Refused as `TableTooLarge` only where the square of the number of activities is above 10000000 and the fundamental walks of
/// some spanning forest of what is left of them pass a limit, or do so lifted; as `PairsTooMany` only where the number of
/// cycles, at most that of activities, times one more than the steps is above 20000000 and a tree that so many steps may lead
/// to would pass a limit; and else as `Memory`, where a growth was refused.
///
/// A finder looks for times of what is left of the instance, and an observer looks on. Nothing that is promised rests on them.
pub fn solve_watched<F: TimesFinder, O: Observer>(
    alloc: Global,
    instance: &Instance,
    steps: u32,
    finder: &mut F,
    observer: &mut O,
) -> Result<Solved, SolveRefusal>
    requires { steps ≤ MOST_STEPS }
    ensures solved { IfOk result (λ s. IsSolved instance.now steps s.steps_used s.certificate) }
    ensures refused { IfErr result (IsSearchRefusal instance.now steps) }
    ensures passed { IfErr result (MeetsLimit instance.now steps) }
{
    solve_from(alloc, instance, &[], steps, finder, observer)
}

/// Searches as `solve_watched` does, with the same promises, from times that are given: one for each event of the instance, in
/// the instance's order, from 0 to one less than the period. They are offered before all others. Where they are a timetable
/// of the instance, the answer has a cost, at most theirs, and times near them are looked for; where they aren't, they are passed
/// over.
pub fn solve_from<F: TimesFinder, O: Observer>(
    alloc: Global,
    instance: &Instance,
    times: &[u32],
    steps: u32,
    finder: &mut F,
    observer: &mut O,
) -> Result<Solved, SolveRefusal>
    requires { steps ≤ MOST_STEPS }
    ensures solved { IfOk result (λ s. IsSolved instance.now steps s.steps_used s.certificate) }
    ensures improved { IfOk result (λ s. CostsNoMore instance.now times.now s.certificate) }
    ensures refused { IfErr result (IsSearchRefusal instance.now steps) }
    ensures passed { IfErr result (MeetsLimit instance.now steps) }
{
    let planting = planting_for(steps);
    let mut search = begin(alloc, instance, planting, finder, observer)?;
    let solved = solve_on(alloc, instance, &mut search, times, steps, finder, observer);
    drop(search);
    solved
}
