//! Which of two forests is searched on: the one whose tree gets further within a few steps.

ghost use Rattle.std.specs.Prelude.{◌≡◌};
ghost use Rattle.pesp_tree.specs.States.{opening};
ghost use Rattle.pesp_turns.specs.Knowing.{IsKnown};

use crate::begun::begin_over;
use crate::given_times::offer_given;
use crate::planted_forest::planted_over;
use crate::refusal::SolveRefusal;
use crate::root::look_at_root;
use pesp_forest::NoTimes;
use pesp_problem::{Instance, Memory};
use pesp_propagate::dive;
use pesp_reduce::Reduced;
use pesp_turns::{Nobody, Search};
use std::alloc::Global;

/// How many steps show how far a tree gets.
const RACED_STEPS: u32 = 128;

/// In how many tries a timetable is looked for, so that leaves that cost more than it are left alone.
const TRIES: u32 = 20;

/// Times of the instance by a dive; none where it finds none.
fn dived_times(alloc: Global, reduced: &Reduced) -> Result<Vec<u32>, Memory> {
    match dive(alloc, reduced.network(), TRIES)? {
        Some(times) => reduced.lift_times(alloc, &times),
        None => Ok(Vec::new(alloc)),
    }
}

/// Looks at the root of a new board, and offers times.
fn begin_trial(alloc: Global, search: &mut Search, times: &[u32]) -> Result<(), SolveRefusal>
    requires known { IsKnown search.old.board.problem search.old.known }
    requires opening { search.old.board.state ≡ opening }
    ensures problem { search.new.board.problem ≡ search.old.board.problem }
    ensures known { search.new.known ≡ search.old.known }
{
    let Search { board, known, .. } = search;
    board.problem().keeps_limits();
    look_at_root(alloc, board, &known.root)?;
    offer_given(alloc, board, times)?;
    Ok(())
}

/// The least value of a leaf after a few steps from a new board, on which no times are looked for; the greatest number where none
/// is left.
fn bound_of(alloc: Global, search: &mut Search) -> Result<u64, SolveRefusal>
    requires known { IsKnown search.old.board.problem search.old.known }
    requires opening { search.old.board.state ≡ opening }
{
    let times = dived_times(alloc, &search.known.reduced)?;
    begin_trial(alloc, search, &times)?;
    search.run(alloc, RACED_STEPS, &mut NoTimes, &mut Nobody)?;
    Ok(search.board.least().unwrap_or(u64::MAX))
}

/// How far a tree over a forest gets within a few steps.
fn reach(alloc: Global, instance: &Instance, forest: &[u32]) -> Result<u64, SolveRefusal> {
    let reduced = planted_over(alloc, instance, forest)?;
    let mut search = begin_over(alloc, instance, reduced)?;
    let bound = bound_of(alloc, &mut search);
    drop(search);
    bound
}

/// How far it gets; nowhere where it is refused for another reason than memory.
fn reach_or_none(alloc: Global, instance: &Instance, forest: &[u32]) -> Result<u64, Memory> {
    match reach(alloc, instance, forest) {
        Ok(bound) => Ok(bound),
        Err(SolveRefusal::Memory) => Err(Memory),
        Err(SolveRefusal::TableTooLarge) | Err(SolveRefusal::PairsTooMany) => Ok(0),
    }
}

/// The forest of these two whose tree gets further within a few steps, each by the numbers of its rows from 1; the first one
/// where both get as far.
pub(crate) fn further(
    alloc: Global,
    instance: &Instance,
    first: Vec<u32>,
    second: Vec<u32>,
) -> Result<Vec<u32>, Memory> {
    let near = reach_or_none(alloc, instance, &first)?;
    let far = reach_or_none(alloc, instance, &second)?;
    if near < far { Ok(second) } else { Ok(first) }
}
