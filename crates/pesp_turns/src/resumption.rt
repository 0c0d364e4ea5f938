//! Searches that go on from a certificate.

ghost use Rattle.std.specs.Prelude.{◌≡◌, ◌≢◌, ◌≤◌, IfOk, OnOk, None};
ghost use Rattle.pesp_truth.specs.Certificates.{IsValid};
ghost use Rattle.pesp_tree.specs.Certificates.{IsProblemOf};
ghost use Rattle.pesp_turns.specs.Knowing.{IsKnown};
ghost use Rattle.pesp_turns.specs.Growing.{Grows};
ghost use Rattle.pesp_turns.specs.Endings.{AreLentSettled};
ghost use Rattle.pesp_turns.specs.ResumeEndings.{IsEndedAs, AreTold};
ghost use Rattle.pesp_turns.specs.Resuming.{IsTakenUp, IsCertified, IsResumed};

use crate::Search;
use crate::resume_ending::ResumeEnding;
use crate::second_look::look_again;
use crate::splits::{Done, split_leaves};
use crate::watcher::Watcher;
use pesp_board::Board;
use pesp_branching::offer_times;
use pesp_cert::Certificate;
use pesp_forest::TimesFinder;
use pesp_problem::{Instance, Memory};
use std::alloc::Global;

/// What is known of an instance after a search that went on, how many leaves were split, and why no more were.
#[derive(Drop)]
pub struct Resumed {
    pub certificate: Certificate,
    pub steps_used: u32,
    pub ending: ResumeEnding,
}

/// Offers times that are found for what is left of the instance.
fn offer_anew<F: TimesFinder>(
    alloc: Global,
    search: &mut Search,
    finder: &mut F,
) -> Result<(), Memory>
    ensures problem { search.new.board.problem ≡ search.old.board.problem }
    ensures grows { OnOk result (Grows search.old.board.problem 0
        search.old.board.state search.new.board.state) }
{
    let Search { board, known, .. } = search;
    offer_times(alloc, board, &known.reduced, finder)
}

/// Offers times, and looks at the open leaves anew.
fn look_anew<F: TimesFinder, W: Watcher>(
    alloc: Global,
    search: &mut Search,
    finder: &mut F,
    watcher: &mut W,
) -> Result<Done, Memory>
    ensures problem { search.new.board.problem ≡ search.old.board.problem }
    ensures none { IfOk result (λ done. done.used ≡ 0) }
    ensures ended { IfOk result (λ done. IsEndedAs search.old.board.problem 0
        (W.may_end watcher.old × W.has_ended watcher.new) search.old.board.state
        search.new.board.state 0 done.ending) }
    ensures told { IfOk result (λ done. AreTold (W.has_said watcher.new) done.used done.ending) }
    ensures heeded { IfOk result
        (λ done. done.ending ≢ ResumeEnding.Stopped → W.has_ended watcher.new → W.has_ended watcher.old) }
    ensures grows { IfOk result (λ done. Grows search.old.board.problem 0
        search.old.board.state search.new.board.state) }
{
    offer_anew(alloc, search, finder)?;
    let ending = look_again(alloc, &mut search.board, watcher)?;
    Ok(Done { used: 0, ending })
}

/// Goes on, by at most so many splits.
fn go_on<F: TimesFinder, W: Watcher>(
    alloc: Global,
    search: &mut Search,
    steps: u32,
    finder: &mut F,
    watcher: &mut W,
) -> Result<Done, Memory>
    requires { IsKnown search.old.board.problem search.old.known }
    ensures problem { search.new.board.problem ≡ search.old.board.problem }
    ensures few { IfOk result (λ done. done.used ≤ steps) }
    ensures grows { IfOk result (λ done. Grows search.old.board.problem done.used
        search.old.board.state search.new.board.state) }
    ensures ends { AreLentSettled search.old.board.problem search.old.board.state → IfOk result
        (λ done. IsEndedAs search.old.board.problem steps
        (W.may_end watcher.old × W.has_ended watcher.new) search.old.board.state
        search.new.board.state done.used done.ending) }
    ensures told { IfOk result (λ done. AreTold (W.has_said watcher.new) done.used done.ending) }
    ensures heeded { IfOk result
        (λ done. done.ending ≢ ResumeEnding.Stopped → W.has_ended watcher.new → W.has_ended watcher.old) }
{
    if steps == 0 {
        return look_anew(alloc, search, finder, watcher);
    }
    split_leaves(alloc, search, steps, finder, watcher)
}

/// What the board certifies then.
fn certify(alloc: Global, instance: &Instance, board: &Board, done: Done) -> Result<Resumed, Memory>
    requires { IsProblemOf instance.now board.now.problem }
    ensures certified { IfOk result
        (λ r. IsCertified instance.now board.now.problem board.now.state r.certificate) }
    ensures used { IfOk result (λ r. r.steps_used ≡ done.used) }
    ensures ending { IfOk result (λ r. r.ending ≡ done.ending) }
{
    let certificate = board.certificate(alloc, instance)?;
    Ok(Resumed {
        certificate,
        steps_used: done.used,
        ending: done.ending,
    })
}

/// Goes on with a search, and certifies what is known then. Times are looked for, also where the board has some.
fn resume_search<F: TimesFinder, W: Watcher>(
    alloc: Global,
    instance: &Instance,
    search: &mut Search,
    steps: u32,
    finder: &mut F,
    watcher: &mut W,
) -> Result<Resumed, Memory>
    requires known { IsKnown search.old.board.problem search.old.known }
    requires of { IsProblemOf instance.now search.old.board.problem }
    ensures grows { IfOk result (λ r. Grows search.old.board.problem r.steps_used
        search.old.board.state search.new.board.state) }
    ensures few { IfOk result (λ r. r.steps_used ≤ steps) }
    ensures certified { IfOk result (λ r. IsCertified instance.now search.old.board.problem
        search.new.board.state r.certificate) }
    ensures ends { AreLentSettled search.old.board.problem search.old.board.state → IfOk result
        (λ r. IsEndedAs search.old.board.problem steps
        (W.may_end watcher.old × W.has_ended watcher.new) search.old.board.state
        search.new.board.state r.steps_used r.ending) }
    ensures told { IfOk result (λ r. AreTold (W.has_said watcher.new) r.steps_used r.ending) }
    ensures heeded { IfOk result
        (λ r. r.ending ≢ ResumeEnding.Stopped → W.has_ended watcher.new → W.has_ended watcher.old) }
{
    finder.look_at(search.known.reduced.network())?;
    let done = go_on(alloc, search, steps, finder, watcher)?;
    certify(alloc, instance, &search.board, done)
}

/// A search that goes on from a valid certificate.
fn search_from(alloc: Global, instance: &Instance, base: &Certificate) -> Result<Search, Memory>
    requires { IsValid None instance.now base.now }
    ensures begun { IfOk result (λ search. IsTakenUp instance.now base.now search.board.problem
        search.board.state) }
    ensures known { IfOk result (λ search. IsKnown search.board.problem search.known) }
{
    let board = Board::adopt(alloc, instance, base)?;
    Search::on(alloc, instance, board)
}

/// Goes on from a valid certificate of an instance: its open leaves are split, that of least value first, until so many were
/// split, no leaf is open, the tree would pass a limit, or the watcher ends it. With no step the open leaves are looked at
/// anew, and times are offered. A finder looks for times of what is left of the instance; nothing that is promised rests on it. The
/// watcher is asked after each leaf.
///
/// What comes of it is a valid certificate. Its bound isn't below the base's, and its cost isn't above the base's; none counts as
/// above every number. Its tree has as many branches more as leaves were split. It ends before all splits are used only where
/// nothing is left to split at a leaf that is worth less than the best times, where a limit is met, or where the watcher ended
/// it. The watcher was told each number of leaves that were split, and said that the search goes on; but maybe the last one, where
/// nothing is left to split, a limit is met or the watcher ended it. Where the watcher ended it, that is what is told. The one
/// refusal is of memory.
pub fn resume<F: TimesFinder, W: Watcher>(
    alloc: Global,
    instance: &Instance,
    base: &Certificate,
    steps: u32,
    finder: &mut F,
    watcher: &mut W,
) -> Result<Resumed, Memory>
    requires { IsValid None instance.now base.now }
    ensures resumed { IfOk result
        (λ r. IsResumed instance.now base.now steps
        (W.may_end watcher.old × W.has_ended watcher.new) r.steps_used r.ending r.certificate) }
    ensures told { IfOk result (λ r. AreTold (W.has_said watcher.new) r.steps_used r.ending) }
    ensures heeded { IfOk result
        (λ r. r.ending ≢ ResumeEnding.Stopped → W.has_ended watcher.new → W.has_ended watcher.old) }
{
    // Both keep their limits.
    instance.events();
    base.answer();
    let mut search = search_from(alloc, instance, base)?;
    let resumed = resume_search(alloc, instance, &mut search, steps, finder, watcher);
    drop(search);
    resumed
}
