//! Open leaves that stay as they are where others are worked on.

ghost use Rattle.std.specs.Prelude.{◌≡◌, ◌<◌, ℕ, List, Option, length, map, IfOk, IfSome, IsTrue};
ghost use Rattle.pesp_truth.specs.Certificates.{IsValid};
ghost use Rattle.pesp_branching.specs.Turns.{IsOpenAnswer};
ghost use Rattle.pesp_sharp_work.specs.Jobs.{told_job};
ghost use Rattle.pesp_sharp_work.specs.Keeping.{MayBeWorkedOn, IsAmong, KeepsLeaf, KeepLeaves, KeepsOtherLeaves};

use crate::jobs::{is_below, sharp_jobs};
use pesp_cert::Fronted;
use pesp_problem::{Cut, Instance, Memory, Side};
use pesp_truth::Answer;
use pesp_turns::OpenJob;
use std::alloc::Global;

/// Whether an answer leaves something to be found.
fn is_open_answer(answer: Answer) -> bool
    ensures { IsOpenAnswer answer → IsTrue result }
{
    matches!(answer, Answer::Bounded { .. })
}

/// Whether two steps of paths are the same.
fn is_same_step(a: (Cut, Side), b: (Cut, Side)) -> bool
    ensures { IsTrue result → a ≡ b }
{
    a.0 == b.0 && a.1 == b.1
}

/// Whether two paths are the same.
fn is_same_path(a: &[(Cut, Side)], b: &[(Cut, Side)]) -> bool
    ensures { IsTrue result → a.now ≡ b.now }
{
    if a.len() != b.len() {
        return false;
    }
    for place in 0..a.len() {
        if !is_same_step(a[place], b[place]) {
            return false;
        }
    }
    true
}

/// Whether two jobs have the same path and the same value.
fn is_same_leaf(a: &OpenJob, b: &OpenJob) -> bool
    ensures path { IsTrue result → a.now.job.path.items ≡ b.now.job.path.items }
    ensures value { IsTrue result → a.now.value ≡ b.now.value }
{
    a.value == b.value && is_same_path(&a.job.path, &b.job.path)
}

/// Where a job stands among others from a place on; None where it doesn't.
fn place_of(others: &[OpenJob], from: usize, leaf: &OpenJob) -> Option<usize>
    ensures among { IfSome result (λ _. IsAmong (map told_job others.now) (told_job leaf.now)) }
    ensures below { IfSome result (λ i. i < length others.now) }
{
    for place in from..others.len() {
        if is_same_leaf(&others[place], leaf) {
            return Some(place);
        }
    }
    None
}

/// Whether a job has the number that stands at a place, and is worth less than a bound, where one is named.
fn may_be_worked_on(leaf: &OpenJob, jobs: &[u64], next: usize, until: Option<u64>) -> bool
    ensures { IsTrue result → MayBeWorkedOn jobs.now until (told_job leaf.now) }
{
    if next >= jobs.len() || jobs[next] != leaf.job.number {
        return false;
    }
    is_below(leaf.value, until)
}

/// The place behind that of a job among others; the same place where the job may be worked on, or isn't below the cost. None where
/// it is none of that.
fn pass_job(
    leaf: &OpenJob,
    others: &[OpenJob],
    place: usize,
    worked: bool,
    cost: Option<u64>,
) -> Option<usize>
    ensures { IfSome result (λ _. (jobs : List ℕ) (until : Option ℕ)
        → (IsTrue worked → MayBeWorkedOn jobs until (told_job leaf.now))
        → KeepsLeaf jobs until cost (map told_job others.now) (told_job leaf.now)) }
{
    if worked || !is_below(leaf.value, cost) {
        return Some(place);
    }
    let found = place_of(others, place, leaf)?;
    Some(found + 1)
}

/// The place behind a number, where a job has that number.
fn behind(leaf: &OpenJob, jobs: &[u64], next: usize) -> usize {
    match jobs.get(next) {
        Some(number) if *number == leaf.job.number => next.saturating_add(1),
        _ => next,
    }
}

/// Whether each job may be worked on, or isn't below the cost, or is among the others, in their order.
fn keep_leaves(
    leaves: &[OpenJob],
    others: &[OpenJob],
    jobs: &[u64],
    until: Option<u64>,
    cost: Option<u64>,
) -> bool
    ensures { IsTrue result
        → KeepLeaves jobs.now until cost (map told_job others.now) (map told_job leaves.now) }
{
    let mut place = 0usize;
    let mut next = 0usize;
    for leaf in leaves {
        let worked = may_be_worked_on(leaf, jobs, next, until);
        let Some(behind_it) = pass_job(leaf, others, place, worked, cost) else {
            return false;
        };
        place = behind_it;
        next = behind(leaf, jobs, next);
    }
    true
}

/// Whether the open leaves of a valid certificate that weren't to be worked on are open leaves of another one at the end of the
/// same paths, and show as much, but for those that aren't below its cost. Those to be worked on are told by their numbers as
/// jobs, which rise; where a bound is named, only those below it are. True where the other one's answer isn't open. The one
/// refusal is of memory.
pub fn keeps_others(
    alloc: Global,
    instance: &Instance,
    base: &Fronted,
    found: &Fronted,
    jobs: &[u64],
    until: Option<u64>,
) -> Result<bool, Memory>
    requires base { IsValid base.now.front instance.now base.now.content }
    requires found { IsValid found.now.front instance.now found.now.content }
    ensures { IfOk result
        (λ keeps. IsTrue keeps → KeepsOtherLeaves instance.now base.now jobs.now until found.now) }
{
    let answer = found.certificate.answer();
    if !is_open_answer(answer) {
        return Ok(true);
    }
    let leaves = sharp_jobs(alloc, instance, base)?;
    match sharp_jobs(alloc, instance, found) {
        Ok(others) => {
            let keeps = keep_leaves(&leaves, &others, jobs, until, answer.cost());
            drop(others);
            drop(leaves);
            Ok(keeps)
        }
        Err(refused) => {
            drop(leaves);
            Err(refused)
        }
    }
}
