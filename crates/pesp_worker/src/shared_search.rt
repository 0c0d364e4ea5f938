//! The search for trees and for times on a board where the leaves of jobs are open.

ghost use Rattle.std.specs.Prelude.{◌≡◌, ◌⊎◌, ◌≤◌, ◌<◌, ◌++◌, ◌∷◌, [], ℕ, length, All, Contains, IfOk, IfErr, IfSome, OnOk, IsTrue, false, None};
ghost use Rattle.std.specs.List.{AllZip};
ghost use Rattle.pesp_problem.specs.declared.limits.TheConstants.{MOST_STEPS};
ghost use Rattle.pesp_problem.specs.Timetables.{Pesp};
ghost use Rattle.pesp_truth.specs.Certificates.{IsValid, cost_of};
ghost use Rattle.pesp_tree.specs.Events.{IsCheaper};
ghost use Rattle.pesp_tree.specs.Certificates.{IsProblemOf};
ghost use Rattle.pesp_worker.specs.HandingIn.{AreTimesFor, AreShort, IsFound, AreWorkRefusal};

use crate::cutting_out::{count_branches, cut_out, ends_of};
use crate::improved_leaf::improve_leaf;
use crate::refusal::WorkRefusal;
use crate::splits::split_on;
use crate::{Lent, lend_base};
use pesp_board::{Board, Job};
use pesp_cert::Certificate;
use pesp_cert_items::WorkText;
use pesp_forest::TimesFinder;
use pesp_problem::{Instance, Memory};
use pesp_truth::{Answer, TreeLine};
use std::alloc::Global;
use std::mem;

/// How many leaves may be split, and from which value on none is.
#[derive(Clone, Copy)]
pub(crate) struct SplitLimits {
    pub(crate) steps: u32,
    pub(crate) until: Option<u64>,
}

/// The cost of an answer, where it has one.
fn cost_in(answer: Answer) -> Option<u64>
    ensures { result ≡ cost_of answer }
{
    match answer {
        Answer::Optimal(cost) => Some(cost),
        Answer::Infeasible => None,
        Answer::Bounded { cost, .. } => cost,
    }
}

/// Whether a cost is below another one, where that is known.
fn is_cheaper(cost: u64, known: Option<u64>) -> bool
    ensures { IsTrue result → IsCheaper cost known }
{
    match known {
        None => true,
        Some(known) => cost < known,
    }
}

/// Whether there is a cost and it is below another one, where that is known.
fn costs_less(cost: Option<u64>, known: Option<u64>) -> bool
    ensures { IsTrue result → IfSome cost (λ c. IsCheaper c known) }
{
    match cost {
        None => false,
        Some(cost) => is_cheaper(cost, known),
    }
}

/// The same times once more.
fn copy_times(alloc: Global, times: &[(i64, u32)]) -> Result<Vec<(i64, u32)>, Memory>
    ensures { IfOk result (λ copy. copy.items ≡ times.now) }
{
    Ok(times.to_vec(alloc)?)
}

/// The times that a certificate shows, where they cost less than so much, or where no cost is known.
fn shown(
    alloc: Global,
    certificate: &Certificate,
    known: Option<u64>,
) -> Result<Vec<(i64, u32)>, Memory>
    ensures times { (instance : Pesp) → IsValid None instance certificate.now
        → IfOk result (λ times. AreTimesFor instance known times.items) }
    ensures short { IfOk result (λ times. AreShort times.items) }
{
    let cost = cost_in(certificate.answer());
    if !costs_less(cost, known) {
        return Ok(Vec::new(alloc));
    }
    let copy = copy_times(alloc, certificate.times())?;
    Ok(copy)
}

/// Whether there are jobs of all these numbers.
pub(crate) fn are_there(jobs: &[u64], lent: &Lent) -> bool
    ensures there { IsTrue result → All (λ job. job < length lent.now.jobs.items) jobs.now }
    ensures missing { result ≡ false
        → (job : ℕ) × Contains jobs.now job × (length lent.now.jobs.items ≤ job) }
{
    for job in jobs {
        if *job >= lent.jobs.len() as u64 {
            return false;
        }
    }
    true
}

/// Gives the leaves of jobs back, so that they are open.
fn recall_all(board: &mut Board, jobs: &[u64])
    ensures { board.new.problem ≡ board.old.problem }
{
    for job in jobs {
        board.recall(*job);
    }
}

/// Opens the leaves of jobs, and looks at one that is worked on alone anew: whether they are to be split.
fn open_jobs(alloc: Global, board: &mut Board, jobs: &[u64], steps: u32) -> Result<bool, Memory>
    ensures { board.new.problem ≡ board.old.problem }
{
    recall_all(board, jobs);
    if jobs.len() == 1 && !improve_leaf(alloc, board)? {
        return Ok(false);
    }
    Ok(steps > 0)
}

/// Works on the leaves of jobs; a leaf that is worked on alone is looked at anew first.
fn work_on<F: TimesFinder>(
    alloc: Global,
    instance: &Instance,
    board: Board,
    base: &Certificate,
    jobs: &[u64],
    range: SplitLimits,
    finder: &mut F,
) -> Result<Board, Memory>
    requires { range.steps ≤ MOST_STEPS }
    ensures { IfOk result (λ worked. worked.problem ≡ board.problem) }
{
    let mut board = board;
    match open_jobs(alloc, &mut board, jobs, range.steps) {
        Ok(true) => {
            let before = count_branches(base.tree());
            let SplitLimits { steps, until } = range;
            split_on(alloc, instance, board, before, steps, until, finder)
        }
        Ok(false) => Ok(board),
        Err(refused) => {
            drop(board);
            Err(refused)
        }
    }
}

/// The tree in the place of the leaf of a job.
fn tree_for(
    alloc: Global,
    lines: &[TreeLine],
    ends: &[usize],
    leaves: &[Job],
    job: u64,
) -> Result<Vec<TreeLine>, Memory> {
    match leaves.get(job as usize) {
        Some(leaf) => cut_out(alloc, lines, ends, &leaf.path),
        None => Ok(Vec::new(alloc)),
    }
}

/// Adds a work.
pub(crate) fn add(works: &mut Vec<WorkText>, work: WorkText) -> Result<(), Memory>
    ensures { OnOk result (works.new.items ≡ works.old.items ++ work ∷ []) }
{
    works.push(work)?;
    Ok(())
}

/// A work for each job with the tree in the place of its leaf, which are these; the first has the times.
fn works_of(
    alloc: Global,
    lines: &[TreeLine],
    leaves: &[Job],
    jobs: &[u64],
    times: Vec<(i64, u32)>,
) -> Result<Vec<WorkText>, Memory>
    ensures { IfOk result (λ works. AllZip (λ job work. (work.job ≡ job)
        × ((work.times ≡ []) ⊎ (work.times ≡ times.items))) jobs.now works.items) }
{
    let ends = ends_of(alloc, lines)?;
    let mut left = times;
    let mut works = Vec::new(alloc);
    for job in jobs {
        let times = mem::replace(&mut left, Vec::new(alloc));
        let tree = tree_for(alloc, lines, &ends, leaves, *job)?;
        let job = *job;
        add(&mut works, WorkText { job, times, tree })?;
    }
    Ok(works)
}

/// What a board that was worked on has for each job: the tree in the place of its leaf, which are these; and times that cost less
/// than those of the base.
fn works_on(
    alloc: Global,
    instance: &Instance,
    board: &Board,
    base: &Certificate,
    leaves: &[Job],
    jobs: &[u64],
) -> Result<Vec<WorkText>, Memory>
    requires of { IsProblemOf instance.now board.now.problem }
    ensures found { IfOk result (λ works. AllZip (IsFound instance.now (cost_of base.now.answer)) jobs.now works.items) }
{
    let certificate = board.certificate(alloc, instance)?;
    let times = shown(alloc, &certificate, cost_in(base.answer()))?;
    works_of(alloc, certificate.tree(), leaves, jobs, times)
}

/// What is found for jobs of a base that is lent.
fn found_for<F: TimesFinder>(
    alloc: Global,
    instance: &Instance,
    lent: Lent,
    base: &Certificate,
    jobs: &[u64],
    range: SplitLimits,
    finder: &mut F,
) -> Result<Vec<WorkText>, Memory>
    requires of { IsProblemOf instance.now lent.board.problem }
    requires few { range.steps ≤ MOST_STEPS }
    ensures found { IfOk result (λ works. AllZip (IsFound instance.now (cost_of base.now.answer)) jobs.now works.items) }
{
    let Lent {
        board,
        jobs: leaves,
    } = lent;
    match work_on(alloc, instance, board, base, jobs, range, finder) {
        Ok(worked) => {
            let works = works_on(alloc, instance, &worked, base, &leaves, jobs);
            drop(worked);
            drop(leaves);
            works
        }
        Err(refused) => {
            drop(leaves);
            Err(refused)
        }
    }
}

/// Searches below the leaves of jobs for a tree in the place of each, and for times that are cheaper than those of the base. The
/// trees are still to be judged.
pub(crate) fn search_below<F: TimesFinder>(
    alloc: Global,
    instance: &Instance,
    base: &Certificate,
    jobs: &[u64],
    range: SplitLimits,
    finder: &mut F,
) -> Result<Vec<WorkText>, WorkRefusal>
    requires valid { IsValid None instance.now base.now }
    requires few { range.steps ≤ MOST_STEPS }
    ensures found { IfOk result (λ works. AllZip (IsFound instance.now (cost_of base.now.answer)) jobs.now works.items) }
    ensures refused { IfErr result (AreWorkRefusal instance.now base.now jobs.now) }
{
    let lent = lend_base(alloc, instance, base)?;
    if !are_there(jobs, &lent) {
        drop(lent);
        return Err(WorkRefusal::NoSuchJob);
    }
    let works = found_for(alloc, instance, lent, base, jobs, range, finder)?;
    Ok(works)
}
