//! What was found for jobs, judged by a board on which their leaves are lent.

ghost use Rattle.std.specs.Prelude.{◌≡◌, ◌≤◌, ◌+◌, ℕ, List, map, All, Some, IfOk, IfErr, IfSome, OnOk, None};
ghost use Rattle.std.specs.List.{AllZip};
ghost use Rattle.std.specs.Global.{Vec};
ghost use Rattle.pesp_truth.specs.declared.tree.TreeLine.{TreeLine};
ghost use Rattle.std.specs.List.Sorted.{IsStrictlyIncreasing};
ghost use Rattle.pesp_truth.specs.Certificates.{IsValid, cost_of};
ghost use Rattle.pesp_truth.specs.Trees.{line_of};
ghost use Rattle.pesp_tree.specs.declared.work.Work.TheVariants.{Tree};
ghost use Rattle.pesp_tree.specs.States.{IsLentNumber};
ghost use Rattle.pesp_branching.specs.Rooms.{branch_lines};
ghost use Rattle.pesp_worker.specs.Holding.{KeepsOthers};
ghost use Rattle.pesp_worker.specs.HandingIn.{Fits, IsFound, IsWholeFrom, IsJudged, AreHandedIn, branches_of, AreWorksOn, AreWorkRefusal};

use crate::copies::{copy_pairs, one_line};
use crate::cutting_out::branches_in;
use crate::held_leaves::is_taken;
use crate::lend_base;
use crate::refusal::WorkRefusal;
use crate::shared_search::{SplitLimits, add, are_there};
use pesp_board::{Board, Work};
use pesp_cert::Certificate;
use pesp_cert_items::WorkText;
use pesp_problem::{Instance, Memory};
use pesp_truth::TreeLine;
use std::alloc::Global;

/// A tree that may be handed in, and how many branches it has.
#[derive(Drop)]
struct JudgedTree {
    tree: Vec<TreeLine>,
    branches: u32,
}

/// A leaf alone, as a tree that may be handed in.
fn alone(tree: Vec<TreeLine>) -> JudgedTree
    ensures tree { result.tree ≡ tree }
    ensures branches { result.branches ≡ 0 }
{
    JudgedTree { tree, branches: 0 }
}

/// How many branches lines have; None where they have more than so many.
fn branches_among(lines: &[TreeLine], most: u32) -> Option<u32>
    ensures { IfSome result
        (λ count. (branch_lines (map line_of lines.now) ≡ count) × (count ≤ most)) }
{
    let mut count = 0;
    for line in lines {
        let own = branches_in(line);
        if own > most - count {
            return None;
        }
        count += own;
    }
    Some(count)
}

/// The leaf with which the number is lent, as a tree.
fn own_tree(alloc: Global, board: &Board, number: u64) -> Result<Vec<TreeLine>, Memory>
    requires { IsLentNumber board.now.state number }
    ensures fits { IfOk result (λ tree. Fits board.now.problem board.now.state number tree.items) }
    ensures leaf { IfOk result (λ tree. branch_lines (map line_of tree.items) ≡ 0) }
{
    let _best = board.best();
    let _table = board.problem().table();
    let Some((_, pairs)) = board.job_leaf(number) else {
        unreachable!();
    };
    let copy = copy_pairs(alloc, pairs)?;
    one_line(alloc, TreeLine::Bound(copy))
}

/// The lines of a work that is a tree.
fn lines_in(work: Work) -> Option<Vec<TreeLine>>
    ensures { (lines : Vec TreeLine) → work ≡ Tree lines → result ≡ Some lines }
{
    match work {
        Work::Tree(lines) => Some(lines),
        Work::Leaf(_pairs) => None,
        Work::Nothing(_pairs) => None,
        Work::Gap(_cycle) => None,
        Work::Propagated => None,
        Work::Split(_cut) => None,
    }
}

/// The lines as they are, where the board takes them for the number.
fn taken(
    alloc: Global,
    board: &mut Board,
    number: u64,
    lines: Vec<TreeLine>,
) -> Result<Option<Vec<TreeLine>>, Memory>
    ensures problem { board.new.problem ≡ board.old.problem }
    ensures fits { IfOk result (λ found. IfSome found
        (λ tree. (tree ≡ lines) × Fits board.old.problem board.old.state number tree.items)) }
    ensures others { OnOk result (KeepsOthers board.old.state number board.new.state) }
{
    let _best = board.best();
    let _table = board.problem().table();
    let work = Work::Tree(lines);
    let taken = is_taken(board.give(alloc, number, &work))?;
    if !taken {
        return Ok(None);
    }
    Ok(lines_in(work))
}

/// How many branches the tree for a number may have, where it may have at most so many: none where the leaf with which it is
/// lent is worth as much as is named.
fn room_for(board: &Board, number: u64, most: u32, until: Option<u64>) -> u32
    ensures few { result ≤ most }
    ensures whole { IsWholeFrom board.now.problem board.now.state until number result }
{
    let Some(bound) = until else {
        return most;
    };
    let Some((value, _)) = board.job_leaf(number) else {
        return 0;
    };
    if value < bound { most } else { 0 }
}

/// The lines, where they have at most so many branches and may stand in the place of the leaf with which the number is lent;
/// else that leaf alone.
fn judged_on(
    alloc: Global,
    board: &mut Board,
    number: u64,
    most: u32,
    found: Vec<TreeLine>,
) -> Result<JudgedTree, Memory>
    requires { IsLentNumber board.old.state number }
    ensures problem { board.new.problem ≡ board.old.problem }
    ensures fits { IfOk result
        (λ judged. Fits board.old.problem board.old.state number judged.tree.items) }
    ensures branches { IfOk result
        (λ judged. branch_lines (map line_of judged.tree.items) ≡ judged.branches) }
    ensures few { IfOk result (λ judged. judged.branches ≤ most) }
    ensures others { OnOk result (KeepsOthers board.old.state number board.new.state) }
{
    let own = own_tree(alloc, board, number)?;
    let Some(branches) = branches_among(&found, most) else {
        return Ok(alone(own));
    };
    match taken(alloc, board, number, found)? {
        Some(tree) => Ok(JudgedTree { tree, branches }),
        None => Ok(alone(own)),
    }
}

/// Judges the tree of a work that was found, where it may have at most so many branches; and how many may follow.
fn judge_next(
    alloc: Global,
    board: &mut Board,
    found: WorkText,
    left: u32,
    until: Option<u64>,
) -> Result<(WorkText, u32), Memory>
    requires { IsLentNumber board.old.state found.job }
    ensures problem { board.new.problem ≡ board.old.problem }
    ensures judged { IfOk result
        (λ made. IsJudged board.old.problem board.old.state until found made.0) }
    ensures left { IfOk result (λ made. branches_of made.0 + made.1 ≡ left) }
    ensures others { OnOk result (KeepsOthers board.old.state found.job board.new.state) }
{
    let WorkText { job, times, tree } = found;
    let most = room_for(board, job, left, until);
    let JudgedTree { tree, branches } = judged_on(alloc, board, job, most, tree)?;
    Ok((WorkText { job, times, tree }, left - branches))
}

/// Judges the trees of works that were found, whose jobs rise, where they may have at most so many branches in all.
fn judge_each(
    alloc: Global,
    board: &mut Board,
    found: Vec<WorkText>,
    steps: u32,
    until: Option<u64>,
) -> Result<Vec<WorkText>, Memory>
    requires rise { IsStrictlyIncreasing (map (λ work. work.job) found.items) }
    requires lent { All (λ work. IsLentNumber board.old.state work.job) found.items }
    ensures { IfOk result
        (λ works. AreHandedIn board.old.problem board.old.state steps until found.items works.items) }
{
    let _best = board.best();
    let mut works = Vec::new(alloc);
    let mut left = steps;
    for work in found {
        let (judged, rest) = judge_next(alloc, board, work, left, until)?;
        left = rest;
        add(&mut works, judged)?;
    }
    Ok(works)
}

/// The works that were found for jobs, each with a tree that may stand in the place of the job's leaf: the one that was found,
/// where the trees so far have at most so many branches, else the leaf alone.
pub(crate) fn judged(
    alloc: Global,
    instance: &Instance,
    base: &Certificate,
    jobs: &[u64],
    range: SplitLimits,
    found: Vec<WorkText>,
) -> Result<Vec<WorkText>, WorkRefusal>
    requires valid { IsValid None instance.now base.now }
    requires rise { IsStrictlyIncreasing jobs.now }
    requires found { AllZip (IsFound instance.now (cost_of base.now.answer)) jobs.now found.items }
    ensures works { IfOk result (λ works. AreWorksOn instance.now base.now jobs.now range.steps range.until works.items) }
    ensures refused { IfErr result (AreWorkRefusal instance.now base.now jobs.now) }
{
    let mut lent = lend_base(alloc, instance, base)?;
    if !are_there(jobs, &lent) {
        drop(lent);
        return Err(WorkRefusal::NoSuchJob);
    }
    let works = judge_each(alloc, &mut lent.board, found, range.steps, range.until)?;
    Ok(works)
}
