//! Events of a board.

ghost use Rattle.std.specs.Prelude.{◌≡◌};
ghost use Rattle.pesp_tree.specs.Certificates.{IsProblemOf};

use crate::boards::Event;
use pesp_board::{Board, Job, Work};
use pesp_cert::TreeLine;
use pesp_part_tests::{Case, cut_of, pairs_of, small, split_word, tell_cut, times_of, words_of};
use pesp_problem::{Cut, Instance, Pairs, Side};
use std::alloc::Global;

/// A job that was lent: its number, and the path to it in words.
#[derive(Drop)]
pub(crate) struct LentJob {
    number: u64,
    path: String,
}

/// The number that the question's first word names.
/// It is one, or `low` or `high` for the last job on this side.
pub(crate) fn number_of(case: Case<'_>, lent: &[LentJob]) -> Option<u64> {
    let word = case.word(0)?;
    if let Ok(number) = word.parse() {
        return Some(number);
    }
    let mut last = None;
    for job in lent {
        if job.path.as_str().ends_with(word) {
            last = Some(job.number);
        }
    }
    last
}

/// The path to a job.
pub(crate) fn path_of<'a>(lent: &'a [LentJob], number: u64) -> Option<&'a str> {
    for job in lent {
        if job.number == number {
            return Some(job.path.as_str());
        }
    }
    None
}

/// Tells what becomes of an event.
pub(crate) fn change(
    case: Case<'_>,
    board: &mut Board,
    lent: &mut Vec<LentJob>,
    event: Event,
    told: &mut String,
) -> Option<()>
    ensures { board.new.problem ≡ board.old.problem }
{
    match event {
        Event::Lend => match case.rest {
            "" => lend(case.alloc, board, lent, told),
            "all" => lend_all(case.alloc, board, lent, told),
            _ => None,
        },
        Event::Recall => {
            let number = number_of(case, lent)?;
            write!(told, " {}", board.recall(number)).ok()
        }
        Event::Offer => {
            let times = times_of(case)?;
            write!(told, " {}", board.offer(times)).ok()
        }
        _ => give(case, board, lent, told),
    }
}

/// Tells a branch of a path with the side that is taken.
fn tell_branch(cut: Cut, side: Side, told: &mut String) -> Option<()> {
    tell_cut(cut, told)?;
    told.push_str(match side {
        Side::Low => " low",
        Side::High => " high",
    })
    .ok()
}

/// Tells a path; `root` where it has no branch.
fn tell_path(path: &[(Cut, Side)], told: &mut String) -> Option<()> {
    for (cut, side) in path {
        tell_branch(*cut, *side, told)?;
    }
    told.push_str(if path.is_empty() { " root" } else { "" })
        .ok()
}

/// A job with its path in words.
fn lent_job(alloc: Global, job: &Job) -> Option<LentJob> {
    let mut path = String::new(alloc);
    tell_path(&job.path, &mut path)?;
    Some(LentJob {
        number: job.number,
        path,
    })
}

/// Tells a job, and keeps it.
fn keep_job(alloc: Global, job: &Job, lent: &mut Vec<LentJob>, told: &mut String) -> Option<()> {
    let number = job.number;
    write!(told, " job {number}").ok()?;
    lent.push(lent_job(alloc, job)?).ok()
}

/// Lends a leaf.
fn lend(alloc: Global, board: &mut Board, lent: &mut Vec<LentJob>, told: &mut String) -> Option<()>
    ensures { board.new.problem ≡ board.old.problem }
{
    match board.lend(alloc) {
        Ok(Some(job)) => keep_job(alloc, &job, lent, told),
        Ok(None) => told.push_str(" none").ok(),
        Err(refusal) => write!(told, " {refusal:?}").ok(),
    }
}

/// Tells a job with its path, and keeps it.
fn keep_with_path(
    alloc: Global,
    job: &Job,
    lent: &mut Vec<LentJob>,
    told: &mut String,
) -> Option<()> {
    keep_job(alloc, job, lent, told)?;
    tell_path(&job.path, told)
}

/// Tells all jobs with their paths, and keeps them; `none` where there are none.
fn keep_jobs(
    alloc: Global,
    jobs: &[Job],
    lent: &mut Vec<LentJob>,
    told: &mut String,
) -> Option<()> {
    for job in jobs {
        keep_with_path(alloc, job, lent, told)?;
    }
    told.push_str(if jobs.is_empty() { " none" } else { "" })
        .ok()
}

/// Lends all open leaves.
fn lend_all(
    alloc: Global,
    board: &mut Board,
    lent: &mut Vec<LentJob>,
    told: &mut String,
) -> Option<()>
    ensures { board.new.problem ≡ board.old.problem }
{
    match board.lend_all(alloc) {
        Ok(jobs) => keep_jobs(alloc, &jobs, lent, told),
        Err(refusal) => write!(told, " {refusal:?}").ok(),
    }
}

/// The pairs of words.
fn pairs_from(alloc: Global, words: &[&str]) -> Option<Pairs> {
    Some(Pairs::new(pairs_of(alloc, words)?))
}

/// A line of a tree, as a certificate has it.
fn tree_line_of(alloc: Global, words: &[&str]) -> Option<TreeLine> {
    let (first, rest) = words.split_first()?;
    match *first {
        "b" => Some(TreeLine::Bound(pairs_from(alloc, rest)?)),
        "n" => Some(TreeLine::Nothing(pairs_from(alloc, rest)?)),
        "g" => Some(TreeLine::Gap(small(rest, 0)?)),
        "p" => Some(TreeLine::Propagated),
        _ => match cut_of(words)? {
            Cut::Slack { row, k } => Some(TreeLine::Slack { row, k }),
            Cut::Offset { cycle, k } => Some(TreeLine::Offset { cycle, k }),
        },
    }
}

/// The lines of a tree, each with a ` /` behind it.
fn tree_lines_of(alloc: Global, text: &str) -> Option<Vec<TreeLine>> {
    let mut lines = Vec::new(alloc);
    for line in text.split(" /") {
        if !line.is_empty() {
            lines
                .push(tree_line_of(alloc, &words_of(alloc, line)?)?)
                .ok()?;
        }
    }
    Some(lines)
}

/// The work of a text: a line of a leaf or a branch.
/// Or it is `tree` with the lines of a tree.
fn work_of(alloc: Global, text: &str) -> Option<Work> {
    let (first, rest) = split_word(text);
    if first == "tree" {
        return Some(Work::Tree(tree_lines_of(alloc, rest)?));
    }
    Some(match tree_line_of(alloc, &words_of(alloc, text)?)? {
        TreeLine::Bound(pairs) => Work::Leaf(pairs),
        TreeLine::Nothing(pairs) => Work::Nothing(pairs),
        TreeLine::Gap(cycle) => Work::Gap(cycle),
        TreeLine::Propagated => Work::Propagated,
        TreeLine::Slack { row, k } => Work::Split(Cut::Slack { row, k }),
        TreeLine::Offset { cycle, k } => Work::Split(Cut::Offset { cycle, k }),
    })
}

/// Gives work for a job, and tells what becomes of it.
fn give(case: Case<'_>, board: &mut Board, lent: &[LentJob], told: &mut String) -> Option<()>
    ensures { board.new.problem ≡ board.old.problem }
{
    let number = number_of(case, lent)?;
    let work = work_of(case.alloc, split_word(case.rest).1)?;
    match board.give(case.alloc, number, &work) {
        Ok(()) => told.push_str(" taken").ok(),
        Err(refusal) => write!(told, " {refusal:?}").ok(),
    }
}

/// Lends a leaf and recalls it.
fn spend_once(alloc: Global, board: &mut Board, number: u64) -> Option<()>
    ensures { board.new.problem ≡ board.old.problem }
{
    if board.lend(alloc).ok()?.is_none() || !board.recall(number) {
        return None;
    }
    Some(())
}

/// Lends and recalls so many times.
pub(crate) fn spend(
    case: Case<'_>,
    instance: &Instance,
    board: &mut Board,
    told: &mut String,
) -> Option<()>
    requires { IsProblemOf instance.now board.old.problem }
    ensures { IsProblemOf instance.now board.new.problem }
{
    for number in 0..case.number(0)? {
        spend_once(case.alloc, board, u64::from(number))?;
    }
    told.push_str(" recalled").ok()
}
