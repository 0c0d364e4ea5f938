//! What a board certifies, from its parts.

ghost use Rattle.std.specs.Prelude.{◌≡◌, length, map, IfOk, IfSome};
ghost use Rattle.std.specs.List.{zip};
ghost use Rattle.pesp_truth.specs.Trees.{line_of};
ghost use Rattle.pesp_tree.specs.Certificates as spec;
ghost use Rattle.pesp_board.specs.Insides.{times_of};

use crate::best::Best;
use pesp_problem::{Memory, Walk};
use pesp_truth::{Answer, TreeLine};
use std::alloc::Global;

/// The answer of the least value of a bound leaf and the best cost: optimal where the first is at least the second, infeasible
/// where there is no bound leaf, else open.
pub(crate) fn answer_of(least: Option<u64>, best: Option<u64>) -> Answer
    ensures { result ≡ spec.answer_of least best }
{
    let Some(least) = least else {
        return Answer::Infeasible;
    };
    match best {
        Some(cost) if cost <= least => Answer::Optimal(cost),
        _ => Answer::Bounded { least, cost: best },
    }
}

/// Each label with its time.
fn labelled(alloc: Global, labels: &[i64], times: &[u32]) -> Result<Vec<(i64, u32)>, Memory>
    ensures { IfOk result (λ shown. shown.items ≡ zip labels.now times.now) }
{
    let pairs = labels.iter().copied().zip(times.iter().copied());
    Ok(pairs.collect(alloc)?)
}

/// The best times with the labels of their events; none where there are none.
pub(crate) fn shown_times(
    alloc: Global,
    labels: &[i64],
    best: &Option<Best>,
) -> Result<Vec<(i64, u32)>, Memory>
    requires { IfSome (times_of best.now) (λ times. length labels.now ≡ length times) }
    ensures { IfOk result (λ shown. spec.ShowsBest labels.now (times_of best.now)
        (map (λ t. t.0) shown.items) (map (λ t. t.1) shown.items)) }
{
    match best {
        None => Ok(Vec::new(alloc)),
        Some(best) => labelled(alloc, labels, &best.times),
    }
}

/// Whether the line is that of a leaf that propagation shuts.
fn is_propagated(line: &TreeLine) -> bool
    ensures { result ≡ spec.is_propagated (line_of line.now) }
{
    match line {
        TreeLine::Propagated => true,
        TreeLine::Slack { .. } => false,
        TreeLine::Offset { .. } => false,
        TreeLine::Bound(_) => false,
        TreeLine::Nothing(_) => false,
        TreeLine::Gap(_) => false,
    }
}

/// The version of a text with these lines of a tree: 2 where propagation shuts a leaf, else 1.
pub(crate) fn version_of(lines: &[TreeLine]) -> u32
    ensures { result ≡ spec.version_of (map line_of lines.now) }
{
    for line in lines {
        if is_propagated(line) {
            return 2;
        }
    }
    1
}

/// The same walk once more.
fn copy_of(alloc: Global, walk: &Walk) -> Result<Walk, Memory>
    ensures { IfOk result (λ copy. copy ≡ walk.now) }
{
    let rows = walk.rows().to_vec(alloc)?;
    Ok(Walk::new(rows))
}

/// The same walks once more.
pub(crate) fn copy_table(alloc: Global, table: &[Walk]) -> Result<Vec<Walk>, Memory>
    ensures { IfOk result (λ copies. copies.items ≡ table.now) }
{
    let mut copies = Vec::new(alloc);
    for walk in table {
        copies.push(copy_of(alloc, walk)?)?;
    }
    Ok(copies)
}
