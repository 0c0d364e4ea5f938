//! Lines of a tree once more, and lists of one line.

ghost use Rattle.std.specs.Prelude.{◌≡◌, ◌∷◌, [], IfOk};

use pesp_problem::{Memory, Pair, Pairs};
use pesp_truth::TreeLine;
use std::alloc::Global;

/// The same pairs once more.
pub(crate) fn copy_pairs(alloc: Global, pairs: &[Pair]) -> Result<Pairs, Memory>
    ensures { IfOk result (λ copy. copy ≡ pairs.now) }
{
    Ok(Pairs::new(pairs.to_vec(alloc)?))
}

/// The same line once more.
fn copy_line(alloc: Global, line: &TreeLine) -> Result<TreeLine, Memory> {
    match line {
        TreeLine::Slack { row, k } => Ok(TreeLine::Slack { row: *row, k: *k }),
        TreeLine::Offset { cycle, k } => Ok(TreeLine::Offset {
            cycle: *cycle,
            k: *k,
        }),
        TreeLine::Bound(pairs) => Ok(TreeLine::Bound(copy_pairs(alloc, pairs.as_slice())?)),
        TreeLine::Nothing(pairs) => Ok(TreeLine::Nothing(copy_pairs(alloc, pairs.as_slice())?)),
        TreeLine::Gap(cycle) => Ok(TreeLine::Gap(*cycle)),
        TreeLine::Propagated => Ok(TreeLine::Propagated),
    }
}

/// The same lines once more.
pub(crate) fn copy_lines(alloc: Global, lines: &[TreeLine]) -> Result<Vec<TreeLine>, Memory> {
    let mut copies = Vec::new(alloc);
    for line in lines {
        copies.push(copy_line(alloc, line)?)?;
    }
    Ok(copies)
}

/// The list of one line.
pub(crate) fn one_line(alloc: Global, line: TreeLine) -> Result<Vec<TreeLine>, Memory>
    ensures { IfOk result (λ lines. lines.items ≡ line ∷ []) }
{
    let mut lines = Vec::new(alloc);
    lines.push(line)?;
    Ok(lines)
}
