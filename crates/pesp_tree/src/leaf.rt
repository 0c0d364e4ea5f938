//! The leaves of a tree under work.

ghost use Rattle.std.specs.Prelude.{◌≡◌, IfOk};
ghost use Rattle.pesp_truth.specs.Trees.{EndLine, line_of};
ghost use Rattle.pesp_tree.specs.Leaves.{leaf_of};

use pesp_problem::{Memory, Pairs};
use pesp_truth::TreeLine;
use std::alloc::Global;

/// A leaf of a tree under work: a bound by its pairs, pairs that show that no timetable lies there, a cycle, numbered from 1,
/// that has no offset left there, or a node whose slack ranges support no family of time differences.
#[derive(Drop)]
pub enum Leaf {
    Bound(Pairs),
    Nothing(Pairs),
    Gap(u32),
    Propagated,
}

/// The same pairs once more.
fn copy_of(alloc: Global, pairs: &Pairs) -> Result<Pairs, Memory>
    ensures { IfOk result (λ copy. copy ≡ pairs.now) }
{
    let copy = pairs.as_slice().to_vec(alloc)?;
    Ok(Pairs::new(copy))
}

/// The line of a leaf.
pub(crate) fn leaf_line(alloc: Global, leaf: &Leaf) -> Result<TreeLine, Memory>
    ensures { IfOk result (λ line. line_of line ≡ EndLine (leaf_of leaf.now)) }
{
    match leaf {
        Leaf::Bound(pairs) => Ok(TreeLine::Bound(copy_of(alloc, pairs)?)),
        Leaf::Nothing(pairs) => Ok(TreeLine::Nothing(copy_of(alloc, pairs)?)),
        Leaf::Gap(cycle) => Ok(TreeLine::Gap(*cycle)),
        Leaf::Propagated => Ok(TreeLine::Propagated),
    }
}
