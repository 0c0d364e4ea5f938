//! Branches of a tree.

ghost use Rattle.std.specs.Prelude.{◌≡◌, ◌∷◌, [], ◌≤◌, length, map};
ghost use Rattle.pesp_problem.specs.declared.limits.TheConstants.{MOST_LINES};
ghost use Rattle.pesp_truth.specs.Trees.{line_of};
ghost use Rattle.pesp_branching.specs.Rooms.{branch_lines};

use pesp_truth::TreeLine;

/// How many branches a line has: 1 for a branch, 0 for a leaf.
fn branches_in(line: &TreeLine) -> u32
    ensures value { result ≡ branch_lines (line_of line.now ∷ []) }
    ensures most { result ≤ 1 }
{
    match line {
        TreeLine::Slack { .. } | TreeLine::Offset { .. } => 1,
        TreeLine::Bound(_) | TreeLine::Nothing(_) | TreeLine::Gap(_) | TreeLine::Propagated => 0,
    }
}

/// How many branches lines have.
pub(crate) fn count_branches(lines: &[TreeLine]) -> u32
    requires { length lines.now ≤ MOST_LINES }
    ensures { result ≡ branch_lines (map line_of lines.now) }
{
    let mut count = 0u32;
    for line in lines {
        count += branches_in(line);
    }
    count
}
