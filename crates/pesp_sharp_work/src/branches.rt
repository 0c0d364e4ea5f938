//! Whether branches leave both of their parts an offset.

ghost use Rattle.std.specs.Prelude.{◌≡◌, ◌≢◌, ◌≤◌, List, [], ◌∷◌, length, map, drop, unsigned_abs, IsTrue, IfOk};
ghost use Rattle.pesp_problem.specs.declared.limits.TheConstants.{MOST_OFFSET as MOST};
ghost use Rattle.pesp_problem.specs.declared.row.SignedRow.{SignedRow};
ghost use Rattle.pesp_problem.specs.declared.cut.Cut.TheVariants.{Offset};
ghost use Rattle.pesp_problem.specs.Arcs.{Net, net_of};
ghost use Rattle.pesp_problem.specs.Walks.{Names};
ghost use Rattle.pesp_problem.specs.Nodes as nodes;
ghost use Rattle.pesp_problem.specs.Nodes.{LeavesBoth};
ghost use Rattle.pesp_problem.specs.Nets.{AreNets};
ghost use Rattle.pesp_leaves.specs.Ranges.{node_of};
ghost use Rattle.pesp_judges.specs.Lines.{after};
ghost use Rattle.pesp_truth.specs.Certificates.{lines_of};
ghost use Rattle.pesp_truth.specs.Trees.{line_of};
ghost use Rattle.pesp_branching.specs.Rooms.{branch_lines};
ghost use Rattle.pesp_branching.specs.Turns.{HasBranches};
ghost use Rattle.pesp_sharp_work.specs.Parts.{LineLeavesBoth, LinesLeaveBoth};

use pesp_cert::Certificate;
use pesp_judges::{NodeWalk, Ranges, judge_cycles, root, zeros};
use pesp_problem::{Cut, Instance, MOST_OFFSET, Memory, Nets};
use pesp_truth::TreeLine;
use pesp_truth::laws::lines_are_one_tree;
use std::alloc::{AllocError, Global};

/// Whether a cycle has offsets on both sides of a cut.
fn has_both(ranges: &Ranges, cycle: u32, k: i64) -> bool
    ensures named { IsTrue result → Names (length ranges.now.offsets.items) cycle }
    ensures small { IsTrue result → unsigned_abs k ≤ MOST }
    ensures both { IsTrue result → LeavesBoth (node_of ranges.now) (Offset cycle k) }
{
    if cycle == 0 || cycle as usize > ranges.offsets.len() || k.unsigned_abs() > MOST_OFFSET {
        return false;
    }
    let range = ranges.offsets[cycle as usize - 1];
    range.0 <= k && k < range.1
}

/// Passes a cut of offsets; false where it doesn't leave both of its parts an offset.
fn pass_cut(walk: &mut NodeWalk<'_>, cycle: u32, k: i64) -> Result<bool, AllocError>
    requires { walk.old.nodes ≢ [] }
    ensures cycles { walk.new.cycles ≡ walk.old.cycles }
    ensures nodes { IfOk result (λ both. IsTrue both
        → walk.new.nodes ≡ after (line_of (TreeLine.Offset cycle k)) walk.old.nodes) }
    ensures both { IfOk result (λ both. IsTrue both → (n : Net) (table : List (List SignedRow))
        → length table ≡ walk.old.cycles
        → LineLeavesBoth n table (line_of (TreeLine.Offset cycle k)) walk.old.nodes) }
{
    if !has_both(walk.ranges(), cycle, k) {
        return Ok(false);
    }
    walk.branch(Cut::Offset { cycle, k })?;
    Ok(true)
}

/// Passes a leaf.
fn pass_leaf(walk: &mut NodeWalk<'_>) -> bool
    requires { walk.old.nodes ≢ [] }
    ensures cycles { walk.new.cycles ≡ walk.old.cycles }
    ensures nodes { walk.new.nodes ≡ drop 1 walk.old.nodes }
    ensures passed { IsTrue result }
{
    walk.leaf();
    true
}

/// Passes a line; false where it is a branch that cuts no offsets or doesn't leave both of its parts one.
fn pass_line(walk: &mut NodeWalk<'_>, line: &TreeLine) -> Result<bool, AllocError>
    requires { walk.old.nodes ≢ [] }
    ensures cycles { walk.new.cycles ≡ walk.old.cycles }
    ensures nodes { IfOk result
        (λ both. IsTrue both → walk.new.nodes ≡ after (line_of line.now) walk.old.nodes) }
    ensures both { IfOk result (λ both. IsTrue both → (n : Net) (table : List (List SignedRow))
        → length table ≡ walk.old.cycles
        → LineLeavesBoth n table (line_of line.now) walk.old.nodes) }
{
    match line {
        TreeLine::Slack { .. } => Ok(false),
        TreeLine::Offset { cycle, k } => pass_cut(walk, *cycle, *k),
        TreeLine::Bound(_) | TreeLine::Nothing(_) | TreeLine::Gap(_) | TreeLine::Propagated => Ok(
            pass_leaf(walk),
        ),
    }
}

/// Passes lines, until one is such a branch.
fn pass_lines(walk: &mut NodeWalk<'_>, lines: &[TreeLine]) -> Result<bool, AllocError>
    ensures { IfOk result (λ both. IsTrue both → (n : Net) (table : List (List SignedRow))
        → length table ≡ walk.old.cycles
        → LinesLeaveBoth n table (map line_of lines.now) walk.old.nodes) }
{
    for line in lines {
        if walk.is_done() || !pass_line(walk, line)? {
            return Ok(false);
        }
    }
    Ok(true)
}

/// Whether the lines of a tree over cycles of these net counts leave both parts of each branch an offset.
fn leave_both(
    alloc: Global,
    instance: &Instance,
    table: &[Nets],
    lines: &[TreeLine],
) -> Result<bool, Memory>
    requires { (walks : List (List SignedRow)) × AreNets (length instance.now.rows) walks table.now }
    ensures { IfOk result (λ both. IsTrue both → (walks : List (List SignedRow))
        → AreNets (length instance.now.rows) walks table.now
        → LinesLeaveBoth (net_of instance.now) walks (map line_of lines.now)
        (nodes.root (net_of instance.now) walks ∷ [])) }
{
    let ranges = root(alloc, instance, table)?;
    let mut walk = NodeWalk::new(alloc, instance, ranges);
    let both = pass_lines(&mut walk, lines)?;
    Ok(both)
}

/// Whether each branch of a certificate's tree cuts offsets of a cycle, and leaves both of its parts an offset of the range that
/// it cuts. False where a cycle is no walk of the instance. The one refusal is of memory.
pub fn branches_leave_both(
    alloc: Global,
    instance: &Instance,
    certificate: &Certificate,
) -> Result<bool, Memory>
    ensures { IfOk result (λ both. IsTrue both
        → HasBranches (net_of instance.now) certificate.now (branch_lines (lines_of certificate.now))) }
{
    lines_are_one_tree();
    let mut working = zeros(alloc, instance.rows().len())?;
    match judge_cycles(alloc, instance, certificate.cycles(), 0, &mut working)? {
        Ok(table) => leave_both(alloc, instance, &table, certificate.tree()),
        Err(_refusal) => Ok(false),
    }
}
