//! Paths through a tree whose lines are passed in preorder.

ghost use Rattle.std.specs.Prelude.{◌≡◌, true, IfOk};
ghost use Rattle.pesp_truth.specs.Trees.{line_of};
ghost use Rattle.pesp_sharp_work.specs.Jobs.{paths_after};
ghost use Rattle.pesp_sharp_work.specs.Paths.{cut_in, paths_waiting, paths_branched, paths_passed};

use pesp_problem::{Cut, Memory, Side};
use pesp_truth::TreeLine;

/// The cut of a branch; None for a leaf.
fn cut_of(line: &TreeLine) -> Option<Cut>
    ensures { result ≡ cut_in (line_of line.now) }
{
    match line {
        TreeLine::Slack { row, k } => Some(Cut::Slack { row: *row, k: *k }),
        TreeLine::Offset { cycle, k } => Some(Cut::Offset {
            cycle: *cycle,
            k: *k,
        }),
        TreeLine::Bound(_) | TreeLine::Nothing(_) | TreeLine::Gap(_) | TreeLine::Propagated => None,
    }
}

/// The path to the next part that is still to come; false where there is none.
fn turn(path: &mut Vec<(Cut, Side)>) -> bool
    ensures { paths_waiting result path.new.items ≡ paths_passed path.old.items }
{
    while !path.is_empty() {
        let top = path.len() - 1;
        let last = path[top];
        match last.1 {
            Side::High => path.truncate(top),
            Side::Low => {
                path[top] = (last.0, Side::High);
                return true;
            }
        }
    }
    false
}

/// The path to the first part of a branch.
fn enter(path: &mut Vec<(Cut, Side)>, cut: Cut) -> Result<(), Memory>
    ensures { IfOk result (λ _. paths_waiting true path.new.items ≡ paths_branched path.old.items cut) }
{
    path.push((cut, Side::Low))?;
    Ok(())
}

/// The path to the next line, from that to a line; false where no line waits.
pub(crate) fn pass(path: &mut Vec<(Cut, Side)>, line: &TreeLine) -> Result<bool, Memory>
    ensures { IfOk result (λ more. paths_waiting more path.new.items
        ≡ paths_after (line_of line.now) (paths_waiting true path.old.items)) }
{
    match cut_of(line) {
        Some(cut) => {
            enter(path, cut)?;
            Ok(true)
        }
        None => Ok(turn(path)),
    }
}
