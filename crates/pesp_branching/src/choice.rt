//! Where a leaf is split.

ghost use Rattle.std.specs.Prelude.{◌≡◌, ◌<◌, ◌≤◌, ◌≤ℤ◌, ◌+ℤ◌, ◌+◌, ◌-◌, ℕ, ℤ, pos, length, true, false, slice_index_or, IfSome, IfNone, IsTrue};
ghost use Rattle.pesp_problem.specs.declared.limits.TheConstants.{MOST_CYCLES, MOST_ROWS};
ghost use Rattle.pesp_problem.specs.Walks.{Names};
ghost use Rattle.pesp_problem.specs.Nodes.{slack_range, offset_range, LeavesBoth};
ghost use Rattle.pesp_truth.specs.Trees.{CutExists};
ghost use Rattle.pesp_nodes.specs.Problems.{problem_net, IsNodeOf};
ghost use Rattle.pesp_branching.specs.Rooms.{IsCounted};
ghost use Rattle.pesp_branching.specs.Settled.{IsSettled};
ghost use Rattle.pesp_branching.specs.Passing.{ArePassedRows};

use crate::advice::Proposal;
use crate::slack_cut::Narrowing;
use pesp_nodes::{Node, Problem};
use pesp_problem::Cut;
use pesp_strategy::{PartPairs, Split};

/// A cut, and what is proposed for both its parts.
#[derive(Drop)]
pub struct Choice {
    pub cut: Cut,
    pub low: Option<PartPairs>,
    pub high: Option<PartPairs>,
}

/// The first range of offsets with two values, and the least of them.
fn offset_to_cut(offsets: &[(i64, i64)]) -> Option<(u32, i64)>
    requires { length offsets.now ≤ MOST_CYCLES }
    ensures exists { IfSome result (λ cut. Names (length offsets.now) cut.0) }
    ensures low { IfSome result (λ cut. (offset_range offsets.now (cut.0 - 1)).0 ≤ℤ cut.1) }
    ensures high { IfSome result
        (λ cut. (cut.1 +ℤ pos 1) ≤ℤ (offset_range offsets.now (cut.0 - 1)).1) }
    ensures none { IfNone result ((c : ℕ) → c < length offsets.now
        → (offset_range offsets.now c).1 ≤ℤ (offset_range offsets.now c).0) }
{
    for place in 0..offsets.len() {
        let range = offsets[place];
        if range.0 < range.1 {
            return Some((place as u32 + 1, range.0));
        }
    }
    None
}

/// The first range of slacks with two values of a row that is passed, and the least of them.
fn slack_to_cut(slacks: &[(u32, u32)], passed: &[bool]) -> Option<(u32, u32)>
    requires few { length slacks.now ≤ MOST_ROWS }
    requires long { length passed.now ≡ length slacks.now }
    ensures exists { IfSome result (λ cut. Names (length slacks.now) cut.0) }
    ensures counts { IfSome result (λ cut. slice_index_or passed.now (cut.0 - 1) false ≡ true) }
    ensures low { IfSome result (λ cut. (slack_range slacks.now (cut.0 - 1)).0 ≤ cut.1) }
    ensures high { IfSome result (λ cut. cut.1 + 1 ≤ (slack_range slacks.now (cut.0 - 1)).1) }
    ensures none { IfNone result ((i : ℕ) → i < length slacks.now
        → slice_index_or passed.now i false ≡ true
        → (slack_range slacks.now i).1 ≤ (slack_range slacks.now i).0) }
{
    for place in 0..slacks.len() {
        let range = slacks[place];
        if passed[place] && range.0 < range.1 {
            return Some((place as u32 + 1, range.0));
        }
    }
    None
}

/// Whether a cycle exists, and a cut of its offsets at a number leaves both sides a value.
fn leaves_both(offsets: &[(i64, i64)], cycle: u32, k: i64) -> bool
    ensures exists { IsTrue result → Names (length offsets.now) cycle }
    ensures low { IsTrue result → (offset_range offsets.now (cycle - 1)).0 ≤ℤ k }
    ensures high { IsTrue result → (k +ℤ pos 1) ≤ℤ (offset_range offsets.now (cycle - 1)).1 }
{
    if cycle == 0 || cycle as usize > offsets.len() {
        return false;
    }
    let range = offsets[cycle as usize - 1];
    range.0 <= k && k < range.1
}

/// A cut that is proposed, where it leaves both sides a value.
fn proposed_cut(problem: &Problem, node: &Node, split: Split) -> Option<Choice>
    requires { IsNodeOf problem.now node.now }
    ensures exists { IfSome result
        (λ choice. CutExists (problem_net problem.now) problem.now.table choice.cut) }
    ensures both { IfSome result (λ choice. LeavesBoth node.now choice.cut) }
    ensures counted { IfSome result
        (λ choice. IsCounted (problem_net problem.now) problem.now.table choice.cut) }
{
    let _few = problem.arcs();
    let Split {
        cycle,
        k,
        low,
        high,
    } = split;
    if !leaves_both(node.offsets(), cycle, k) {
        return None;
    }
    Some(Choice {
        cut: Cut::Offset { cycle, k },
        low: Some(low),
        high: Some(high),
    })
}

/// Whether a row exists that is passed, and a cut of its slacks at a number leaves both sides a value.
fn narrows(slacks: &[(u32, u32)], passed: &[bool], row: u32, k: u32) -> bool
    requires long { length passed.now ≡ length slacks.now }
    ensures exists { IsTrue result → Names (length slacks.now) row }
    ensures counts { IsTrue result → slice_index_or passed.now (row - 1) false ≡ true }
    ensures low { IsTrue result → (slack_range slacks.now (row - 1)).0 ≤ k }
    ensures high { IsTrue result → k + 1 ≤ (slack_range slacks.now (row - 1)).1 }
{
    if row == 0 || row as usize > slacks.len() {
        return false;
    }
    let place = row as usize - 1;
    let range = slacks[place];
    passed[place] && k >= range.0 && k < range.1
}

/// A cut of slacks that is proposed, where it counts and leaves both sides a value.
fn narrowing_cut(
    problem: &Problem,
    node: &Node,
    passed: &[bool],
    narrowing: Narrowing,
) -> Option<Choice>
    requires node { IsNodeOf problem.now node.now }
    requires passed { ArePassedRows problem.now passed.now }
    ensures exists { IfSome result
        (λ choice. CutExists (problem_net problem.now) problem.now.table choice.cut) }
    ensures both { IfSome result (λ choice. LeavesBoth node.now choice.cut) }
    ensures counted { IfSome result
        (λ choice. IsCounted (problem_net problem.now) problem.now.table choice.cut) }
{
    let _few = problem.arcs();
    let Narrowing { row, k } = narrowing;
    if !narrows(node.slacks(), passed, row, k) {
        return None;
    }
    Some(Choice {
        cut: Cut::Slack { row, k },
        low: None,
        high: None,
    })
}

/// A cut that is proposed, where it counts and leaves both sides a value.
fn chosen_cut(problem: &Problem, node: &Node, passed: &[bool], proposal: Proposal) -> Option<Choice>
    requires node { IsNodeOf problem.now node.now }
    requires passed { ArePassedRows problem.now passed.now }
    ensures exists { IfSome result
        (λ choice. CutExists (problem_net problem.now) problem.now.table choice.cut) }
    ensures both { IfSome result (λ choice. LeavesBoth node.now choice.cut) }
    ensures counted { IfSome result
        (λ choice. IsCounted (problem_net problem.now) problem.now.table choice.cut) }
{
    match proposal {
        Proposal::Split(split) => proposed_cut(problem, node, split),
        Proposal::Narrowing(narrowing) => narrowing_cut(problem, node, passed, narrowing),
    }
}

/// A cut that counts and leaves both sides a value; None where nothing is left to cut.
fn cut_at(problem: &Problem, node: &Node, passed: &[bool]) -> Option<Cut>
    requires node { IsNodeOf problem.now node.now }
    requires passed { ArePassedRows problem.now passed.now }
    ensures exists { IfSome result (CutExists (problem_net problem.now) problem.now.table) }
    ensures both { IfSome result (LeavesBoth node.now) }
    ensures counted { IfSome result (IsCounted (problem_net problem.now) problem.now.table) }
    ensures none { IfNone result (IsSettled (problem_net problem.now) problem.now.table node.now) }
{
    let _few = problem.arcs();
    if let Some((cycle, k)) = offset_to_cut(node.offsets()) {
        return Some(Cut::Offset { cycle, k });
    }
    let (row, k) = slack_to_cut(node.slacks(), passed)?;
    Some(Cut::Slack { row, k })
}

/// A cut that counts and leaves both sides a value: the one that is proposed, where it does, else one by the plain rule, with
/// nothing proposed for its parts. None where nothing is left to cut.
pub fn choose(
    problem: &Problem,
    node: &Node,
    passed: &[bool],
    proposal: Option<Proposal>,
) -> Option<Choice>
    requires node { IsNodeOf problem.now node.now }
    requires passed { ArePassedRows problem.now passed.now }
    ensures exists { IfSome result
        (λ choice. CutExists (problem_net problem.now) problem.now.table choice.cut) }
    ensures both { IfSome result (λ choice. LeavesBoth node.now choice.cut) }
    ensures counted { IfSome result
        (λ choice. IsCounted (problem_net problem.now) problem.now.table choice.cut) }
    ensures none { IfNone result (IsSettled (problem_net problem.now) problem.now.table node.now) }
{
    if let Some(proposal) = proposal {
        if let Some(choice) = chosen_cut(problem, node, passed, proposal) {
            return Some(choice);
        }
    }
    let cut = cut_at(problem, node, passed)?;
    Some(Choice {
        cut,
        low: None,
        high: None,
    })
}
