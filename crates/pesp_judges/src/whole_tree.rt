//! Whether the lines of a certificate are a tree that is sound at the root.

ghost use Rattle.std.specs.Prelude.{◌≡◌, ◌+◌, ◌≤◌, ◌<◌, ◌^◌, List, [], ◌∷◌, length, true, map, All, IfOk, MatchOption};
ghost use Rattle.pesp_problem.specs.declared.limits.TheConstants.{MOST_LINES};
ghost use Rattle.pesp_problem.specs.declared.row.SignedRow.{SignedRow};
ghost use Rattle.pesp_problem.specs.Arcs.{net_of};
ghost use Rattle.pesp_problem.specs.Nodes as nodes;
ghost use Rattle.pesp_truth.specs.Trees.{Claim, AreSound, are_trees, line_of};
ghost use Rattle.pesp_problem.specs.Nets.{AreZeros, AreNets};
ghost use Rattle.pesp_leaves.specs.Claims.{TellsOf, HasRoom};
ghost use Rattle.pesp_judges.specs.Lines.{IsLinesFault, KeepsLineLimits};
ghost use Rattle.pesp_judges.specs.SaidLines.{line_said, KeepsSaidLimits};

use crate::leaf::LeafLine;
use crate::node_walk::NodeWalk;
use crate::refusal::Refusal;
use crate::table::root;
use crate::tree::{SaidLine, take_line};
use pesp_leaves::Checker;
use pesp_problem::{Cut, Pair, Rates};
use pesp_truth::TreeLine;
use std::alloc::{AllocError, Global};

/// A line of the tree as the list of its lines says it.
pub fn said_by(tree_line: &TreeLine) -> SaidLine<&[Pair]>
    ensures line { line_said (λ pairs. pairs.now) result ≡ line_of tree_line.now }
    ensures limits { KeepsLineLimits tree_line.now → KeepsSaidLimits (λ pairs. pairs.now) result }
{
    match tree_line {
        TreeLine::Slack { row, k } => SaidLine::Branch(Cut::Slack { row: *row, k: *k }),
        TreeLine::Offset { cycle, k } => SaidLine::Branch(Cut::Offset {
            cycle: *cycle,
            k: *k,
        }),
        TreeLine::Bound(pairs) => SaidLine::Leaf(LeafLine::Bound(pairs.as_slice())),
        TreeLine::Nothing(pairs) => SaidLine::Leaf(LeafLine::Nothing(pairs.as_slice())),
        TreeLine::Gap(cycle) => SaidLine::Leaf(LeafLine::Gap(*cycle)),
        TreeLine::Propagated => SaidLine::Propagated,
    }
}

/// The first fault of a tree at the root; its lines begin with the line `first`. The flows, one a row, are 0 before; behind a
/// front there are as many rates.
pub fn judge_tree(
    alloc: Global,
    checker: &Checker<'_>,
    lines: &[TreeLine],
    first: u64,
    flows: &mut [i128],
    rates: &mut [Rates],
) -> Result<Option<Refusal>, AllocError>
    requires lines { All KeepsLineLimits lines.now }
    requires whole { are_trees 1 (map line_of lines.now) ≡ true }
    requires first { first < 2 ^ 62 }
    requires few { length lines.now ≤ MOST_LINES }
    requires long { length flows.old ≡ length checker.now.instance.now.rows }
    requires room { HasRoom checker.now.claim (length checker.now.instance.now.rows) (length rates.old) }
    requires zeros { AreZeros flows.old }
    ensures { IfOk result (λ found. (walks : List (List SignedRow)) (claim : Claim)
        → AreNets (length checker.now.instance.now.rows) walks checker.now.table.now
        → TellsOf checker.now.claim claim → MatchOption found
        (AreSound claim (net_of checker.now.instance.now) walks
        (map line_of lines.now) (nodes.root (net_of checker.now.instance.now) walks ∷ []))
        (λ refusal. IsLinesFault claim (net_of checker.now.instance.now) walks
        (map line_of lines.now) (nodes.root (net_of checker.now.instance.now) walks ∷ []) first
        refusal)) }
{
    let ranges = root(alloc, checker.instance, checker.table)?;
    let mut walk = NodeWalk::new(alloc, checker.instance, ranges);
    for (place, tree_line) in lines.iter().enumerate() {
        let line = first + place as u64;
        let found = take_line(
            alloc,
            checker,
            &mut walk,
            said_by(tree_line),
            line,
            flows,
            rates,
        )?;
        if found.is_some() {
            return Ok(found);
        }
    }
    Ok(None)
}
