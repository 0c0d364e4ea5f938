//! Laws of nodes and of pairs. Each is a function without a body whose contract is the law: a caller that calls it has the law
//! within reach.

ghost use Rattle.std.specs.Prelude.{ℕ, ◌-◌, ◌<◌, ◌≤◌, ℤ, ◌≤ℤ◌, ◌<ℤ◌, List, length};
ghost use Rattle.pesp_problem.specs.declared.pair.Pair.{Pair};
ghost use Rattle.pesp_problem.specs.declared.cut.Cut.TheVariants.{Slack, Offset};
ghost use Rattle.pesp_problem.specs.Walks.{Names};
ghost use Rattle.pesp_problem.specs.Nodes.{Node, slack_range, offset_range};
ghost use Rattle.pesp_problem.specs.Ranges.{AreSlackEnds};
ghost use Rattle.pesp_nodes.specs.Offsets.{AreOffsetEnds};
ghost use Rattle.pesp_nodes.specs.Problems.{IsCutOf, ArePairs};

/// A cut of a range of a node that leaves both sides a value keeps the limit of a cut.
pub fn cuts_inside_ranges_keep_limits()
    ensures slacks { (node : Node) (row k : ℕ) → AreSlackEnds node.slacks
        → Names (length node.slacks) row → k < (slack_range node.slacks (row - 1)).1
        → IsCutOf node (Slack row k) }
    ensures offsets { (node : Node) (cycle : ℕ) (k : ℤ) → AreOffsetEnds node.offsets
        → Names (length node.offsets) cycle → (offset_range node.offsets (cycle - 1)).0 ≤ℤ k
        → k <ℤ (offset_range node.offsets (cycle - 1)).1 → IsCutOf node (Offset cycle k) }
{}

/// Pairs that rise and keep their limits are at most as many as the cycles.
pub fn pairs_are_few()
    ensures { (cycles : ℕ) (pairs : List Pair) → ArePairs cycles pairs → length pairs ≤ cycles }
{}
