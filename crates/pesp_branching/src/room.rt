//! Laws of branches. Each is a function without a body whose contract is the law: a caller that calls it has the law within
//! reach.

ghost use Rattle.std.specs.Prelude.{◌≡◌, ◌≤◌, ℕ, ◌+◌, ◌*◌, ◌<◌, List, length, ◌*ℤ◌, pos, Bool, Some, None};
ghost use Rattle.pesp_problem.specs.declared.row.SignedRow.{SignedRow};
ghost use Rattle.pesp_problem.specs.declared.cut.Cut.{Cut};
ghost use Rattle.pesp_problem.specs.declared.cut.Side.{Side};
ghost use Rattle.pesp_problem.specs.declared.pair.Pair.{Pair};
ghost use Rattle.pesp_problem.specs.Arcs.{Net, arc_at, over_arcs};
ghost use Rattle.pesp_problem.specs.Walks.{HasWholeOffset};
ghost use Rattle.pesp_problem.specs.Nodes.{Node, low_part, high_part, root, cycle_at, weight_of, leaf_value, LeavesBoth};
ghost use Rattle.pesp_truth.specs.Trees.{Plain, Tree, Leaf, preorder, PairsExist};
ghost use Rattle.pesp_truth.specs.Paths.{along};
ghost use Rattle.pesp_truth.specs.Leaves.{IsLeafAt, put};
ghost use Rattle.pesp_branching.specs.Rooms.{room, IsCounted, BranchesLeaveBoth, branches, branch_lines};
ghost use Rattle.pesp_branching.specs.Settled.{IsSettled, HaveSlacks, KeepSpans, HaveOffsetsLeft, low_slack};
ghost use Rattle.pesp_branching.specs.LeafSums.{leaf_sum};

/// The room of a node is at least 1, and those of the two parts of a cut that counts and leaves both a value add up to it.
#[tactic(auto, using(crate::proofs::Rooms::some_room, crate::proofs::Rooms::rooms_add_up))]
pub fn rooms_add_up()
    ensures some { (n : Net) (table : List (List SignedRow)) (node : Node) → 1 ≤ room n table node }
    ensures parts { (n : Net) (table : List (List SignedRow)) (node : Node) (cut : Cut)
        → IsCounted n table cut → LeavesBoth node cut
        → room n table (low_part node cut) + room n table (high_part node cut) ≡ room n table node }
{}

/// A tree in which each branch cuts a range that counts, and leaves both of its parts a value of it, has fewer branches than
/// the room of the node at which it stands.
#[tactic(auto, using(crate::proofs::Rooms::fewer_branches))]
pub fn branches_are_fewer_than_the_room()
    ensures { (n : Net) (table : List (List SignedRow)) (tree : Tree) (node : Node)
        → BranchesLeaveBoth n table tree node → branches tree < room n table node }
{}

/// A tree's branches are its branch lines in preorder; it has one line more than twice as many.
#[tactic(auto, using(crate::proofs::Branches::as_lines, crate::proofs::Branches::lines_in_all))]
pub fn branches_are_lines()
    ensures lines { (tree : Tree) → branch_lines (preorder tree) ≡ branches tree }
    ensures all { (tree : Tree) → length (preorder tree) ≡ 2 * branches tree + 1 }
{}

/// What another tree in place of a leaf changes: its branches are more, and they leave both parts a value where they do at the
/// leaf's node.
#[tactic(auto, using(crate::proofs::Branches::put_branches, crate::proofs::Branches::put_leaves_both))]
pub fn put_keeps_branches()
    ensures count { (tree : Tree) (path : List (Cut × Side)) (leaf : Leaf) (new : Tree)
        → IsLeafAt tree path leaf → branches (put tree path new) ≡ branches tree + branches new }
    ensures both { (n : Net) (table : List (List SignedRow)) (tree : Tree)
        (path : List (Cut × Side)) (leaf : Leaf) (new : Tree) (node : Node)
        → IsLeafAt tree path leaf → BranchesLeaveBoth n table tree node → BranchesLeaveBoth n table
        new (along node path) → BranchesLeaveBoth n table (put tree path new) node }
{}

/// A leaf's number gives place to those of the leaves of the tree that is put there; where no leaf's number is more and one is
/// less, the sum is less.
#[tactic(auto, using(crate::proofs::LeafSums::put_sum, crate::proofs::LeafSums::sum_no_more, crate::proofs::LeafSums::sum_less))]
pub fn leaf_sums_add_up()
    ensures put { (f : Leaf → Node → ℕ) (tree : Tree) (path : List (Cut × Side)) (leaf : Leaf)
        (new : Tree) (node : Node) → IsLeafAt tree path leaf → leaf_sum f (put tree path new) node
        + f leaf (along node path) ≡ leaf_sum f tree node + leaf_sum f new (along node path) }
    ensures no_more { (f g : Leaf → Node → ℕ) (tree : Tree) (node : Node)
        → ((leaf : Leaf) (at : Node) → f leaf at ≤ g leaf at)
        → leaf_sum f tree node ≤ leaf_sum g tree node }
    ensures less { (f g : Leaf → Node → ℕ) (tree : Tree) (path : List (Cut × Side)) (leaf : Leaf)
        (node : Node) → IsLeafAt tree path leaf
        → ((other : Leaf) (at : Node) → f other at ≤ g other at) → f leaf (along node path)
        < g leaf (along node path) → leaf_sum f tree node < leaf_sum g tree node }
{}

/// Where no slack range of the root is empty, none is at a leaf of a tree whose branches leave both parts a value.
#[tactic(auto, using(crate::proofs::Settled::slacks_at_root, crate::proofs::Settled::slacks_along))]
pub fn branches_keep_slacks()
    ensures root { (n : Net) (table : List (List SignedRow)) → HaveSlacks n (root n table) }
    ensures along { (n : Net) (table : List (List SignedRow)) (tree : Tree)
        (path : List (Cut × Side)) (leaf : Leaf) (node : Node) → HaveSlacks n node
        → BranchesLeaveBoth n table tree node → IsLeafAt tree path leaf
        → HaveSlacks n (along node path) }
{}

/// At a node at which nothing is left to cut and each cycle has an offset left, the least slacks give each cycle a whole
/// offset, and every leaf is worth their sum of weight times slack.
#[tactic(auto, using(crate::proofs::Settled::settled_offsets, crate::proofs::Settled::settled_value))]
pub fn settled_nodes_have_their_cost()
    ensures offsets { (n : Net) (table : List (List SignedRow)) (node : Node) (c : ℕ) → 0 < n.period
        → IsSettled n table node → HaveSlacks n node → HaveOffsetsLeft n table node
        → c < length table → HasWholeOffset n (low_slack node) (cycle_at table c) }
    ensures value { (n : Net) (table : List (List SignedRow)) (node : Node) (pairs : List Pair)
        (weighted : Bool) → 0 < n.period → IsSettled n table node → HaveSlacks n node
        → HaveOffsetsLeft n table node → PairsExist (Plain None) table pairs
        → leaf_value n table node pairs weighted ≡ Some
        (over_arcs n.arcs (λ i. weight_of weighted (arc_at n.arcs i) *ℤ pos (low_slack node i))) }
{}

/// No slack range at the end of a path from the root goes beyond the span of its row.
pub fn paths_keep_spans()
    ensures { (n : Net) (table : List (List SignedRow)) (path : List (Cut × Side))
        → KeepSpans n (along (root n table) path) }
{}
