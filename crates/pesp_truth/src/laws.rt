//! Laws of trees and certificates. Each is a function without a body whose contract is the law: a caller that calls it has
//! the law within reach.

ghost use Rattle.std.specs.Prelude.{◌≡◌, ℕ, ◌<◌, ◌↔◌, List, [], ◌∷◌, ◌++◌, length, Option, true, false, Some, None, All};
ghost use Rattle.pesp_problem.specs.declared.row.SignedRow.{SignedRow};
ghost use Rattle.pesp_problem.specs.declared.pair.Pair.{Pair};
ghost use Rattle.pesp_problem.specs.declared.cut.Cut.{Cut};
ghost use Rattle.pesp_problem.specs.declared.cut.Side.{Side};
ghost use Rattle.pesp_problem.specs.declared.cut.Side.TheVariants.{Low, High};
ghost use Rattle.pesp_problem.specs.Timetables.{Pesp};
ghost use Rattle.pesp_problem.specs.Arcs.{Net};
ghost use Rattle.pesp_problem.specs.Walks.{Names};
ghost use Rattle.pesp_problem.specs.Nodes.{Node, high_part};
ghost use Rattle.pesp_problem.specs.Families.{NoFamilyIsSupported};
ghost use Rattle.pesp_truth.specs.declared.answer.Answer.TheVariants.{Infeasible};
ghost use Rattle.pesp_problem.specs.Arcs.{slacks_at};
ghost use Rattle.pesp_problem.specs.Nodes.{LieIn};
ghost use Rattle.pesp_truth.specs.Marks.{Marks};
ghost use Rattle.pesp_truth.specs.Lemmas.{Lemma};
ghost use Rattle.pesp_truth.specs.Named.{names_more};
ghost use Rattle.pesp_truth.specs.Trees.{Tree, Line, Leaf, Ends, Bound, ByPropagation, Claim, Plain, Behind, Goal, cost_goal, goal_of, with_least, Stands, IsReachedBy, preorder, pairs_of_leaf, PairsExist, bound_by, lack_by, IsShut, IsSoundLeaf, IsSound, AreSound, HasNoBound, are_trees};
ghost use Rattle.pesp_truth.specs.Paths.{along, waiting_beside};
ghost use Rattle.pesp_truth.specs.Truth.{IsTrueAnswer, HasNoTimetable};
ghost use Rattle.pesp_truth.specs.Certificates.{Content, Front, IsValid, shown_times};
ghost use Rattle.pesp_truth.specs.Conflicts.{only_rows, AreInConflict, chosen};
ghost use Rattle.pesp_truth.specs.Used.{UsesOnly};

/// A tree that is sound at a node is right about all times whose slacks lie there, and at which its lemmas hold: the sum that it
/// is to show is large enough.
pub fn trees_are_right()
    ensures { (claim : Claim) (n : Net) (table : List (List SignedRow)) (times : List ℕ) (tree : Tree) (node : Node)
        → 0 < n.period → Stands n (slacks_at n times) claim → IsSound claim n table tree node
        → LieIn n table (slacks_at n times) node → IsReachedBy n (slacks_at n times) (goal_of n claim) }
{}

/// A valid certificate's answer is true of the instance and of the times that the certificate shows, without a front and
/// behind one, whatever cycles, marked walks and lemmas it names.
#[tactic(auto, using(crate::proofs::Certificates::valid_is_true))]
pub fn valid_is_true()
    ensures { (front : Option Front) (p : Pesp) (content : Content) → 0 < p.period → IsValid front p content
        → IsTrueAnswer p content.answer (shown_times content) }
{}

/// Pairs that name cycles alone show the same behind a front as without one, and exist or not alike.
pub fn pairs_of_cycles_show_the_same()
    ensures bound { (n : Net) (table : List (List SignedRow)) (marks : Marks) (facts : List Lemma) (least : Option ℕ)
        (node : Node) (pairs : List Pair) → names_more (length table) pairs ≡ false
        → bound_by (Behind marks facts (cost_goal n least)) n table node pairs ≡ bound_by (Plain least) n table node pairs }
    ensures lack { (n : Net) (table : List (List SignedRow)) (marks : Marks) (facts : List Lemma) (goal : Goal)
        (least : Option ℕ) (node : Node) (pairs : List Pair) → names_more (length table) pairs ≡ false
        → lack_by (Behind marks facts goal) n table node pairs ≡ lack_by (Plain least) n table node pairs }
    ensures exist { (table : List (List SignedRow)) (marks : Marks) (facts : List Lemma) (goal : Goal) (least : Option ℕ)
        (pairs : List Pair) → names_more (length table) pairs ≡ false
        → PairsExist (Behind marks facts goal) table pairs ↔ PairsExist (Plain least) table pairs }
{}

/// A leaf that names cycles alone is sound behind a front exactly where it is sound without one.
#[tactic(auto, using(crate::proofs::Fronts::plain_leaf))]
pub fn leaves_of_cycles_are_as_ever()
    ensures { (n : Net) (table : List (List SignedRow)) (marks : Marks) (facts : List Lemma) (least : Option ℕ)
        (leaf : Leaf) (node : Node) → names_more (length table) (pairs_of_leaf leaf) ≡ false
        → IsSoundLeaf (Behind marks facts (cost_goal n least)) n table leaf node ↔ IsSoundLeaf (Plain least) n table leaf node }
{}

/// A certificate is valid without a front exactly where it is behind one without walks and lemmas, of whatever scale above
/// 0.
pub fn a_front_without_walks_changes_nothing()
    ensures { (p : Pesp) (content : Content) (marks : Marks) → 0 < marks.scale → marks.walks ≡ []
        → IsValid None p content ↔ IsValid (Some (record { marks = marks; lemmas = [] })) p content }
{}

/// Lines are the preorder of one tree exactly where a count of the trees that are still needed comes out, and of no two
/// trees.
#[tactic(auto, using(crate::proofs::Lines::whole_tree, crate::proofs::Lines::one_tree))]
pub fn lines_are_one_tree()
    ensures whole { (lines : List Line)
        → are_trees 1 lines ≡ true ↔ (tree : Tree) × (preorder tree ≡ lines) }
    ensures one { (a b : Tree) → preorder a ≡ preorder b → a ≡ b }
{}

/// To go through the lines with the nodes that wait is to judge the tree.
#[tactic(auto, using(crate::proofs::Lines::sound_as_tree, crate::proofs::Lines::sound_as_lines))]
pub fn lines_are_sound_as_tree()
    ensures tree { (claim : Claim) (n : Net) (table : List (List SignedRow)) (lines : List Line)
        (node : Node) → AreSound claim n table lines (node ∷ [])
        → (tree : Tree) × (preorder tree ≡ lines) × IsSound claim n table tree node }
    ensures lines { (claim : Claim) (n : Net) (table : List (List SignedRow)) (lines : List Line)
        (node : Node) → (tree : Tree) × (preorder tree ≡ lines) × IsSound claim n table tree node
        → AreSound claim n table lines (node ∷ []) }
{}

/// To be sound without a least sum is to be sound for a least sum, whichever it is, and to have no bound leaf.
pub fn no_least_is_no_bound()
    ensures { (claim : Claim) (n : Net) (table : List (List SignedRow)) (least : ℕ) (tree : Tree) (node : Node)
        → IsSound (with_least claim None) n table tree node
        ↔ IsSound (with_least claim (Some least)) n table tree node × HasNoBound tree }
{}

/// What waits beside a path: into a first part, out of a second part, and from a first part over to the second.
#[tactic(auto, using(crate::proofs::Paths::go_low, crate::proofs::Paths::leave_high, crate::proofs::Paths::turn))]
pub fn paths_keep_what_waits()
    ensures go_low { (node : Node) (path : List (Cut × Side)) (cut : Cut) → waiting_beside node
        (path ++ (cut, Low) ∷ []) ≡ high_part (along node path) cut ∷ waiting_beside node path }
    ensures leave_high { (node : Node) (path : List (Cut × Side)) (cut : Cut)
        → waiting_beside node (path ++ (cut, High) ∷ []) ≡ waiting_beside node path }
    ensures turn { (node : Node) (path : List (Cut × Side)) (cut : Cut)
        → waiting_beside node (path ++ (cut, Low) ∷ [])
        ≡ along node (path ++ (cut, High) ∷ []) ∷ waiting_beside node (path ++ (cut, High) ∷ []) }
{}

/// A bound leaf without pairs is sound for the least cost 0, at every node.
#[tactic(auto, using(crate::proofs::Opening::no_pairs))]
pub fn no_pairs_are_sound()
    ensures { (n : Net) (table : List (List SignedRow)) (node : Node)
        → IsSound (Plain (Some 0)) n table (Ends (Bound [])) node }
{}

/// Propagation shuts a node exactly where no family without an empty set is supported there: how many events are counted
/// doesn't matter, as long as those of the rows are.
pub fn events_without_rows_change_nothing()
    ensures { (claim : Claim) (n : Net) (table : List (List SignedRow)) (node : Node) (events : ℕ) → 0 < n.period
        → All (λ arc. (arc.tail < events) × (arc.head < events)) n.arcs
        → IsShut claim n table ByPropagation node ↔ NoFamilyIsSupported n node.slacks events }
{}

/// Where a valid certificate says that there is no timetable, the rows that it uses are in conflict: those of the cycles that
/// its leaves name, and every row where propagation shuts a leaf. What its branches cut plays no part.
pub fn used_rows_conflict()
    ensures { (p : Pesp) (content : Content) (listed : List ℕ) → 0 < p.period → IsValid None p content
        → content.answer ≡ Infeasible → UsesOnly (length p.rows) content listed
        → AreInConflict p listed }
{}

/// Rows are in conflict exactly where the instance that has these rows alone has no timetable.
pub fn conflicts_have_no_timetable()
    ensures { (p : Pesp) (listed : List ℕ) → AreInConflict p listed
        ↔ HasNoTimetable (only_rows p listed) }
{}

/// A conflict among some rows of an instance that has listed rows alone is one of the rows that are so chosen.
pub fn conflicts_of_parts_are_conflicts()
    ensures { (p : Pesp) (listed places : List ℕ) → All (Names (length listed)) places
        → AreInConflict (only_rows p listed) places → AreInConflict p (chosen listed places) }
{}
