//! Laws over every list of events. Each is a function without a body whose contract is the law: a caller that calls it has
//! the law within reach.

ghost use Rattle.std.specs.Prelude.{◌≡◌, ◌↔◌, ℕ, ◌+◌, ◌<◌, ◌≤◌, ◌≤ℤ◌, List, length, All, ℤ, pos, Option, Some, None, IsSomeAnd, IfSome, Result, Err, sum_by};
ghost use Rattle.pesp_problem.specs.declared.row.SignedRow.{SignedRow};
ghost use Rattle.pesp_problem.specs.declared.pair.Pair.{Pair};
ghost use Rattle.pesp_problem.specs.declared.cut.Cut.{Cut};
ghost use Rattle.pesp_problem.specs.declared.cut.Side.{Side};
ghost use Rattle.pesp_problem.specs.Limits.{KeepsLimits};
ghost use Rattle.pesp_problem.specs.Timetables.{Pesp};
ghost use Rattle.pesp_problem.specs.Arcs.{Net};
ghost use Rattle.pesp_problem.specs.NetTimetables.{net_cost};
ghost use Rattle.pesp_problem.specs.Walks.{IsWalk};
ghost use Rattle.pesp_problem.specs.Nodes.{Node, LeavesBoth};
ghost use Rattle.pesp_network.specs.Networks.{NetworkValue, KeepsNetLimits, net_of_network};
ghost use Rattle.pesp_truth.specs.Trees.{Tree, Leaf, EndLine, CutExists, preorder};
ghost use Rattle.pesp_truth.specs.Certificates.{Content, IsValid, least_of, cost_of};
ghost use Rattle.pesp_nodes.specs.Problems.{ProblemValue, problem_net, IsSmallTable, IsCutOf};
ghost use Rattle.pesp_tree.specs.declared.work.Work.{Work};
ghost use Rattle.pesp_tree.specs.declared.refusal.LendRefusal.{LendRefusal};
ghost use Rattle.pesp_tree.specs.declared.refusal.GiveRefusal.{GiveRefusal};
ghost use Rattle.pesp_tree.specs.declared.refusal.GiveRefusal.TheVariants.{UnknownJob, AlreadyGiven, Memory};
ghost use Rattle.pesp_truth.specs.Leaves.{IsLeafAt, put};
ghost use Rattle.pesp_tree.specs.BoardLeaves.{HasValue, least_value, told};
ghost use Rattle.pesp_tree.specs.States.{State, opening, root_of, node_at, least, best_cost, IsAtMost, IsLentNumber, IsOpen};
ghost use Rattle.pesp_tree.specs.Limits.{pairs_in, KeepsTreeLimits};
ghost use Rattle.pesp_tree.specs.Reached.{IsKept, IsOrderly};
ghost use Rattle.pesp_tree.specs.Events.{Event, Step, Run, Lends, Gives, Makes, IsValidAt};
ghost use Rattle.pesp_tree.specs.Certificates.{IsProblemOf, IsCertificateOf};
ghost use Rattle.pesp_tree.specs.declared.job.Job.{Job};
ghost use Rattle.pesp_tree.specs.Adopting.{Adopts, LendsEach, lends_of};

/// After any list of events, whatever was given, what the board certifies is valid for an instance whose network the problem
/// has: optimal where the least value is at least the best cost, infeasible where there is no least value, else open.
pub fn runs_are_valid()
    ensures { (instance : Pesp) (p : ProblemValue) (events : List Event) (state : State)
        (content : Content) → KeepsLimits instance → IsProblemOf instance p
        → All (IsWalk (problem_net p).arcs) p.table → Run p opening events state
        → IsCertificateOf p instance.events state content → IsValid None instance content }
{}

/// From any state whose tree is sound for a least cost of 0 and whose best times are a timetable, however the events go on:
/// the least value doesn't fall, no least value counting as above every number; and the best cost doesn't rise and, once it is
/// there, is never gone.
#[tactic(auto, using(crate::proofs::Runs::least_never_falls, crate::proofs::Runs::best_never_rises))]
pub fn bounds_only_tighten()
    ensures least { (p : ProblemValue) (events : List Event) (old new : State)
        → 0 < p.network.period → IsKept p old → Run p old events new
        → IsAtMost (least p old) (least p new) }
    ensures best { (p : ProblemValue) (events : List Event) (old new : State) → 0 < p.network.period
        → IsKept p old → Run p old events new → IsAtMost (best_cost p new) (best_cost p old) }
{}

/// In every state that events lead to, the tree is sound for a least cost of 0 and the best times are a timetable.
#[tactic(auto, using(crate::proofs::Runs::states_are_kept))]
pub fn states_are_kept()
    ensures { (p : ProblemValue) (events : List Event) (state : State) → 0 < p.network.period
        → Run p opening events state → IsKept p state }
{}

/// What holds of every state that events lead to: it holds at the opening, each event keeps it, and so does a run.
#[tactic(auto, using(crate::proofs::Runs::opening_is_orderly, crate::proofs::Runs::step_is_orderly, crate::proofs::Runs::run_is_orderly))]
pub fn states_are_orderly()
    ensures opening { (p : ProblemValue) → IsOrderly p opening }
    ensures step { (p : ProblemValue) (old new : State) (event : Event) → KeepsNetLimits p.network
        → IsSmallTable p.table → IsOrderly p old → Step p old event new → IsOrderly p new }
    ensures run { (p : ProblemValue) (old new : State) (events : List Event)
        → KeepsNetLimits p.network → IsSmallTable p.table → IsOrderly p old → Run p old events new
        → IsOrderly p new }
{}

/// What a board certifies of a state whose tree is sound for a least cost of 0, and whose best times are a timetable, is valid
/// for an instance whose network the problem has.
pub fn kept_states_are_valid()
    ensures { (instance : Pesp) (p : ProblemValue) (state : State) (content : Content)
        → KeepsLimits instance → IsProblemOf instance p → All (IsWalk (problem_net p).arcs) p.table
        → IsKept p state → IsCertificateOf p instance.events state content
        → IsValid None instance content }
{}

/// No cost within the limits is above 999900000000000000, and to be at most a value is to be at most what is told of it for
/// each number up to 999999999999999999; so what is told compares with every cost as the value does.
#[tactic(auto, using(crate::proofs::Costs::costs_are_small, crate::proofs::Costs::told_alike))]
pub fn told_values_compare_alike()
    ensures costs { (n : NetworkValue) (times : List ℕ) → KeepsNetLimits n
        → net_cost (net_of_network n) times ≤ 999900000000000000 }
    ensures alike { (value : ℤ) (c : ℕ) → pos 0 ≤ℤ value
        → c ≤ 999999999999999999 → (pos c ≤ℤ value) ↔ (c ≤ told value) }
{}

/// Where no number is lent and no leaf is open, the least value reaches the best cost, or there is no least value: what the
/// board certifies is optimal or infeasible. And where it does, no leaf is open.
pub fn boards_without_open_leaves_are_decided()
    ensures decided { (p : ProblemValue) (state : State) → KeepsNetLimits p.network → IsKept p state
        → ((number : ℕ) → IsLentNumber state number → ⊥)
        → ((path : List (Cut × Side)) → IsOpen p state path → ⊥)
        → IsAtMost (best_cost p state) (least p state) }
    ensures closed { (p : ProblemValue) (state : State) (path : List (Cut × Side)) → IsKept p state
        → IsAtMost (best_cost p state) (least p state) → IsOpen p state path → ⊥ }
{}

/// A refused call changes nothing; and where a give is refused for another cause than that its number isn't lent, the number
/// is still lent.
#[tactic(auto, using(crate::proofs::Refusals::unlent_same, crate::proofs::Refusals::untaken_same, crate::proofs::Refusals::still_lent))]
pub fn refusals_change_nothing()
    ensures lend { (p : ProblemValue) (old new : State) (refusal : LendRefusal)
        → Lends p old (Err refusal) new → new ≡ old }
    ensures give { (p : ProblemValue) (old new : State) (number : ℕ) (work : Work)
        (refusal : GiveRefusal) → Gives p old number work (Err refusal) new → new ≡ old }
    ensures lent { (p : ProblemValue) (old new : State) (number : ℕ) (work : Work)
        (refusal : GiveRefusal) → Gives p old number work (Err refusal) new
        → (refusal ≡ UnknownJob → ⊥) → (refusal ≡ AlreadyGiven → ⊥) → IsLentNumber new number }
{}

/// A work makes something of a bound leaf exactly where it is valid at the leaf's node for the leaf's pairs.
pub fn valid_works_make()
    ensures { (p : ProblemValue) (node : Node) (old : List Pair) (work : Work)
        → ((new : Tree) × Makes p node old work new) ↔ IsValidAt p node old work }
{}

/// But for refusals of memory, the state and the work decide which reply a give has.
pub fn replies_are_decided()
    ensures { (p : ProblemValue) (old a b : State) (number : ℕ) (work : Work)
        (first second : Result (Unit {0}) GiveRefusal) → Gives p old number work first a
        → Gives p old number work second b → (first ≡ Err Memory → ⊥) → (second ≡ Err Memory → ⊥)
        → first ≡ second }
{}

/// A cut of what exists that leaves both sides a value keeps its limit.
#[tactic(auto, using(crate::proofs::Ranges::cut_keeps_limits))]
pub fn cuts_keep_limits()
    ensures { (p : ProblemValue) (path : List (Cut × Side)) (cut : Cut) → KeepsNetLimits p.network
        → IsSmallTable p.table → CutExists (problem_net p) p.table cut
        → LeavesBoth (node_at p path) cut → IsCutOf (root_of p) cut }
{}

/// The least value of a tree is the value of one of its bound leaves and at most that of each, and only that one is; there is
/// none where no bound leaf has a value.
#[tactic(auto, using(crate::proofs::Least::least_is_had, crate::proofs::Least::least_is_under, crate::proofs::Least::least_is_only, crate::proofs::Least::least_is_none))]
pub fn least_value_is_the_least()
    ensures had { (n : Net) (table : List (List SignedRow)) (tree : Tree) (node : Node) (value : ℤ)
        → least_value n table tree node ≡ Some value → HasValue n table tree node value }
    ensures under { (n : Net) (table : List (List SignedRow)) (tree : Tree) (node : Node)
        (value : ℤ) → HasValue n table tree node value
        → IsSomeAnd (least_value n table tree node) (λ least. least ≤ℤ value) }
    ensures only { (n : Net) (table : List (List SignedRow)) (tree : Tree) (node : Node) (value : ℤ)
        → HasValue n table tree node value
        → ((other : ℤ) → HasValue n table tree node other → value ≤ℤ other)
        → least_value n table tree node ≡ Some value }
    ensures none { (n : Net) (table : List (List SignedRow)) (tree : Tree) (node : Node)
        → ((value : ℤ) → HasValue n table tree node value → ⊥)
        → least_value n table tree node ≡ None }
{}

/// How many lines and pairs a tree has once another one takes the place of a leaf.
#[tactic(auto, using(crate::proofs::Sizes::put_lines_add_up, crate::proofs::Sizes::put_pairs_add_up))]
pub fn sizes_add_up()
    ensures lines { (tree : Tree) (path : List (Cut × Side)) (leaf : Leaf) (new : Tree)
        → IsLeafAt tree path leaf → length (preorder (put tree path new)) + 1
        ≡ length (preorder tree) + length (preorder new) }
    ensures pairs { (tree : Tree) (path : List (Cut × Side)) (leaf : Leaf) (new : Tree)
        → IsLeafAt tree path leaf → sum_by pairs_in (preorder (put tree path new)) + pairs_in
        (EndLine leaf) ≡ sum_by pairs_in (preorder tree) + sum_by pairs_in (preorder new) }
{}

/// A board that takes a valid certificate up has a tree that is sound for a least cost of 0, and its best times are a timetable;
/// so `bounds_only_tighten` and `kept_states_are_valid` speak of it, and all that holds of every state that events lead to holds
/// of it where its tree keeps the limits of a certificate's. After any list of events from such a state what the board certifies
/// is valid.
pub fn adopted_certificates_are_kept()
    ensures kept { (instance : Pesp) (p : ProblemValue) (content : Content) (state : State)
        → KeepsLimits instance → IsProblemOf instance p → content.cycles ≡ p.table
        → IsValid None instance content → Adopts content state → IsKept p state }
    ensures orderly { (instance : Pesp) (p : ProblemValue) (content : Content) (state : State)
        → KeepsLimits instance → IsProblemOf instance p → content.cycles ≡ p.table → IsValid None
        instance content → KeepsTreeLimits p state.tree → Adopts content state → IsOrderly p state }
    ensures valid { (instance : Pesp) (p : ProblemValue) (events : List Event) (old new : State)
        (content : Content) → KeepsLimits instance → IsProblemOf instance p
        → All (IsWalk (problem_net p).arcs) p.table → IsKept p old → Run p old events new
        → IsCertificateOf p instance.events new content → IsValid None instance content }
{}

/// A board that takes a valid certificate up has the certificate's cost, and its least value isn't below the certificate's bound,
/// which is at most 999999999999999999 in every text; no bound leaf counts as above every number.
pub fn adopted_bounds_are_kept()
    ensures bound { (instance : Pesp) (p : ProblemValue) (base : Content) (state : State)
        → IsProblemOf instance p → base.cycles ≡ p.table → IsValid None instance base
        → IfSome (least_of base.answer) (λ l. l ≤ 999999999999999999) → Adopts base state
        → IsAtMost (least_of base.answer) (least p state) }
    ensures cost { (instance : Pesp) (p : ProblemValue) (base : Content) (state : State)
        → IsProblemOf instance p → IsValid None instance base → Adopts base state
        → best_cost p state ≡ cost_of base.answer }
{}

/// Whatever happens to a board that took a valid certificate up, what it certifies then has no lesser bound and no greater cost
/// than that certificate: none counts as above every number.
pub fn later_certificates_are_tighter()
    ensures bound { (instance : Pesp) (p : ProblemValue) (events : List Event) (base : Content)
        (old new : State) (content : Content) → KeepsLimits instance → IsProblemOf instance p
        → All (IsWalk (problem_net p).arcs) p.table → base.cycles ≡ p.table → IsValid None instance base
        → IfSome (least_of base.answer) (λ l. l ≤ 999999999999999999) → Adopts base old
        → Run p old events new → IsCertificateOf p instance.events new content
        → IsAtMost (least_of base.answer) (least_of content.answer) }
    ensures cost { (instance : Pesp) (p : ProblemValue) (events : List Event) (base : Content)
        (old new : State) (content : Content) → KeepsLimits instance → IsProblemOf instance p
        → All (IsWalk (problem_net p).arcs) p.table → base.cycles ≡ p.table → IsValid None instance base
        → Adopts base old → Run p old events new → IsCertificateOf p instance.events new content
        → IsAtMost (cost_of content.answer) (cost_of base.answer) }
{}

/// To lend all open leaves at once is to lend one after the other, in preorder; and then no leaf is open.
pub fn all_lent_is_a_run_of_lends()
    ensures run { (p : ProblemValue) (old new : State) (jobs : List Job) → LendsEach p old jobs new
        → Run p old (lends_of jobs) new }
    ensures none { (p : ProblemValue) (old new : State) (jobs : List Job) (path : List (Cut × Side))
        → LendsEach p old jobs new → IsOpen p new path → ⊥ }
{}
