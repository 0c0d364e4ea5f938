//! Laws of turns. Each is a function without a body whose contract is the law: a caller that calls it has the law within reach.

ghost use Rattle.std.specs.Prelude.{◌≡◌, ◌≤◌, ℕ, ◌+◌, ◌*◌, ◌<◌, ◌≤ℤ◌, ℤ, ◌⊎◌, unsigned_abs, [], ◌∷◌, List, length, pos, Bool, true, IsSomeAnd, All, Option, Result, Ok, Err, Some};
ghost use Rattle.std.specs.Global.{Vec};
ghost use Rattle.pesp_problem.specs.declared.limits.TheConstants.{MOST_PAIRS};
ghost use Rattle.pesp_problem.specs.declared.cut.Cut.{Cut};
ghost use Rattle.pesp_problem.specs.declared.pair.Pair.{Pair};
ghost use Rattle.pesp_problem.specs.NetTimetables.{IsNetTimetable, net_cost};
ghost use Rattle.pesp_network.specs.Networks.{KeepsNetLimits};
ghost use Rattle.pesp_nodes.specs.Problems.{ProblemValue, problem_net, IsSmallTable, IsCutOf, ArePairs};
ghost use Rattle.pesp_tree.specs.declared.job.Job.{Job};
ghost use Rattle.pesp_tree.specs.declared.work.Work.{Work};
ghost use Rattle.pesp_tree.specs.declared.work.Work.TheVariants.{Leaf as GivesPairs, Nothing as GivesNothing, Gap as GivesGap, Tree as GivesTree};
ghost use Rattle.pesp_tree.specs.declared.refusal.GiveRefusal.{GiveRefusal};
ghost use Rattle.pesp_tree.specs.declared.refusal.GiveRefusal.TheVariants.{Memory, TooLarge};
ghost use Rattle.pesp_tree.specs.States.{State, HasLeaf, node_at, opening, root_of, value_at, least, IsAtMost, IsOpen, IsLentNumber};
ghost use Rattle.pesp_tree.specs.Reached.{IsOrderly};
ghost use Rattle.pesp_tree.specs.Certificates.{IsProblemOf, IsCertificateOf};
ghost use Rattle.pesp_tree.specs.BoardLeaves.{told};
ghost use Rattle.pesp_truth.specs.Trees.{Leaf, Ends, Bound, CutExists};
ghost use Rattle.pesp_truth.specs.declared.tree.TreeLine.{TreeLine};
ghost use Rattle.pesp_truth.specs.Leaves.{IsLeafAt};
ghost use Rattle.pesp_truth.specs.Certificates.{Content};
ghost use Rattle.pesp_problem.specs.Limits.{KeepsLimits};
ghost use Rattle.pesp_problem.specs.Walks.{Names};
ghost use Rattle.pesp_problem.specs.Timetables.{Pesp};
ghost use Rattle.pesp_problem.specs.Arcs as arcs;
ghost use Rattle.pesp_problem.specs.Nodes.{Node, root, leaf_value, part, LeavesBoth};
ghost use Rattle.pesp_problem.specs.declared.cut.Side.{Side};
ghost use Rattle.pesp_problem.specs.declared.cut.Side.TheVariants.{Low, High};
ghost use Rattle.pesp_branching.specs.Rooms.{room};
ghost use Rattle.pesp_tree.specs.Events.{Event, Step, IsValidAt, IsRefusedFor, LendsLeaf, Takes, MakesTooMuch, Offers, Recalls};
ghost use Rattle.pesp_branching.specs.Rooms.{IsCounted, branches};
ghost use Rattle.pesp_branching.specs.Turns.{IsWorked, AreStep, IsFoundAt, IsOpenAnswer, HasBranches, splits_of};

/// A new board is worked on by no turn; and by few numbers, however many there were.
#[tactic(auto, using(crate::proofs::Turns::opening_is_worked, crate::proofs::Turns::numbers_are_few))]
pub fn turns_begin()
    ensures opening { (p : ProblemValue) → IsWorked p 0 opening }
    ensures few { (p : ProblemValue) (used : ℕ) (state : State) → IsWorked p used state
        → length state.numbers ≤ 2 * used + 2 }
{}

/// A leaf is lent, and pairs are given for it, where few numbers are spent.
pub fn leaf_is_looked_at()
    ensures { (p : ProblemValue) (used : ℕ) (old mid new : State) (job : Job) (pairs : List Pair)
        → KeepsNetLimits p.network → IsSmallTable p.table → IsWorked p used old
        → length old.numbers ≤ used → LendsLeaf p old job mid
        → Takes p mid job.number (GivesPairs pairs) new → IsWorked p used new }
{}

/// A leaf is lent, and a cut that counts is given for it with a leaf on either side.
pub fn leaf_is_split()
    ensures { (p : ProblemValue) (used : ℕ) (old mid new : State) (job : Job) (lines : Vec TreeLine)
        (cut : Cut) (low high : Leaf) → KeepsNetLimits p.network → IsSmallTable p.table
        → IsWorked p used old → IsCounted (problem_net p) p.table cut → AreStep lines.items cut low high
        → LendsLeaf p old job mid → Takes p mid job.number (GivesTree lines) new
        → IsWorked p (used + 1) new }
{}

/// Leaves that are found at both parts of a node, each from the pairs of the leaf there, are valid work with the cut.
pub fn found_leaves_are_valid()
    ensures { (p : ProblemValue) (node : Node) (start : List Pair) (lines : Vec TreeLine)
        (cut : Cut) (low high : Leaf) → 0 < p.network.period → ArePairs (length p.table) start
        → AreStep lines.items cut low high → CutExists (problem_net p) p.table cut → LeavesBoth node cut
        → IsFoundAt p start (part node cut Low) low → IsFoundAt p start (part node cut High) high
        → IsValidAt p node start (GivesTree lines) }
{}

/// Times are offered while no leaf is lent.
pub fn times_are_offered()
    ensures { (p : ProblemValue) (used : ℕ) (old new : State) (times : List ℕ) (kept : Bool)
        → KeepsNetLimits p.network → IsSmallTable p.table → IsWorked p used old
        → Offers p old times kept new → IsWorked p used new }
{}

/// A leaf is lent, and it is shown that nothing lies there.
pub fn leaf_is_closed()
    ensures nothing { (p : ProblemValue) (used : ℕ) (old mid new : State) (job : Job)
        (pairs : List Pair) → KeepsNetLimits p.network → IsSmallTable p.table → IsWorked p used old
        → LendsLeaf p old job mid → Takes p mid job.number (GivesNothing pairs) new
        → IsWorked p used new }
    ensures gap { (p : ProblemValue) (used : ℕ) (old mid new : State) (job : Job) (cycle : ℕ)
        → KeepsNetLimits p.network → IsSmallTable p.table → IsWorked p used old → LendsLeaf p old
        job mid → Takes p mid job.number (GivesGap cycle) new → IsWorked p used new }
{}

/// A leaf is lent, a timetable that costs no more than its value is offered, and it is given back as it was.
pub fn leaf_is_settled()
    ensures { (p : ProblemValue) (used : ℕ) (old mid after new : State) (job : Job) (times : List ℕ)
        (kept back : Bool) → KeepsNetLimits p.network → IsSmallTable p.table → IsWorked p used old
        → (lent : LendsLeaf p old job mid) → IsNetTimetable (problem_net p) p.network.events times
        → IsSomeAnd (value_at p job.path.items lent.opens.pairs)
        (λ v. pos (net_cost (problem_net p) times) ≤ℤ v) → Offers p mid times kept after
        → Recalls after job.number back new → IsWorked p used new }
{}

/// No event lets the least value fall; and pairs that are given for the root of a tree of one leaf set it.
pub fn least_is_kept()
    ensures step { (p : ProblemValue) (old new : State) (event : Event) → 0 < p.network.period
        → IsOrderly p old → Step p old event new → IsAtMost (least p old) (least p new) }
    ensures root { (p : ProblemValue) (old mid new : State) (job : Job) (before pairs : List Pair)
        (v : ℤ) → 0 < p.network.period → IsOrderly p old → old.tree ≡ Ends (Bound before)
        → LendsLeaf p old job mid → Takes p mid job.number (GivesPairs pairs) new
        → leaf_value (problem_net p) p.table (root_of p) pairs true ≡ Some v
        → IsAtMost (Some (told v)) (least p new) }
{}

/// What a work would make of a tree of so many branches passes a limit only where there are many cycles.
pub fn large_trees_have_many_pairs()
    ensures { (p : ProblemValue) (state : State) (number used : ℕ) (work : Work)
        → KeepsNetLimits p.network → IsSmallTable p.table → IsOrderly p state
        → branches state.tree ≡ used → used + splits_of work ≤ 400000 → MakesTooMuch p state number
        work → MOST_PAIRS < (used + splits_of work + 1) * length p.table }
{}

/// The cuts of the path to a leaf keep their limits, and so do the pairs of a bound leaf.
pub fn leaves_keep_limits()
    ensures cuts { (p : ProblemValue) (state : State) (path : List (Cut × Side)) (leaf : Leaf)
        → IsOrderly p state → IsLeafAt state.tree path leaf
        → All (λ (step : Cut × Side). IsCutOf (root_of p) step.0) path }
    ensures pairs { (p : ProblemValue) (state : State) (path : List (Cut × Side))
        (pairs : List Pair) → IsOrderly p state → IsLeafAt state.tree path (Bound pairs)
        → ArePairs (length p.table) pairs }
{}

/// What a board that was worked on certifies has as many branch lines as leaves were split, fewer than the room of the root;
/// and where no leaf is open the answer isn't.
pub fn worked_boards_certify()
    ensures branches { (instance : Pesp) (p : ProblemValue) (used : ℕ) (state : State)
        (content : Content) → IsProblemOf instance p → IsWorked p used state → IsCertificateOf p
        instance.events state content → HasBranches (arcs.net_of instance) content used }
    ensures fewer { (instance : Pesp) (p : ProblemValue) (used : ℕ) (state : State)
        (content : Content) → IsProblemOf instance p → IsWorked p used state
        → IsCertificateOf p instance.events state content
        → used < room (arcs.net_of instance) content.cycles
        (root (arcs.net_of instance) content.cycles) }
    ensures decided { (p : ProblemValue) (used : ℕ) (state : State) (events : List ℤ)
        (content : Content) → KeepsNetLimits p.network → IsWorked p used state
        → ((path : List (Cut × Side)) → IsOpen p state path → ⊥)
        → IsCertificateOf p events state content → IsOpenAnswer content.answer → ⊥ }
{}

/// At the root no single pair whose multiplier is 1 by amount has a value above 999999999999999999, so that what is told of it
/// is the value itself.
pub fn single_pairs_have_small_values()
    ensures { (p : ProblemValue) (cycle : ℕ) (mult v : ℤ) → KeepsNetLimits p.network
        → IsSmallTable p.table → unsigned_abs mult ≤ 1 → Names (length p.table) cycle
        → leaf_value (problem_net p) p.table (root_of p) (record { cycle = cycle; mult = mult } ∷ [])
        true ≡ Some v → v ≤ℤ pos 999999999999999999 }
{}

/// Valid work for a lent leaf is refused for want of memory, or because the tree would pass a limit; and a leaf that was just
/// lent is one.
pub fn valid_work_is_taken()
    ensures taken { (p : ProblemValue) (state : State) (number : ℕ) (path : List (Cut × Side))
        (pairs : List Pair) (work : Work) (refusal : GiveRefusal) → HasLeaf state number path pairs
        → IsValidAt p (node_at p path) pairs work → IsRefusedFor p state number work refusal
        → (refusal ≡ Memory) ⊎ (refusal ≡ TooLarge) }
    ensures lent { (p : ProblemValue) (old mid : State) (job : Job) (l : LendsLeaf p old job mid)
        → HasLeaf mid job.number job.path.items l.opens.pairs }
{}

/// A turn spends one number.
pub fn turns_spend_one_number()
    ensures given { (p : ProblemValue) (old mid new : State) (job : Job) (work : Work)
        → LendsLeaf p old job mid → Takes p mid job.number work new
        → length new.numbers ≡ length old.numbers + 1 }
    ensures recalled { (p : ProblemValue) (old mid after new : State) (job : Job) (times : List ℕ)
        (kept back : Bool) → LendsLeaf p old job mid → Offers p mid times kept after
        → Recalls after job.number back new → length new.numbers ≡ length old.numbers + 1 }
{}
