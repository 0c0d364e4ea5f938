//! Laws of the definitions. Each is a function without a body whose contract is the law: a caller that calls it has the
//! law within reach.

ghost use Rattle.std.specs.Prelude.{◌≡◌, ℕ, ◌<◌, ◌≤◌, ◌≤ℤ◌, ◌*ℤ◌, ◌↔◌, List, length, map, nat_eq, ℤ, pos, Bool, false, true, IfSome, IsSomeAnd, All};
ghost use Rattle.std.specs.List.{IsDistinct};
ghost use Rattle.pesp_problem.specs.declared.arc.Arc.{Arc};
ghost use Rattle.pesp_problem.specs.declared.pair.Pair.{Pair};
ghost use Rattle.pesp_problem.specs.declared.row.Row.{Row};
ghost use Rattle.pesp_problem.specs.declared.row.SignedRow.{SignedRow};
ghost use Rattle.pesp_problem.specs.Timetables.{Pesp, slack, cost, IsSatisfied, IsTimetable};
ghost use Rattle.pesp_problem.specs.Arcs.{Net, arc_at, span, arcs_of, net_of, over_arcs, slacks_at};
ghost use Rattle.pesp_problem.specs.NetTimetables.{IsNetTimetable, net_cost};
ghost use Rattle.pesp_problem.specs.Walks.{Names, AreRows, IsWalk, HasWholeOffset};
ghost use Rattle.pesp_problem.specs.Forests.{IsSpanningForest, AreFundamental};
ghost use Rattle.pesp_problem.specs.Nodes.{Node, LieIn, root, offsets_left, IsOffsetLeft, weight_of, leaf_value};

/// A row is satisfied exactly where its slack is at most its span.
pub fn slack_is_within_span()
    ensures { (p : Pesp) (times : List ℕ) (row : Row) → 0 < p.period → row.lower ≤ℤ row.upper
        → IsSatisfied p times row ↔ (slack p.period times row ≤ span p.period row) }
{}

/// Where no row's bounds are crossed the timetables of an instance are those of its net, and each costs the same there.
pub fn timetables_are_those_of_the_net()
    ensures timetables { (p : Pesp) (times : List ℕ)
        → 0 < p.period → All (λ row. row.lower ≤ℤ row.upper) p.rows
        → IsTimetable p times ↔ IsNetTimetable (net_of p) (length p.events) times }
    ensures costs { (p : Pesp) (times : List ℕ)
        → net_cost (net_of p) times ≡ cost p.period p.rows times }
{}

/// Cycle periodicity: at any times, along each closed walk, the durations add up to a whole number of periods (Odijk 1996;
/// Nachtigall and Opitz 2008).
#[tactic(auto, using(crate::proofs::Walks::has_offset))]
pub fn walks_have_offsets()
    ensures { (n : Net) (times : List ℕ) (walk : List SignedRow) → 0 < n.period
        → IsWalk n.arcs walk → HasWholeOffset n (slacks_at n times) walk }
{}

/// The slacks of each timetable lie in the root of each table of closed walks.
pub fn timetables_lie_in_the_root()
    ensures { (p : Pesp) (table : List (List SignedRow)) (times : List ℕ) → 0 < p.period
        → All (IsWalk (arcs_of p)) table → IsTimetable p times
        → LieIn (net_of p) table (slacks_at (net_of p) times) (root (net_of p) table) }
{}

/// The offsets left of a cycle are those from the first number to the second, and there is at least one.
pub fn offsets_left_are_all()
    ensures exactly { (n : Net) (table : List (List SignedRow)) (node : Node) (c : ℕ) (z : ℤ)
        → 0 < n.period → IsOffsetLeft n table node c z
        ↔ IsSomeAnd (offsets_left n table node c) (λ left. (left.0 ≤ℤ z) × (z ≤ℤ left.1)) }
    ensures in_order { (n : Net) (table : List (List SignedRow)) (node : Node) (c : ℕ)
        → IfSome (offsets_left n table node c) (λ left. left.0 ≤ℤ left.1) }
{}

/// Where slacks lie in a node each leaf there has a value, and it is at most the sum of weight times slack: with the rows'
/// weights at most the cost of each timetable in the node, and with all weights 0 at most 0.
pub fn leaf_values_are_bounds()
    ensures bound { (n : Net) (table : List (List SignedRow)) (slacks : ℕ → ℕ) (node : Node)
        (pairs : List Pair) (weighted : Bool) → 0 < n.period
        → All (λ pair. Names (length table) pair.cycle) pairs → LieIn n table slacks node
        → IsSomeAnd (leaf_value n table node pairs weighted)
        (λ v. v ≤ℤ over_arcs n.arcs (λ i. weight_of weighted (arc_at n.arcs i) *ℤ pos (slacks i))) }
    ensures cost { (p : Pesp) (table : List (List SignedRow)) (times : List ℕ) (node : Node)
        (pairs : List Pair) → 0 < p.period → All (λ pair. Names (length table) pair.cycle) pairs
        → LieIn (net_of p) table (slacks_at (net_of p) times) node → IsSomeAnd
        (leaf_value (net_of p) table node pairs true) (λ v. v ≤ℤ pos (cost p.period p.rows times)) }
    ensures none { (n : Net) (table : List (List SignedRow)) (slacks : ℕ → ℕ) (node : Node)
        (pairs : List Pair) → 0 < n.period → All (λ pair. Names (length table) pair.cycle) pairs
        → LieIn n table slacks node
        → IsSomeAnd (leaf_value n table node pairs false) (λ v. v ≤ℤ pos 0) }
{}

/// A way that passes no row twice has at most as many signed rows as there are rows; a spanning forest has at most so many
/// rows, and a table of fundamental walks at most so many walks.
pub fn rows_bound_ways_and_tables()
    ensures ways { (arcs : List Arc) (way : List SignedRow) → AreRows arcs way
        → IsDistinct nat_eq (map (λ s. s.row) way) → length way ≤ length arcs }
    ensures forests { (arcs : List Arc) (forest : List ℕ) → IsSpanningForest arcs forest
        → length forest ≤ length arcs }
    ensures tables { (arcs : List Arc) (forest : List ℕ) (table : List (List SignedRow))
        → AreFundamental arcs forest table → length table ≤ length arcs }
{}
