//! Laws of the definitions. Each is a function without a body whose contract is the law.

ghost use Rattle.std.specs.Prelude.{◌≡◌, ℕ, ◌<◌, ◌≤◌, ◌+◌, ◌-◌, ◌*◌, List, ℤ, pos, ◌+ℤ◌, ◌-ℤ◌, ◌*ℤ◌, ◌≤ℤ◌, ◌<ℤ◌, ◌↔◌, Bool, true, false, All, IsSomeAnd};
ghost use Rattle.std.specs.Int.{int_min};
ghost use Rattle.pesp_problem.specs.declared.pair.Pair.{Pair};
ghost use Rattle.pesp_problem.specs.declared.row.SignedRow.{SignedRow};
ghost use Rattle.pesp_problem.specs.Sums.{ceil_div};
ghost use Rattle.pesp_problem.specs.Timetables.{Pesp, cost};
ghost use Rattle.pesp_problem.specs.Arcs.{Net, arc_at, arcs_of, net_of, over_arcs, slacks_at};
ghost use Rattle.pesp_problem.specs.Walks.{HasWholeOffset};
ghost use Rattle.pesp_problem.specs.Nodes.{Node, SlacksIn, LieIn, weight_of, flow, slack_range, leaf_value};
ghost use Rattle.pesp_problem.specs.declared.marked.MarkedRow.{MarkedRow};
ghost use Rattle.pesp_problem.specs.Marked.{signed_rows, IsMarkedWalk, gain, least_gain};
ghost use Rattle.pesp_problem.specs.Sharp.{Multipliers, plain, AreMultipliers, sharp_value, sharp_cost, IsSharpBound, IsSharpShut, excess, least_excess, rates, width};

/// Two numbers whose difference leaves a rest by the period: the one times the period less the rest, and the other times
/// the rest, are together at least the rest times the period less the rest.
#[tactic(auto, using(crate::proofs::Rests::least_of_both))]
pub fn differences_with_a_rest()
    ensures { (period rest p q : ℕ) (k : ℤ) → rest < period
        → pos p -ℤ pos q ≡ pos rest +ℤ pos period *ℤ k
        → rest * (period - rest) ≤ (period - rest) * p + rest * q }
{}

/// The cycle inequality: where slacks are in their ranges and give a marked walk a whole offset, as those at any times do,
/// the walk gains at least its rest times the period less the rest (Nachtigall 1998; with flipped rows Lindner and
/// others 2020).
pub fn marked_walks_gain()
    ensures offset { (n : Net) (ranges : List (ℕ × ℕ)) (slacks : ℕ → ℕ) (walk : List MarkedRow)
        → 0 < n.period → IsMarkedWalk n.arcs walk → HasWholeOffset n slacks (signed_rows walk)
        → SlacksIn n slacks ranges
        → pos (least_gain n ranges walk) ≤ℤ gain n ranges slacks walk }
    ensures times { (n : Net) (ranges : List (ℕ × ℕ)) (times : List ℕ) (walk : List MarkedRow)
        → 0 < n.period → IsMarkedWalk n.arcs walk → SlacksIn n (slacks_at n times) ranges
        → pos (least_gain n ranges walk) ≤ℤ gain n ranges (slacks_at n times) walk }
{}

/// Where slacks lie in a node and give the marked walks whole offsets a sharpened leaf has a value, and it is at most the
/// scale times the sum of weight times slack. So for each timetable in the node it is at most the scale times the cost,
/// and divided by the scale and rounded up at most the cost.
pub fn sharp_values_are_bounds()
    ensures bound { (n : Net) (table : List (List SignedRow)) (slacks : ℕ → ℕ) (node : Node)
        (m : Multipliers) (weighted : Bool) → 0 < n.period → AreMultipliers n.arcs table m
        → All (λ multiple. HasWholeOffset n slacks (signed_rows multiple.walk)) m.multiples
        → LieIn n table slacks node → IsSomeAnd (sharp_value n table node m weighted)
        (λ v. v ≤ℤ (pos m.scale *ℤ over_arcs n.arcs (λ i. weight_of weighted (arc_at n.arcs i) *ℤ pos (slacks i)))) }
    ensures cost { (p : Pesp) (table : List (List SignedRow)) (times : List ℕ) (node : Node)
        (m : Multipliers) → 0 < p.period → AreMultipliers (arcs_of p) table m
        → LieIn (net_of p) table (slacks_at (net_of p) times) node → IsSomeAnd
        (sharp_value (net_of p) table node m true)
        (λ v. v ≤ℤ pos (m.scale * cost p.period p.rows times)) }
    ensures rounded { (p : Pesp) (table : List (List SignedRow)) (times : List ℕ) (node : Node)
        (m : Multipliers) → 0 < p.period → AreMultipliers (arcs_of p) table m
        → LieIn (net_of p) table (slacks_at (net_of p) times) node → IsSomeAnd
        (sharp_cost (net_of p) table node m) (λ c. c ≤ℤ pos (cost p.period p.rows times)) }
{}

/// With all weights 0 the value is at most 0 where the slacks of some times lie in the node.
pub fn unweighted_values_are_at_most_0()
    ensures { (n : Net) (table : List (List SignedRow)) (times : List ℕ) (node : Node)
        (m : Multipliers) → 0 < n.period → AreMultipliers n.arcs table m
        → LieIn n table (slacks_at n times) node
        → IsSomeAnd (sharp_value n table node m false) (λ v. v ≤ℤ pos 0) }
{}

/// What leaves of a tree show: that each timetable in the node costs enough, or that none lies there.
pub fn sharp_leaves_are_right()
    ensures sum { (n : Net) (table : List (List SignedRow)) (times : List ℕ) (least : ℕ) (node : Node)
        (m : Multipliers) → 0 < n.period → IsSharpBound n table least m node
        → LieIn n table (slacks_at n times) node → pos least
        ≤ℤ over_arcs n.arcs (λ i. weight_of true (arc_at n.arcs i) *ℤ pos (slacks_at n times i)) }
    ensures cost { (p : Pesp) (table : List (List SignedRow)) (times : List ℕ) (least : ℕ) (node : Node)
        (m : Multipliers) → 0 < p.period → IsSharpBound (net_of p) table least m node
        → LieIn (net_of p) table (slacks_at (net_of p) times) node
        → least ≤ cost p.period p.rows times }
    ensures none { (n : Net) (table : List (List SignedRow)) (times : List ℕ) (node : Node)
        (m : Multipliers) → 0 < n.period → IsSharpShut n table m node
        → LieIn n table (slacks_at n times) node → ⊥ }
{}

/// With no marked walks and scale 1 it is the value of a leaf.
pub fn leaves_without_walks_are_plain()
    ensures value { (n : Net) (table : List (List SignedRow)) (node : Node) (pairs : List Pair)
        (weighted : Bool) → sharp_value n table node (plain pairs) weighted
        ≡ leaf_value n table node pairs weighted }
    ensures cost { (n : Net) (table : List (List SignedRow)) (node : Node) (pairs : List Pair)
        → sharp_cost n table node (plain pairs) ≡ leaf_value n table node pairs true }
{}

/// What a checker adds up: at the low end of a range only flipped passes gain, at the high end only plain ones, each the
/// width of the range; a row that neither flows nor gains pass costs the scale times what it costs a leaf without pairs; and
/// whether a value by the scale, rounded up, is enough is seen without a division.
pub fn sharp_values_are_added_up()
    ensures low { (n : Net) (table : List (List SignedRow)) (node : Node) (m : Multipliers)
        (weighted : Bool) (i : ℕ) → excess n table node m weighted i (slack_range node.slacks i).0
        ≡ (pos m.scale *ℤ weight_of weighted (arc_at n.arcs i) -ℤ flow table m.pairs i) *ℤ pos (slack_range node.slacks i).0 -ℤ rates n node m true i *ℤ width node.slacks i }
    ensures high { (n : Net) (table : List (List SignedRow)) (node : Node) (m : Multipliers)
        (weighted : Bool) (i : ℕ) → excess n table node m weighted i (slack_range node.slacks i).1
        ≡ (pos m.scale *ℤ weight_of weighted (arc_at n.arcs i) -ℤ flow table m.pairs i) *ℤ pos (slack_range node.slacks i).1 -ℤ rates n node m false i *ℤ width node.slacks i }
    ensures idle { (n : Net) (table : List (List SignedRow)) (node : Node) (m : Multipliers)
        (weighted : Bool) (i : ℕ) → flow table m.pairs i ≡ pos 0 → rates n node m true i ≡ pos 0
        → rates n node m false i ≡ pos 0 → least_excess n table node m weighted i
        ≡ pos m.scale *ℤ int_min (weight_of weighted (arc_at n.arcs i) *ℤ pos (slack_range node.slacks i).0)
        (weight_of weighted (arc_at n.arcs i) *ℤ pos (slack_range node.slacks i).1) }
    ensures enough { (value : ℤ) (scale least : ℕ) → 0 < scale
        → (pos least ≤ℤ ceil_div value scale) ↔ (pos (scale * least) <ℤ (value +ℤ pos scale)) }
{}
