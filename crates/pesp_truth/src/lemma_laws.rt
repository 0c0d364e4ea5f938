//! Laws of lemmas. Each is a function without a body whose contract is the law.

ghost use Rattle.std.specs.Prelude.{◌≡◌, ℕ, ◌<◌, ◌-◌, List, [], pos, ℤ, ◌-ℤ◌, ◌*ℤ◌, ◌≤ℤ◌, Bool, All, IsSomeAnd, true, false};
ghost use Rattle.pesp_problem.specs.declared.pair.Pair.{Pair};
ghost use Rattle.pesp_problem.specs.declared.row.SignedRow.{SignedRow};
ghost use Rattle.pesp_problem.specs.Timetables.{Pesp};
ghost use Rattle.pesp_problem.specs.Arcs.{Net, arc_at, net_of, over_arcs};
ghost use Rattle.pesp_problem.specs.Walks.{HasWholeOffset};
ghost use Rattle.pesp_problem.specs.Nodes.{Node, LieIn, weight_of, flow, slack_range};
ghost use Rattle.pesp_problem.specs.Marked.{signed_rows};
ghost use Rattle.pesp_problem.specs.Sharp.{Multipliers, AreMultipliers, sharp_value, rates, width};
ghost use Rattle.pesp_truth.specs.Lemmas.{Lemma, lemma_sum, over_pairs, NamesRows, IsTrueOf};
ghost use Rattle.pesp_truth.specs.LemmaLeaves.{LemmaMultiple, taken, lemma_excess, lemma_value, lemma_bound, AllHoldAt};
ghost use Rattle.pesp_truth.specs.Shown.{LemmaProof, AreShownLemmas, lemmas_of};

/// A lemma's sum is that over its own pairs, where their rows exist.
pub fn lemma_sums_by_rows()
    ensures { (n : Net) (weights : List Pair) (slacks : ℕ → ℕ) → NamesRows n.arcs weights
        → lemma_sum n.arcs weights slacks ≡ over_pairs weights (λ pair. pair.mult *ℤ pos (slacks (pair.cycle - 1))) }
{}

/// Where slacks lie in a node, give the marked walks whole offsets and are such that the lemmas hold, a leaf that names
/// these has a value, and it is at most the scale times the sum of weight times slack, whichever the weights are. Divided by
/// the scale and rounded up it is at most that sum.
pub fn lemma_leaves_are_bounds()
    ensures value { (n : Net) (table : List (List SignedRow)) (slacks : ℕ → ℕ) (node : Node)
        (m : Multipliers) (facts : List LemmaMultiple) (weights : ℕ → ℤ) → 0 < n.period
        → AreMultipliers n.arcs table m
        → All (λ multiple. HasWholeOffset n slacks (signed_rows multiple.walk)) m.multiples
        → AllHoldAt n slacks facts → LieIn n table slacks node
        → IsSomeAnd (lemma_value n table node m facts weights)
        (λ v. v ≤ℤ (pos m.scale *ℤ over_arcs n.arcs (λ i. weights i *ℤ pos (slacks i)))) }
    ensures rounded { (n : Net) (table : List (List SignedRow)) (slacks : ℕ → ℕ) (node : Node)
        (m : Multipliers) (facts : List LemmaMultiple) (weights : ℕ → ℤ) → 0 < n.period
        → AreMultipliers n.arcs table m
        → All (λ multiple. HasWholeOffset n slacks (signed_rows multiple.walk)) m.multiples
        → AllHoldAt n slacks facts → LieIn n table slacks node
        → IsSomeAnd (lemma_bound n table node m facts weights)
        (λ v. v ≤ℤ over_arcs n.arcs (λ i. weights i *ℤ pos (slacks i))) }
{}

/// Without lemmas, under the net's own weights or none, it is the value of a sharpened leaf.
pub fn leaves_without_lemmas_are_sharp()
    ensures { (n : Net) (table : List (List SignedRow)) (node : Node) (m : Multipliers)
        (weighted : Bool) → lemma_value n table node m [] (λ i. weight_of weighted (arc_at n.arcs i))
        ≡ sharp_value n table node m weighted }
{}

/// What a checker adds up: the lemmas only change what a unit of slack costs beyond the flow, and at the two ends of a range
/// gains are as ever.
pub fn lemma_values_are_added_up()
    ensures low { (n : Net) (table : List (List SignedRow)) (node : Node) (m : Multipliers)
        (facts : List LemmaMultiple) (weights : ℕ → ℤ) (i : ℕ)
        → lemma_excess n table node m facts weights i (slack_range node.slacks i).0
        ≡ (pos m.scale *ℤ weights i -ℤ flow table m.pairs i -ℤ taken facts i) *ℤ pos (slack_range node.slacks i).0 -ℤ rates n node m true i *ℤ width node.slacks i }
    ensures high { (n : Net) (table : List (List SignedRow)) (node : Node) (m : Multipliers)
        (facts : List LemmaMultiple) (weights : ℕ → ℤ) (i : ℕ)
        → lemma_excess n table node m facts weights i (slack_range node.slacks i).1
        ≡ (pos m.scale *ℤ weights i -ℤ flow table m.pairs i -ℤ taken facts i) *ℤ pos (slack_range node.slacks i).1 -ℤ rates n node m false i *ℤ width node.slacks i }
{}

/// Lemmas that are shown one after the other, the tree of each naming those before it, are true.
pub fn shown_lemmas_are_true()
    ensures { (p : Pesp) (earlier : List Lemma) (shown : List LemmaProof) → 0 < p.period
        → All (IsTrueOf p) earlier → AreShownLemmas (net_of p) earlier shown
        → All (IsTrueOf p) (lemmas_of shown) }
{}
