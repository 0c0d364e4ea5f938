//! Laws of trees under work: what another leaf or a split changes, and what it leaves. Each is a function without a body whose
//! contract is the law: a caller that calls it has the law within reach.

ghost use Rattle.std.specs.Prelude.{◌≡◌, ◌≢◌, ℕ, ◌+◌, ◌<◌, [], ◌∷◌, ◌++◌, length, Some, None, IsSome};
ghost use Rattle.pesp_problem.specs.declared.cut.Cut.{Cut};
ghost use Rattle.pesp_problem.specs.declared.cut.Side.TheVariants.{Low, High};
ghost use Rattle.pesp_truth.specs.Trees.{Leaf};
ghost use Rattle.pesp_tree.specs.WorkTrees.{WorkTreeValue, path_to, leaf_at, with_leaf, with_branch};

/// Another leaf at a node changes that node's leaf alone.
#[tactic(auto, using(crate::proofs::Effects::put_here, crate::proofs::Effects::put_others))]
pub fn leaves_after_a_put()
    ensures here { (t : WorkTreeValue) (node : ℕ) (leaf : Leaf) → IsSome (leaf_at t node)
        → leaf_at (with_leaf t node leaf) node ≡ Some leaf }
    ensures others { (t : WorkTreeValue) (node : ℕ) (leaf : Leaf) (other : ℕ) → other ≢ node
        → leaf_at (with_leaf t node leaf) other ≡ leaf_at t other }
{}

/// A split takes the node's leaf, gives the two new nodes theirs, and leaves those of the others.
#[tactic(auto, using(crate::proofs::Effects::split_here, crate::proofs::Effects::split_low, crate::proofs::Effects::split_high, crate::proofs::Effects::split_others))]
pub fn leaves_after_a_split()
    ensures here { (t : WorkTreeValue) (node : ℕ) (cut : Cut) (low high : Leaf)
        → node < length t.leaves → leaf_at (with_branch t node cut low high) node ≡ None }
    ensures low { (t : WorkTreeValue) (node : ℕ) (cut : Cut) (low high : Leaf)
        → leaf_at (with_branch t node cut low high) (length t.leaves) ≡ Some low }
    ensures high { (t : WorkTreeValue) (node : ℕ) (cut : Cut) (low high : Leaf)
        → leaf_at (with_branch t node cut low high) (length t.leaves + 1) ≡ Some high }
    ensures others { (t : WorkTreeValue) (node : ℕ) (cut : Cut) (low high : Leaf) (other : ℕ)
        → other < length t.leaves → other ≢ node
        → leaf_at (with_branch t node cut low high) other ≡ leaf_at t other }
{}

/// A split leaves the paths to the nodes that were there, and the two new nodes are one step below the one that was split.
#[tactic(auto, using(crate::proofs::Effects::path_low, crate::proofs::Effects::path_high, crate::proofs::Effects::path_others))]
pub fn paths_after_a_split()
    ensures low { (t : WorkTreeValue) (node : ℕ) (cut : Cut) (low high : Leaf) → path_to
        (with_branch t node cut low high) (length t.paths) ≡ path_to t node ++ (cut, Low) ∷ [] }
    ensures high { (t : WorkTreeValue) (node : ℕ) (cut : Cut) (low high : Leaf)
        → path_to (with_branch t node cut low high) (length t.paths + 1)
        ≡ path_to t node ++ (cut, High) ∷ [] }
    ensures others { (t : WorkTreeValue) (node : ℕ) (cut : Cut) (low high : Leaf) (other : ℕ)
        → other < length t.paths
        → path_to (with_branch t node cut low high) other ≡ path_to t other }
{}
