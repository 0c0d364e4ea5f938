//! Laws of networks. Each is a function without a body whose contract is the law: a caller that calls it has the law
//! within reach.

ghost use Rattle.std.specs.Prelude.{◌≡◌, ℕ, List, All};
ghost use Rattle.pesp_problem.specs.declared.row.SignedRow.{SignedRow};
ghost use Rattle.pesp_problem.specs.declared.arc.Arc.{Arc};
ghost use Rattle.pesp_problem.specs.Arcs.{Net};
ghost use Rattle.pesp_problem.specs.Walks.{net_count, HasWholeOffset};
ghost use Rattle.pesp_problem.specs.Forests.{HaveNoCycle, IsFundamental, AreFundamental};
ghost use Rattle.pesp_network.specs.Networks.{HasOpenRow};

/// The fundamental walks of one row in a forest pass each row equally often, each counted by its signs.
pub fn fundamental_walks_count_alike()
    ensures { (arcs : List Arc) (forest : List ℕ) (row : ℕ) (walk other : List SignedRow) (i : ℕ)
        → HaveNoCycle arcs forest → IsFundamental arcs forest row walk
        → IsFundamental arcs forest row other → net_count walk i ≡ net_count other i }
{}

/// Where slacks give each fundamental walk of a table a whole offset, no row is open: so such slacks come from times.
pub fn whole_offsets_leave_no_row_open()
    ensures { (n : Net) (forest : List ℕ) (table : List (List SignedRow)) (slacks : ℕ → ℕ)
        → AreFundamental n.arcs forest table
        → All (HasWholeOffset n slacks) table → HasOpenRow n forest slacks → ⊥ }
{}
