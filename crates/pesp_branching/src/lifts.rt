//! Laws of lifted tables. Each is a function without a body whose contract is the law: a caller that calls it has the law
//! within reach.

ghost use Rattle.std.specs.Prelude.{◌≡◌, ◌≤◌, ℕ, ◌*◌, ◌<◌, ◌≤ℤ◌, List, length, slice_index, All, pos};
ghost use Rattle.pesp_problem.specs.declared.limits.TheConstants.{MOST_SIGNED_ROWS};
ghost use Rattle.pesp_problem.specs.declared.arc.Arc.{Arc};
ghost use Rattle.pesp_problem.specs.declared.row.SignedRow.{SignedRow};
ghost use Rattle.pesp_problem.specs.Arcs.{net_of, slacks_at};
ghost use Rattle.pesp_problem.specs.Walks.{IsWalk, HasWholeOffset};
ghost use Rattle.pesp_problem.specs.Forests.{IsSimple, AreFundamental};
ghost use Rattle.pesp_problem.specs.Nodes.{cycle_at};
ghost use Rattle.pesp_problem.specs.NetTimetables.{IsNetTimetable, net_cost};
ghost use Rattle.pesp_network.specs.Networks.{arcs_of_network, net_of_network, signed_rows, AreTooMany};
ghost use Rattle.pesp_reduce.specs.LiftedWalks.{HasNoRowTwice};
ghost use Rattle.pesp_reduce.specs.Reductions.{ReducedValue};
ghost use Rattle.pesp_branching.specs.Lifted.{IsReduced, IsLifted, AreLifted, IsFrugal, AreSlacksOf, AreWithin, weighted};

/// Where the walks of a table are the fundamental walks of what is left, and pass no event and no row twice, the lifted table
/// has no cycle that passes a row twice, and none without a row of its own.
pub fn lifted_tables_are_frugal()
    ensures { (r : ReducedValue) (walks table : List (List SignedRow)) → IsReduced r
        → AreFundamental (arcs_of_network r.network.rows) r.network.forest walks
        → All (IsSimple (arcs_of_network r.network.rows)) walks → AreLifted r walks table
        → IsFrugal table }
{}

/// Slacks within the spans that give a lifted walk a whole offset give one to the walk that was lifted.
pub fn lifted_offsets_come_back()
    ensures { (r : ReducedValue) (walk lifted : List SignedRow) (slacks : ℕ → ℕ) (left : List ℕ)
        → IsReduced r → IsWalk (arcs_of_network r.network.rows) walk → IsLifted r walk lifted
        → AreWithin (net_of r.original) slacks → AreSlacksOf r slacks left
        → HasWholeOffset (net_of r.original) slacks lifted
        → HasWholeOffset (net_of_network r.network) (slice_index left) walk }
{}

/// Times of what is left at which each row has the slack of the row from which it comes are a timetable, and cost no more than
/// the sum of weight times slack over all rows.
pub fn slacks_that_come_back_cost_no_more()
    ensures timetable { (r : ReducedValue) (slacks : ℕ → ℕ) (left times : List ℕ) → IsReduced r
        → AreWithin (net_of r.original) slacks → AreSlacksOf r slacks left
        → length times ≡ r.network.events → All (λ t. t < r.network.period) times
        → ((j : ℕ) → j < length r.network.rows → slacks_at (net_of_network r.network) times j
        ≡ slice_index left j) → IsNetTimetable (net_of_network r.network) r.network.events times }
    ensures cost { (r : ReducedValue) (slacks : ℕ → ℕ) (left times : List ℕ) → IsReduced r
        → AreSlacksOf r slacks left → ((j : ℕ) → j < length r.network.rows
        → slacks_at (net_of_network r.network) times j ≡ slice_index left j)
        → pos (net_cost (net_of_network r.network) times) ≤ℤ weighted (net_of r.original) slacks }
{}

/// Fundamental walks are no more than the rows; walks that pass no row twice have no more signed rows each; and what is left
/// has no more rows than the instance.
pub fn tables_are_small()
    ensures short { (arcs : List Arc) (forest : List ℕ) (table : List (List SignedRow))
        → AreFundamental arcs forest table → length table ≤ length arcs }
    ensures rows { (arcs : List Arc) (table : List (List SignedRow)) → All (IsWalk arcs) table
        → All HasNoRowTwice table → signed_rows table ≤ length table * length arcs }
    ensures many { (r : ReducedValue) → IsReduced r → AreTooMany (arcs_of_network r.network.rows)
        r.network.forest → MOST_SIGNED_ROWS < length r.original.rows * length r.original.rows }
    ensures fewer { (r : ReducedValue) → IsReduced r
        → length r.network.rows ≤ length r.original.rows }
{}
