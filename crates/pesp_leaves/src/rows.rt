//! Rows as walks, nodes and leaves see them.

ghost use Rattle.std.specs.Prelude.{◌≡◌, ◌<◌, ◌≤◌, length, unsigned_abs};
ghost use Rattle.pesp_problem.specs.declared.limits.TheConstants.{MOST_BOUND, MOST_SLACK, MOST_WEIGHT};
ghost use Rattle.pesp_problem.specs.Arcs.{arcs_of, arc_at};
ghost use Rattle.pesp_problem.specs.Limits.{KeepsLimits};

use pesp_problem::{Arc, Instance, arc_of};

/// The row at a place, from 0, as walks, nodes and leaves see it.
#[inline]
pub fn arc_at(instance: &Instance, place: usize) -> Arc
    requires { place < length instance.now.rows }
    ensures arc { result ≡ arc_at (arcs_of instance.now) place }
    ensures lower { unsigned_abs result.lower ≤ MOST_BOUND }
    ensures span { result.span ≤ MOST_SLACK }
    ensures weight { result.weight ≤ MOST_WEIGHT }
    ensures limits { KeepsLimits instance.now }
{
    arc_of(instance.period(), &instance.rows()[place])
}
