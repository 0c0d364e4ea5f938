//! Searches over listed rows.

ghost use Rattle.std.specs.Prelude.{◌≤◌, IfOk, IfErr};
ghost use Rattle.pesp_problem.specs.declared.limits.TheConstants.{MOST_STEPS};
ghost use Rattle.pesp_conflict.specs.Findings.{AreFit, IsOpenOver};
ghost use Rattle.pesp_conflict.specs.Refusals.{IsConflictRefusal};
ghost use Rattle.pesp_conflict.specs.Insides.{IsDecision};

use crate::decision::{Decision, told_by};
use crate::part::part_of;
use pesp_forest::TimesFinder;
use pesp_problem::Instance;
use pesp_search::{Nobody, SolveRefusal, solve_watched};
use std::alloc::Global;

/// Searches, by at most so many splits of a leaf, for times that keep the listed rows.
pub fn decide<F: TimesFinder>(
    alloc: Global,
    instance: &Instance,
    listed: &[u32],
    steps: u32,
    finder: &mut F,
) -> Result<Decision, SolveRefusal>
    requires steps { steps ≤ MOST_STEPS }
    requires fit { AreFit instance.now listed.now }
    ensures decided { IfOk result
        (IsDecision instance.now listed.now (IsOpenOver instance.now steps listed.now)) }
    ensures refused { IfErr result (IsConflictRefusal instance.now steps) }
{
    let _limits = instance.rows();
    let part = part_of(alloc, instance, listed)?;
    let solved = solve_watched(alloc, &part, steps, finder, &mut Nobody)?;
    Ok(told_by(alloc, listed, &solved.certificate)?)
}
