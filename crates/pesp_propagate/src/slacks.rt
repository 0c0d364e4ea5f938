//! Slacks of times.

ghost use Rattle.std.specs.Prelude.{◌≡◌, IfOk, length};
ghost use Rattle.pesp_problem.specs.ArcLimits.{KeepArcLimits};
ghost use Rattle.pesp_propagate.specs.Slacks.{AreSlacksAt};

use pesp_problem::net_times::arc_slack;
use pesp_problem::{Arc, Memory};
use std::alloc::Global;

/// The slack of each arc, in order.
pub fn slacks_of(
    alloc: Global,
    period: u32,
    arcs: &[Arc],
    times: &[u32],
) -> Result<Vec<u32>, Memory>
    requires { KeepArcLimits period (length times.now) arcs.now }
    ensures { IfOk result (λ slacks. AreSlacksAt period times.now arcs.now slacks.items) }
{
    let mut slacks = Vec::new(alloc);
    for arc in arcs {
        slacks.push(arc_slack(period, times, arc))?;
    }
    Ok(slacks)
}
