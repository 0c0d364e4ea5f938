//! Timetables of networks are made cheaper.

ghost use Rattle.std.specs.Prelude.{◌≡◌, ◌≤◌, ◌↔◌, IsErrOf, IfOk};
ghost use Rattle.pesp_problem.specs.Forests.{IsSpanningForest};
ghost use Rattle.pesp_network.specs.Networks.{arcs_of_network, net_of_network};
ghost use Rattle.pesp_problem.specs.NetTimetables.{IsNetTimetable, net_cost};
ghost use Rattle.pesp_propagate.specs.Local.{IsLocal};

use crate::improved::{Improved, SimplexRefusal, Stop};
use crate::settle::improve_times;
use pesp_network::Network;
use std::alloc::Global;

/// Makes a timetable of a network cheaper by shifts of one side of a fundamental cut (the modulo network simplex:
/// Nachtigall and Opitz 2008), in at most so many rounds. The times are a timetable that is never dearer than the
/// argument, `cost` is its sum of weight times slack, and the forest joins what the network's rows join.
///
/// With `Stop::Local` no shift of one side of a fundamental cut of that forest, by any amount, is a cheaper timetable;
/// `Stop::Rounds` says nothing. Refused as `NotFeasible` exactly where the argument is no timetable of the network, and
/// as `Memory` only where a growth was refused.
pub fn improve(
    alloc: Global,
    network: &Network,
    times: &[u32],
    rounds: u32,
) -> Result<Improved, SimplexRefusal>
    ensures not_feasible { IsErrOf result SimplexRefusal.NotFeasible
        ↔ ¬ IsNetTimetable (net_of_network network.now) network.now.events times.now }
    ensures timetable { IfOk result
        (λ i. IsNetTimetable (net_of_network network.now) network.now.events i.times.items) }
    ensures cost { IfOk result (λ i. i.cost ≡ net_cost (net_of_network network.now) i.times.items) }
    ensures never_dearer { IfOk result
        (λ i. i.cost ≤ net_cost (net_of_network network.now) times.now) }
    ensures forest { IfOk result
        (λ i. IsSpanningForest (arcs_of_network network.now.rows) i.forest.items) }
    ensures local { IfOk result (λ i. i.stop ≡ Stop.Local
        → IsLocal (net_of_network network.now) network.now.events i.forest.items i.times.items) }
{
    if !network.is_timetable(times) {
        return Err(SimplexRefusal::NotFeasible);
    }
    let forest = network.forest(alloc)?;
    Ok(improve_times(
        alloc,
        network.period(),
        network.events(),
        network.arcs(),
        times,
        forest,
        rounds,
    )?)
}
