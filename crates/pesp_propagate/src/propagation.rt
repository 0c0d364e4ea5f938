//! Propagation over a network.

ghost use Rattle.std.specs.Prelude.{◌≡◌, ℕ, ◌<◌, ◌≤◌, ◌↔◌, length, List, IfOk, Ok, false};
ghost use Rattle.pesp_problem.specs.Arcs.{slacks_at};
ghost use Rattle.pesp_problem.specs.Nodes.{SlacksIn};
ghost use Rattle.pesp_problem.specs.Families.{Family, IsSupported, IsWithin, HasNoEmpty, NoFamilyIsSupported};
ghost use Rattle.pesp_network.specs.Networks.{net_of_network};
ghost use Rattle.pesp_domains.specs.Domains.{family_of, HaveSizes};
ghost use Rattle.pesp_domains.specs.Full.{IsFull};
ghost use Rattle.pesp_propagate.specs.Answers.{HasNone, TellsEmpty, HasDifferences};

use pesp_domains::{Domains, Outcome, Rows};
use pesp_network::Network;
use pesp_problem::Memory;
use std::alloc::Global;

/// Takes away each difference that some row does not support, until all that is left is supported or a set is empty
/// (arc consistency). The ranges are slack ranges, one for each row; one whose low end is above its high end is empty.
/// `Stable` leaves sets that every row supports, none of them empty. `Empty` names an event whose set is empty, and is
/// answered exactly where no family within the sets given is supported without an empty set. After `Memory` the sets may
/// have shrunk, but have lost nothing that is supported.
pub fn propagate(
    alloc: Global,
    network: &Network,
    ranges: &[(u32, u32)],
    domains: &mut Domains,
) -> Result<Outcome, Memory>
    requires domains { HaveSizes network.now.period network.now.events domains.old }
    requires ranges { length ranges.now ≡ length network.now.rows }
    ensures sizes { HaveSizes network.now.period network.now.events domains.new }

    // sets only shrink, and lose no difference of a supported family or of a timetable
    ensures within { IsWithin (family_of domains.new) (family_of domains.old) }
    ensures keeps { (s : Family) → IsSupported (net_of_network network.now) ranges.now s
        → IsWithin s (family_of domains.old) → IsWithin s (family_of domains.new) }
    ensures timetables { (times : List ℕ) → SlacksIn (net_of_network network.now)
        (slacks_at (net_of_network network.now) times) ranges.now
        → HasDifferences (net_of_network network.now) network.now.events times
        (family_of domains.old) → HasDifferences (net_of_network network.now) network.now.events
        times (family_of domains.new) }

    // the answers, and when each comes
    ensures stable { result ≡ Ok Outcome.Stable → IsSupported (net_of_network network.now)
        ranges.now (family_of domains.new) × HasNoEmpty network.now.events (family_of domains.new) }
    ensures empty { (event : ℕ) → result ≡ Ok (Outcome.Empty event) → (event < network.now.events)
        × ((difference : ℕ) → family_of domains.new event difference ≡ false) }
    ensures exact { IfOk result (λ outcome. TellsEmpty outcome
        ↔ HasNone (net_of_network network.now) ranges.now network.now.events
        (family_of domains.old)) }
    ensures full { IsFull (net_of_network network.now) network.now.events (family_of domains.old)
        → IfOk result (λ outcome. TellsEmpty outcome
        ↔ NoFamilyIsSupported (net_of_network network.now) ranges.now network.now.events) }
{
    let rows = Rows::of(alloc, network)?;
    rows.settle_all(alloc, domains, ranges)
}
