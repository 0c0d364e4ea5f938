//! Whether the rows of a network support any sets at all.

ghost use Rattle.std.specs.Prelude.{◌≡◌, ◌↔◌, length, IfOk, IsTrue};
ghost use Rattle.pesp_problem.specs.Families.{NoFamilyIsSupported};
ghost use Rattle.pesp_network.specs.Networks.{net_of_network};

use crate::propagation::propagate;
use pesp_domains::{Domains, Outcome};
use pesp_network::Network;
use pesp_problem::Memory;
use std::alloc::Global;

/// Whether under these slack ranges, one for each row, the rows support no family of sets of differences without an empty set.
/// Then no timetable has its slacks in them. The one refusal is of memory.
pub fn supports_none(
    alloc: Global,
    network: &Network,
    ranges: &[(u32, u32)],
) -> Result<bool, Memory>
    requires { length ranges.now ≡ length network.now.rows }
    ensures { IfOk result (λ none. IsTrue none
        ↔ NoFamilyIsSupported (net_of_network network.now) ranges.now network.now.events) }
{
    let mut domains = Domains::full(alloc, network)?;
    match propagate(alloc, network, ranges, &mut domains)? {
        Outcome::Stable => Ok(false),
        Outcome::Empty { .. } => Ok(true),
    }
}
