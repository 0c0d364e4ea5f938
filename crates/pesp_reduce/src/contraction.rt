//! The contraction of fixed rows.

ghost use Rattle.std.specs.Prelude.{◌≡◌, ℕ, ◌<◌, ◌≤◌, List, length, map, slice_index, IfOk, All, vec_len};
ghost use Rattle.pesp_problem.specs.declared.row.SignedRow.{SignedRow};
ghost use Rattle.pesp_problem.specs.Arcs.{slacks_at};
ghost use Rattle.pesp_problem.specs.Walks.{Names, IsWalk, HasWholeOffset};
ghost use Rattle.pesp_problem.specs.Forests.{IsSpanningForest};
ghost use Rattle.pesp_network.specs.Networks.{arcs_of_network, net_of_network, KeepsNetLimits};
ghost use Rattle.pesp_reduce.specs.Rows.{fixed_row};
ghost use Rattle.pesp_reduce.specs.Contractions.{AreTree, IsStanding, AreFlags, AreForestFlags};
ghost use Rattle.pesp_reduce.specs.Contracting.{IsContraction};

use crate::rows::{fixed_rows, network_of, part_of};
use pesp_network::Network;
use pesp_problem::Memory;
use std::alloc::{AllocError, Global};

/// Events that are joined by fixed rows become one.
#[derive(Drop)]
pub struct Contraction {
    /// The rows that are contracted, and a loop for each other row.
    pub tree: Network,
    /// For each row, whether it is contracted.
    pub contracted: Vec<bool>,
    /// For each event, how much later it is than the event that it becomes.
    pub shifts: Vec<u32>,
    /// For each event, the number of the event that it becomes, from 0.
    pub stands: Vec<u32>,
    /// For each event that is left, the first of those that become it.
    pub firsts: Vec<u32>,
}

/// The numbers of events.
#[derive(Drop)]
pub struct EventNumbers {
    pub stands: Vec<u32>,
    pub firsts: Vec<u32>,
}

/// For each row, whether it is one of these.
fn flags_of(alloc: Global, count: usize, forest: &[u32]) -> Result<Vec<bool>, AllocError>
    requires { All (Names count) forest.now }
    ensures { IfOk result (λ flags. AreFlags count forest.now flags.items) }
{
    let mut flags = vec![in alloc; false; count]?;
    for row in forest {
        let place = *row as usize - 1;
        flags[place] = true;
    }
    Ok(flags)
}

/// Times that give each row slack 0.
fn shifts_of(alloc: Global, tree: &Network) -> Result<Vec<u32>, Memory>
    requires { (slacks : ℕ → ℕ) (walk : List SignedRow) → ((i : ℕ) → slacks i ≡ 0)
        → IsWalk (arcs_of_network tree.now.rows) walk
        → HasWholeOffset (net_of_network tree.now) slacks walk }
    ensures count { IfOk result (λ times. vec_len times ≡ tree.now.events) }
    ensures below { IfOk result (λ times. All (λ t. t < tree.now.period) times.items) }
    ensures slacks { IfOk result (λ times. (i : ℕ) → i < length tree.now.rows
        → slacks_at (net_of_network tree.now) times.items i ≡ 0) }
{
    let zeros = vec![in alloc; 0u32; tree.rows().len()]?;
    match tree.timetable_of(alloc, zeros.as_slice())? {
        Some(times) => Ok(times),
        None => unreachable!(),
    }
}

/// Numbers for the first events of those that are joined, and for all that are joined with them.
fn standing_of(alloc: Global, tree: &Network) -> Result<EventNumbers, AllocError>
    ensures { IfOk result (λ s. IsStanding (arcs_of_network tree.now.rows) tree.now.events
        s.stands.items s.firsts.items) }
{
    let mut stands: Vec<u32> = Vec::new(alloc);
    let mut firsts: Vec<u32> = Vec::new(alloc);
    for event in 0..tree.events() {
        let first = tree.first_of(event);
        if first < event {
            let stand = stands[first as usize];
            stands.push(stand)?;
            continue;
        }
        stands.push(firsts.len() as u32)?;
        firsts.push(event)?;
    }
    Ok(EventNumbers { stands, firsts })
}

/// The rows of a spanning forest of the fixed rows.
fn fixed_forest(alloc: Global, whole: &Network) -> Result<Vec<u32>, Memory>
    ensures { IfOk result (λ forest. IsSpanningForest (arcs_of_network (map fixed_row whole.now.rows))
        forest.items) }
{
    let rows = fixed_rows(alloc, whole.rows())?;
    let ties = network_of(alloc, whole.period(), whole.events(), rows)?;
    ties.forest(alloc)
}

/// For each row, whether it is in a spanning forest of the fixed rows.
fn contracted_of(alloc: Global, whole: &Network) -> Result<Vec<bool>, Memory>
    ensures { IfOk result (λ flags. AreForestFlags whole.now.rows flags.items) }
{
    let forest = fixed_forest(alloc, whole)?;
    Ok(flags_of(alloc, whole.rows().len(), forest.as_slice())?)
}

/// The contracted rows, with a loop for each other row.
fn tree_of(alloc: Global, whole: &Network, contracted: &[bool]) -> Result<Network, Memory>
    requires { AreForestFlags whole.now.rows contracted.now }
    ensures limits { KeepsNetLimits whole.now }
    ensures period { IfOk result (λ tree. tree.period ≡ whole.now.period) }
    ensures events { IfOk result (λ tree. tree.events ≡ whole.now.events) }
    ensures tree { IfOk result (λ tree. AreTree whole.now.rows tree.rows contracted.now) }
{
    let parts = part_of(alloc, whole.rows(), contracted)?;
    let tree = network_of(alloc, whole.period(), whole.events(), parts)?;
    Ok(tree)
}

/// Contracts the fixed rows of a network that join different events and close no cycle.
pub fn contract(alloc: Global, whole: &Network) -> Result<Contraction, Memory>
    ensures { IfOk result (IsContraction whole.now.period whole.now.events whole.now.rows) }
{
    let contracted = contracted_of(alloc, whole)?;
    let tree = tree_of(alloc, whole, contracted.as_slice())?;
    let shifts = shifts_of(alloc, &tree)?;
    let EventNumbers { stands, firsts } = standing_of(alloc, &tree)?;
    Ok(Contraction {
        tree,
        contracted,
        shifts,
        stands,
        firsts,
    })
}
