//! Reduced networks.

ghost use Rattle.std.specs.Prelude.{◌≡◌, ◌↔◌, ℕ, ◌-◌, ◌<◌, ◌≤◌, length, map, filter, IfOk, All};
ghost use Rattle.pesp_problem.specs.Timetables.{slack, cost, row_at, IsTimetable};
ghost use Rattle.pesp_problem.specs.Arcs.{arc_at, arcs_of, net_of, arc_slack};
ghost use Rattle.pesp_problem.specs.NetTimetables.{IsNetTimetable, net_cost};
ghost use Rattle.pesp_problem.specs.Walks.{Names, IsWalk, net_count, HasWholeOffset};
ghost use Rattle.pesp_problem.specs.Forests.{IsBridge, IsSimple};
ghost use Rattle.pesp_network.specs.Networks.{net_row_at, arc_of_net, arcs_of_network, net_of_network};
ghost use Rattle.pesp_problem.specs.Congruences.{IsSame};
ghost use Rattle.pesp_reduce.specs.Rows.{IsFree};
ghost use Rattle.pesp_reduce.specs.LiftedWalks.{original_row, passes_kept, IsKeptOrContracted, lower_sum, HasNoRowTwice};
ghost use Rattle.pesp_reduce.specs.Reductions.{IsReducedRow, AreKeptRows, AreFatesOf, AreMerged, AreForEvents, HaveNoContractedCycle, AreTightAtContracted, left_slacks, origin_place};

use crate::contraction::Contraction;
use crate::fate::Fate;
use crate::parts::{Parts, parts_of};
use crate::times::{lifted_slacks, lowered_times};
use crate::walks::lifted;
use pesp_network::Network;
use pesp_problem::{Instance, Memory, Walk};
use std::alloc::Global;
use std::marker::Model;

/// What is left of an instance where free rows of weight 0 are dropped, fixed rows are contracted and then bridges are
/// dropped.
#[derive(Drop)]
pub struct Reduced {
    original: Instance,
    whole: Network,
    contraction: Contraction,
    fates: Vec<Fate>,
    network: Network,
}

impl Model for Reduced {
    ghost use Rattle.pesp_reduce.specs.Reductions.{ReducedValue, IsReduction};

    ghost Value = { ReducedValue };

    ghost view = { λ r. record {
      original = r.original;
      fates = r.fates.items;
      stands = r.contraction.stands.items;
      shifts = r.contraction.shifts.items;
      network = r.network;
    } };

    ghost invariant = { λ r. IsReduction r.original r.fates.items r.whole r.contraction r.network };
}

/// The same instance again.
fn copy_of(alloc: Global, instance: &Instance) -> Result<Instance, Memory>
    ensures { IfOk result (λ copy. copy ≡ instance.now) }
{
    let events = Vec::from_slice(alloc, instance.events())?;
    let rows = Vec::from_slice(alloc, instance.rows())?;
    Ok(Instance::new(instance.period(), events, rows))
}

/// Decides what can be decided without searching: drops free rows of weight 0, contracts fixed rows with shifts from 0 to
/// the period less 1, and then drops the bridges of what is left. A fixed row that closes a cycle of fixed rows stays as a
/// loop.
pub fn reduce(alloc: Global, instance: &Instance) -> Result<Reduced, Memory>
    ensures original { IfOk result (λ r. r.original ≡ instance.now) }
    ensures period { IfOk result (λ r. r.network.period ≡ instance.now.period) }
    ensures no_bridge { IfOk result (λ r. (row : ℕ) → Names (length r.network.rows) row
        → IsBridge (arcs_of_network r.network.rows) row → ⊥) }
    ensures no_free { IfOk result (λ r. (j : ℕ) → j < length r.network.rows
        → IsFree r.network.period (arc_of_net (net_row_at r.network.rows j)) → ⊥) }
    ensures no_fixed { IfOk result (λ r. (j : ℕ) → j < length r.network.rows
        → (net_row_at r.network.rows j).span ≡ 0
        → (net_row_at r.network.rows j).tail ≡ (net_row_at r.network.rows j).head) }
    ensures rows { IfOk result (λ r. (j : ℕ) → j < length r.network.rows → IsReducedRow r j) }
    ensures kept { IfOk result AreKeptRows }
    ensures fates { IfOk result (λ r. AreFatesOf r.original r.fates) }
    ensures merged { IfOk result AreMerged }
    ensures lengths { IfOk result AreForEvents }
    ensures shifts { IfOk result (λ r. All (λ t. t < instance.now.period) r.shifts) }
    ensures no_cycle { IfOk result HaveNoContractedCycle }
{
    let original = copy_of(alloc, instance)?;
    let given = Network::of(alloc, instance)?;
    let Parts {
        whole,
        contraction,
        fates,
        network,
    } = parts_of(alloc, instance, &given)?;
    Ok(Reduced {
        original,
        whole,
        contraction,
        fates,
        network,
    })
}

impl Reduced {
    /// What is left: rows between the events that are left, each with the instance's row that it comes from.
    pub fn network(&self) -> &Network
        ensures network { result.now ≡ self.now.network }
        ensures period { self.now.network.period ≡ self.now.original.period }
        ensures no_bridge { (row : ℕ) → Names (length self.now.network.rows) row
            → IsBridge (arcs_of_network self.now.network.rows) row → ⊥ }
        ensures no_free { (j : ℕ) → j < length self.now.network.rows
            → IsFree self.now.network.period (arc_of_net (net_row_at self.now.network.rows j)) → ⊥ }
        ensures no_fixed { (j : ℕ) → j < length self.now.network.rows
            → (net_row_at self.now.network.rows j).span ≡ 0
            → (net_row_at self.now.network.rows j).tail
            ≡ (net_row_at self.now.network.rows j).head }
        ensures rows { (j : ℕ) → j < length self.now.network.rows → IsReducedRow self.now j }
        ensures kept { AreKeptRows self.now }
        ensures fates { AreFatesOf self.now.original self.now.fates }
        ensures merged { AreMerged self.now }
        ensures lengths { AreForEvents self.now }
        ensures shifts { All (λ t. t < self.now.original.period) self.now.shifts }
        ensures no_cycle { HaveNoContractedCycle self.now }
    {
        &self.network
    }

    /// The same reduction with another forest of what is left: these rows, by their numbers from 1, are proposed for it. Which
    /// forest it has then is not promised.
    pub fn with_forest(self, alloc: Global, forest: &[u32]) -> Result<Reduced, Memory>
        ensures original { IfOk result (λ r. r.original ≡ self.original) }
        ensures fates { IfOk result (λ r. r.fates ≡ self.fates) }
        ensures stands { IfOk result (λ r. r.stands ≡ self.stands) }
        ensures shifts { IfOk result (λ r. r.shifts ≡ self.shifts) }
        ensures period { IfOk result (λ r. r.network.period ≡ self.network.period) }
        ensures events { IfOk result (λ r. r.network.events ≡ self.network.events) }
        ensures rows { IfOk result (λ r. r.network.rows ≡ self.network.rows) }
    {
        let Reduced {
            original,
            whole,
            contraction,
            fates,
            network,
        } = self;
        let network = network.with_forest(alloc, forest)?;
        Ok(Reduced {
            original,
            whole,
            contraction,
            fates,
            network,
        })
    }

    /// From times of the instance to times of what is left: each row that is left has its original's slack.
    pub fn lower_times(&self, alloc: Global, times: &[u32]) -> Result<Vec<u32>, Memory>
        requires { IsTimetable self.now.original times.now }
        ensures timetable { IfOk result (λ lowered. IsNetTimetable (net_of_network self.now.network)
            self.now.network.events lowered.items) }
        ensures slacks { IfOk result (λ lowered. (j : ℕ) → j < length self.now.network.rows
            → arc_slack self.now.network.period lowered.items
            (arc_of_net (net_row_at self.now.network.rows j)) ≡ slack self.now.original.period
            times.now (row_at self.now.original.rows (origin_place self.now.network j))) }
    {
        let period = self.original.period();
        let shifts = self.contraction.shifts.as_slice();
        let firsts = self.contraction.firsts.as_slice();
        Ok(lowered_times(alloc, period, times, shifts, firsts)?)
    }

    /// From times of what is left to times of the instance at equal cost: each row that is left has its slack, contracted
    /// rows and bridges have slack 0.
    pub fn lift_times(&self, alloc: Global, times: &[u32]) -> Result<Vec<u32>, Memory>
        requires { IsNetTimetable (net_of_network self.now.network) self.now.network.events
            times.now }
        ensures timetable { IfOk result (λ lifted. IsTimetable self.now.original lifted.items) }
        ensures slacks { IfOk result (λ lifted. (j : ℕ) → j < length self.now.network.rows
            → slack self.now.original.period lifted.items
            (row_at self.now.original.rows (origin_place self.now.network j)) ≡ arc_slack
            self.now.network.period times.now (arc_of_net (net_row_at self.now.network.rows j))) }
        ensures cost { IfOk result (λ lifted. cost self.now.original.period self.now.original.rows
            lifted.items ≡ net_cost (net_of_network self.now.network) times.now) }
    {
        let period = self.original.period();
        let stands = self.contraction.stands.as_slice();
        let shifts = self.contraction.shifts.as_slice();
        let rows = self.whole.rows();
        let fates = self.fates.as_slice();
        let slacks = lifted_slacks(alloc, period, stands, shifts, times, rows, fates)?;
        match self.whole.timetable_of(alloc, slacks.as_slice())? {
            Some(lifted) => Ok(lifted),
            None => unreachable!(),
        }
    }

    /// From a walk of what is left to one of the instance: it closes, passes the rows from which the walk's rows come, in
    /// order and with their signs, and between them contracted rows alone. So its net count of each kept row is the walk's.
    /// Its sum of lower bounds, each times its net count, differs from the walk's by a multiple of the period, so slacks that
    /// are 0 at contracted rows give both a whole offset or neither. Where the walk passes no event and no row twice, it
    /// passes no row twice.
    pub fn lift_walk(&self, alloc: Global, walk: &Walk) -> Result<Walk, Memory>
        requires { IsWalk (arcs_of_network self.now.network.rows) walk.now }
        ensures closes { IfOk result (IsWalk (arcs_of self.now.original)) }
        ensures kept { IfOk result (λ lifted. filter (passes_kept self.now.fates) lifted
            ≡ map (original_row self.now.network.rows) walk.now) }
        ensures others { IfOk result (All (IsKeptOrContracted self.now.fates)) }
        ensures lower { IfOk result (λ lifted. IsSame self.now.original.period
            (lower_sum (arcs_of self.now.original) lifted)
            (lower_sum (arcs_of_network self.now.network.rows) walk.now)) }
        ensures simple { IfOk result (λ lifted. IsSimple (arcs_of_network self.now.network.rows)
            walk.now → HasNoRowTwice lifted) }
        ensures counts { IfOk result (λ lifted. (j : ℕ) → j < length self.now.network.rows
            → net_count lifted (origin_place self.now.network j) ≡ net_count walk.now j) }
        ensures offsets { IfOk result (λ lifted. (slacks : ℕ → ℕ)
            → AreTightAtContracted self.now slacks
            → HasWholeOffset (net_of self.now.original) slacks lifted ↔ HasWholeOffset
            (net_of_network self.now.network) (left_slacks self.now slacks) walk.now) }
    {
        let whole = self.whole.rows();
        let left = self.network.rows();
        let rows = lifted(alloc, whole, &self.contraction, left, walk.rows())?;
        Ok(Walk::new(rows))
    }
}
