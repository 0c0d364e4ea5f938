//! Networks.

ghost use Rattle.std.specs.Prelude.{◌≡◌, ◌≢◌, ℕ, ◌+◌, ◌<◌, ◌≤◌, ◌↔◌, length, slice_index, IsTrue, IfOk, IfErr, IfSome, IfNone, All, vec_len};
ghost use Rattle.pesp_problem.specs.declared.limits.TheConstants.{MOST_ROWS, MOST_SIGNED_ROWS};
ghost use Rattle.pesp_problem.specs.Arcs.{arcs_of, slacks_at};
ghost use Rattle.pesp_problem.specs.ArcLimits.{KeepArcLimits};
ghost use Rattle.pesp_problem.specs.NetTimetables.{IsNetTimetable, net_cost};
ghost use Rattle.pesp_problem.specs.Walks.{Names, AreRows, Leads, start};
ghost use Rattle.pesp_problem.specs.Forests.{KeepsTo, IsSpanningForest, AreFundamental, IsSimple, IsBridge, AreJoined, IsFirstOf};
ghost use Rattle.pesp_network.specs.Chains.{AreChains};
ghost use Rattle.pesp_network.specs.Rooted.{IsForest, AreReaches, AreTreeRows};
ghost use Rattle.pesp_network.specs.Networks.{arcs_of_network, net_of_network, net_row_at, KeepsSizes, RowKeepsNetLimits, KeepsNetLimits, IsNewRefusal, IsTableRefusal, HasOpenRow, signed_rows};

use crate::chains::{Chains, chain_rows};
use crate::limits::{bad_row, rows_of};
use crate::parts::{Forest, Reaches};
use crate::proposal::numbers_or_none;
use crate::refusal::NetRefusal;
use crate::row::{NetRow, without_origins};
use crate::{bridges, forest, times, walks};
use pesp_problem::{Arc, Instance, Memory, SignedRow, Walk, net_times};
use std::alloc::{AllocError, Global};
use std::marker::Model;

/// What is found in rows and a forest of them: the rows without their origins, the places that are reached, and the
/// forest's rows.
#[derive(Drop)]
struct Findings {
    arcs: Vec<Arc>,
    reaches: Reaches,
    kept: Vec<u32>,
}

/// What is found in these rows and this forest.
fn find(
    alloc: Global,
    events: usize,
    rows: &[NetRow],
    forest: &Forest,
) -> Result<Findings, AllocError>
    requires { IsForest events (arcs_of_network rows.now) forest.now }
    ensures arcs { IfOk result (λ found. found.arcs.items ≡ arcs_of_network rows.now) }
    ensures reaches { IfOk result (λ found. AreReaches events (arcs_of_network rows.now) forest.now
        found.reaches.low.items found.reaches.high.items) }
    ensures sized { IfOk result (λ found. vec_len found.reaches.low ≡ vec_len forest.now.up) }
    ensures kept { IfOk result (λ found. AreTreeRows events forest.now found.kept.items) }
{
    let kept = walks::forest_rows(alloc, events, forest)?;
    let arcs = without_origins(alloc, rows)?;
    let reaches = bridges::reach(alloc, rows, forest)?;
    Ok(Findings {
        arcs,
        reaches,
        kept,
    })
}

/// Rows between events, within their limits, with a spanning forest that is chosen when the network is made.
#[derive(Drop)]
pub struct Network {
    period: u32,
    events: usize,
    rows: Vec<NetRow>,
    arcs: Vec<Arc>,
    forest: Forest,
    reaches: Reaches,
    kept: Vec<u32>,
}

impl Model for Network {
    ghost use Rattle.pesp_network.specs.Networks.{NetworkValue};
    ghost use Rattle.pesp_network.specs.Held.{NetworkIsHeld};

    ghost Value = { NetworkValue };

    ghost view = { λ n. record {
      period = n.period;
      events = n.events;
      rows = n.rows.items;
      forest = n.kept.items;
    } };

    ghost invariant = { λ n. NetworkIsHeld (record {
      period = n.period;
      events = n.events;
      rows = n.rows.items;
      forest = n.kept.items;
    }) n.arcs.items n.forest n.reaches };
}

impl Network {
    /// The network of these parts, which keep the limits.
    fn make(alloc: Global, period: u32, events: u32, rows: Vec<NetRow>) -> Result<Network, Memory>
        requires sizes { KeepsSizes period events }
        requires few { length rows.items ≤ MOST_ROWS }
        requires each { All (RowKeepsNetLimits period events) rows.items }
        ensures period { IfOk result (λ n. n.period ≡ period) }
        ensures events { IfOk result (λ n. n.events ≡ events) }
        ensures rows { IfOk result (λ n. n.rows ≡ rows.items) }
    {
        let events = events as usize;
        let forest = forest::forest_of(alloc, events, rows.as_slice())?;
        Network::with(alloc, period, events, rows, forest)
    }

    /// The network of these parts, which keep the limits, and of a forest of them.
    fn with(
        alloc: Global,
        period: u32,
        events: usize,
        rows: Vec<NetRow>,
        forest: Forest,
    ) -> Result<Network, Memory>
        requires sizes { KeepsSizes period events }
        requires few { length rows.items ≤ MOST_ROWS }
        requires each { All (RowKeepsNetLimits period events) rows.items }
        requires forest { IsForest events (arcs_of_network rows.items) forest }
        ensures period { IfOk result (λ n. n.period ≡ period) }
        ensures events { IfOk result (λ n. n.events ≡ events) }
        ensures rows { IfOk result (λ n. n.rows ≡ rows.items) }
    {
        let Findings {
            arcs,
            reaches,
            kept,
        } = find(alloc, events, rows.as_slice(), &forest)?;
        Ok(Network {
            period,
            events,
            rows,
            arcs,
            forest,
            reaches,
            kept,
        })
    }

    /// The network of an instance: its period, its events and its rows in order, each with its span and with its number
    /// as origin.
    pub fn of(alloc: Global, instance: &Instance) -> Result<Network, Memory>
        ensures period { IfOk result (λ n. n.period ≡ instance.now.period) }
        ensures events { IfOk result (λ n. n.events ≡ length instance.now.events) }
        ensures rows { IfOk result (λ n. arcs_of_network n.rows ≡ arcs_of instance.now) }
        ensures origins { IfOk result
            (λ n. (i : ℕ) → i < length n.rows → (net_row_at n.rows i).origin ≡ i + 1) }
    {
        let period = instance.period();
        let events = instance.events().len() as u32;
        let rows = rows_of(alloc, period, instance.rows())?;
        let network = Network::make(alloc, period, events, rows)?;
        Ok(network)
    }

    /// The network of these parts. Refused as `BadRow { row: 0 }` where the period isn't 1 to 10000 or there are more
    /// than 100000 events, else with the number of the first row that has an end that is no event, a span not below the
    /// period, a lower bound beyond 1020000 by amount, a weight above 1000000000 or a place in the list above 100000.
    pub fn new(
        alloc: Global,
        period: u32,
        events: u32,
        rows: Vec<NetRow>,
    ) -> Result<Network, NetRefusal>
        ensures period { IfOk result (λ n. n.period ≡ period) }
        ensures events { IfOk result (λ n. n.events ≡ events) }
        ensures rows { IfOk result (λ n. n.rows ≡ rows.items) }
        ensures limits { IfOk result KeepsNetLimits }
        ensures refused { IfErr result (IsNewRefusal period events rows.items) }
    {
        if let Some(row) = bad_row(period, events, rows.as_slice()) {
            return Err(NetRefusal::BadRow { row });
        }
        let network = Network::make(alloc, period, events, rows)?;
        Ok(network)
    }

    /// The same network with another forest: these rows, by their numbers from 1, are proposed for it. Which forest it has then
    /// is not promised.
    pub fn with_forest(&self, alloc: Global, forest: &[u32]) -> Result<Network, Memory>
        ensures period { IfOk result (λ n. n.period ≡ self.now.period) }
        ensures events { IfOk result (λ n. n.events ≡ self.now.events) }
        ensures rows { IfOk result (λ n. n.rows ≡ self.now.rows) }
    {
        let Network {
            period,
            events,
            rows,
            ..
        } = self;
        let kept = Vec::from_slice(alloc, rows.as_slice())?;
        let proposed = numbers_or_none(kept.len(), forest);
        let trees = forest::forest_from(alloc, *events, kept.as_slice(), proposed)?;
        Network::with(alloc, *period, *events, kept, trees)
    }

    /// The period, in the instance's own unit.
    pub fn period(&self) -> u32
        ensures period { result ≡ self.now.period }
        ensures limits { KeepsNetLimits self.now }
    {
        self.period
    }

    /// How many events there are.
    pub fn events(&self) -> u32
        ensures events { result ≡ self.now.events }
        ensures limits { KeepsNetLimits self.now }
    {
        self.events as u32
    }

    /// The rows in order.
    pub fn rows(&self) -> &[NetRow]
        ensures rows { result.now ≡ self.now.rows }
        ensures limits { KeepsNetLimits self.now }
        ensures spans { IsSpanningForest (arcs_of_network self.now.rows) self.now.forest }
    {
        &self.rows
    }

    /// The rows in order, without their origins.
    pub fn arcs(&self) -> &[Arc]
        ensures arcs { result.now ≡ arcs_of_network self.now.rows }
        ensures limits { KeepsNetLimits self.now }
        ensures each { KeepArcLimits self.now.period self.now.events result.now }
    {
        &self.arcs
    }

    /// The rows at each event.
    pub fn chains(&self, alloc: Global) -> Result<Chains, Memory>
        ensures { IfOk result (AreChains (arcs_of_network self.now.rows) self.now.events) }
    {
        let chains = chain_rows(alloc, self.events, self.rows.as_slice())?;
        Ok(chains)
    }

    /// The rows of the network's spanning forest, by their numbers from 1; every call gives the same.
    pub fn forest(&self, alloc: Global) -> Result<Vec<u32>, Memory>
        ensures forest { IfOk result (λ rows. rows.items ≡ self.now.forest) }
        ensures spans { IsSpanningForest (arcs_of_network self.now.rows) self.now.forest }
    {
        let rows = Vec::from_slice(alloc, self.kept.as_slice())?;
        Ok(rows)
    }

    /// Whether a row, numbered from 1, is in no cycle: each walk passes it as often one way as the other.
    pub fn is_bridge(&self, row: u32) -> bool
        requires { Names (length self.now.rows) row }
        ensures { IsTrue result ↔ IsBridge (arcs_of_network self.now.rows) row }
    {
        bridges::is_bridge(
            self.rows.as_slice(),
            &self.forest,
            &self.reaches,
            row as usize,
        )
    }

    /// The first event, in order, of those that are joined with this one.
    pub fn first_of(&self, event: u32) -> u32
        requires { event < self.now.events }
        ensures { IsFirstOf (arcs_of_network self.now.rows) event result }
    {
        self.forest.root[event as usize] as u32
    }

    /// For each row outside the forest, by rising row, the walk that begins with this row under a plus sign and goes
    /// back through rows of the forest alone (its fundamental walk). No walk passes an event or a row twice.
    /// `TableTooLarge` only where these walks have more than 10000000 signed rows.
    pub fn cycles(&self, alloc: Global) -> Result<Vec<Walk>, NetRefusal>
        ensures fundamental { IfOk result
            (λ table. AreFundamental (arcs_of_network self.now.rows) self.now.forest table.items) }
        ensures simple { IfOk result
            (λ table. All (IsSimple (arcs_of_network self.now.rows)) table.items) }
        ensures small { IfOk result (λ table. signed_rows table.items ≤ MOST_SIGNED_ROWS) }
        ensures refused { IfErr result
            (IsTableRefusal (arcs_of_network self.now.rows) self.now.forest) }
    {
        walks::walks(alloc, self.rows.as_slice(), &self.forest)
    }

    /// A way through rows of the forest alone that leads from one event to another, without an event or a row twice;
    /// between an event and itself it has no rows. None where no way of any rows joins the two.
    pub fn way(&self, alloc: Global, from: u32, to: u32) -> Result<Option<Vec<SignedRow>>, Memory>
        requires from { from < self.now.events }
        requires to { to < self.now.events }
        ensures rows { IfOk result
            (λ o. IfSome o (λ way. AreRows (arcs_of_network self.now.rows) way.items)) }
        ensures leads { IfOk result
            (λ o. IfSome o (λ way. Leads (arcs_of_network self.now.rows) from way.items to)) }
        ensures forest { IfOk result (λ o. IfSome o (λ way. KeepsTo self.now.forest way.items)) }
        ensures simple { IfOk result
            (λ o. IfSome o (λ way. IsSimple (arcs_of_network self.now.rows) way.items)) }
        ensures end_once { IfOk result (λ o. IfSome o
            (λ way. All (λ s. start (arcs_of_network self.now.rows) s ≢ to) way.items)) }
        ensures none { IfOk result
            (λ o. IfNone o (AreJoined (arcs_of_network self.now.rows) from to → ⊥)) }
    {
        let found = walks::way(
            alloc,
            self.rows.as_slice(),
            &self.forest,
            from as usize,
            to as usize,
        )?;
        Ok(found)
    }

    /// Whether these are times of a timetable: one below the period for each event, at which no row's slack is above its
    /// span.
    pub fn is_timetable(&self, times: &[u32]) -> bool
        ensures { IsTrue result
            ↔ IsNetTimetable (net_of_network self.now) self.now.events times.now }
    {
        net_times::is_timetable(self.period(), self.events(), self.arcs(), times)
    }

    /// What times cost, one for each event: the sum of weight times slack.
    pub fn cost_of(&self, times: &[u32]) -> u64
        requires { length times.now ≡ self.now.events }
        ensures { result ≡ net_cost (net_of_network self.now) times.now }
    {
        net_times::cost_of(self.period(), self.events(), self.arcs(), times)
    }

    /// Times below the period with exactly these slacks, one for each row in order, or None where a fundamental walk has
    /// no whole offset (cycle periodicity: Serafini and Ukovich 1989; Odijk 1996). Where no slack is above its row's span
    /// they are a timetable.
    pub fn timetable_of(&self, alloc: Global, slacks: &[u32]) -> Result<Option<Vec<u32>>, Memory>
        requires count { length slacks.now ≡ length self.now.rows }
        requires below { All (λ y. y < self.now.period) slacks.now }
        ensures count { IfOk result (λ o. IfSome o (λ times. vec_len times ≡ self.now.events)) }
        ensures below { IfOk result
            (λ o. IfSome o (λ times. All (λ t. t < self.now.period) times.items)) }
        ensures slacks { IfOk result (λ o. IfSome o
            (λ times. (i : ℕ) → i < length self.now.rows
            → slacks_at (net_of_network self.now) times.items i ≡ slice_index slacks.now i)) }
        ensures timetable { IfOk result (λ o. IfSome o
            (λ times. ((i : ℕ) → i < length self.now.rows
            → slice_index slacks.now i ≤ (net_row_at self.now.rows i).span)
            → IsNetTimetable (net_of_network self.now) self.now.events times.items)) }
        ensures none { IfOk result (λ o. IfNone o
            (HasOpenRow (net_of_network self.now) self.now.forest (slice_index slacks.now))) }
    {
        let found = times::timetable_of(
            alloc,
            self.period,
            self.events,
            self.rows.as_slice(),
            &self.forest,
            slacks,
        )?;
        Ok(found)
    }
}
