//! The rows of a network, made ready for propagation.

ghost use Rattle.std.specs.Prelude.{◌≡◌, ℕ, ◌<◌, ◌≤◌, length, IfOk, OnOk};
ghost use Rattle.pesp_network.specs.Networks.{KeepsNetLimits};
ghost use Rattle.pesp_domains.specs.Domains.{HaveSizes};
ghost use Rattle.pesp_domains.specs.Outcomes.{Shrinks, IsOutcome, LeavesSupported};
ghost use Rattle.pesp_domains.specs.Visits.{net_at, sets_at};
ghost use Rattle.pesp_domains.specs.Rows.{RowsValue, network_rows};

use crate::domains::Domains;
use crate::outcome::Outcome;
use crate::settle::{settle, visit_waiting};
use crate::waiting::Waiting;
use pesp_network::{Chains, Network};
use pesp_problem::{Arc, Memory};
use std::alloc::Global;
use std::marker::Model;

/// The arcs of a network in order, and the rows at each event.
#[derive(Drop)]
pub struct Rows {
    period: u32,
    events: u32,
    arcs: Vec<Arc>,
    chains: Chains,
}

impl Model for Rows {
    ghost use Rattle.std.specs.Prelude.{ℕ, ◌<◌, ◌≤◌, length};
    ghost use Rattle.pesp_network.specs.Chains.{AreChains};
    ghost use Rattle.pesp_problem.specs.declared.limits.TheConstants.{MOST_ROWS};
    ghost use Rattle.pesp_problem.specs.ArcLimits.{HaveEnds};
    ghost use Rattle.pesp_domains.specs.Rows.{RowsValue};

    ghost Value = { RowsValue };

    ghost view = { λ r. record { period = r.period; events = r.events; arcs = r.arcs.items } };

    ghost invariant = { λ r. (length r.arcs.items ≤ MOST_ROWS) × HaveEnds r.events r.arcs.items
        × AreChains r.arcs.items r.events r.chains };
}

impl Rows {
    /// The rows of a network.
    pub fn of(alloc: Global, network: &Network) -> Result<Rows, Memory>
        ensures rows { IfOk result (λ rows. rows ≡ network_rows network.now) }
        ensures limits { OnOk result (KeepsNetLimits network.now) }
    {
        let arcs = Vec::from_slice(alloc, network.arcs())?;
        let chains = network.chains(alloc)?;
        Ok(Rows {
            period: network.period(),
            events: network.events(),
            arcs,
            chains,
        })
    }

    /// The arcs in order.
    pub fn arcs(&self) -> &[Arc]
        ensures { result.now ≡ self.now.arcs }
    {
        &self.arcs
    }

    /// The last row at an event by its number from 1, 0 where there is none or no such event.
    pub fn last_at(&self, event: u32) -> u32 {
        self.chains.first.get(event as usize).copied().unwrap_or(0)
    }

    /// The row before this one at one of its ends, 0 where there is none.
    pub fn before(&self, row: u32, is_tail: bool) -> u32 {
        let chain = if is_tail {
            &self.chains.at_tail
        } else {
            &self.chains.at_head
        };
        chain.get(row as usize).copied().unwrap_or(0)
    }

    /// Takes away what some row does not support under these slack ranges, one for each row.
    pub fn settle_all(
        &self,
        alloc: Global,
        domains: &mut Domains,
        ranges: &[(u32, u32)],
    ) -> Result<Outcome, Memory>
        requires sizes { HaveSizes self.now.period self.now.events domains.old }
        requires ranges { length ranges.now ≡ length self.now.arcs }
        ensures sizes { HaveSizes self.now.period self.now.events domains.new }
        ensures shrinks { Shrinks (net_at self.now.period self.now.arcs) ranges.now
            (sets_at self.now.period domains.old.words)
            (sets_at self.now.period domains.new.words) }
        ensures outcome { IfOk result
            (IsOutcome self.now.events (sets_at self.now.period domains.new.words)) }
        ensures supported { IfOk result (LeavesSupported (net_at self.now.period self.now.arcs)
            ranges.now (sets_at self.now.period domains.new.words)) }
    {
        let waiting = Waiting::all(alloc, self.arcs.len())?;
        settle(alloc, domains, &self.arcs, ranges, &self.chains, waiting)
    }

    /// The same, where only the set of one event has changed since all rows supported the sets and none was empty.
    pub fn settle_at(
        &self,
        alloc: Global,
        domains: &mut Domains,
        ranges: &[(u32, u32)],
        event: u32,
    ) -> Result<Outcome, Memory>
        requires sizes { HaveSizes self.now.period self.now.events domains.old }
        requires ranges { length ranges.now ≡ length self.now.arcs }
        requires event { event < self.now.events }
        ensures sizes { HaveSizes self.now.period self.now.events domains.new }
    {
        let mut waiting = Waiting::none(alloc, self.arcs.len())?;
        waiting.wake(&self.arcs, &self.chains, event, 0)?;
        if domains.has_none(event) {
            return Ok(Outcome::Empty { event });
        }
        match visit_waiting(alloc, domains, &self.arcs, ranges, &self.chains, waiting)? {
            Some(event) => Ok(Outcome::Empty { event }),
            None => Ok(Outcome::Stable),
        }
    }
}
