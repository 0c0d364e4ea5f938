//! A forest that is grown depth first.

ghost use Rattle.std.specs.Prelude.{◌≡◌, ℕ, ◌+◌, ◌-◌, ◌<◌, ◌≤◌, ◌⊎◌, length, sum, slice_set, replicate, [], OnOk, IfOk, vec_len};
ghost use Rattle.pesp_problem.specs.declared.limits.TheConstants.{MOST_ROWS};
ghost use Rattle.pesp_network.specs.Networks.{arcs_of_network};
ghost use Rattle.pesp_problem.specs.ArcLimits.{HaveEnds};
ghost use Rattle.pesp_network.specs.Growing.{Opens, Closes, Looks, at};
ghost use Rattle.pesp_network.specs.Chains.{AreChains};
ghost use Rattle.pesp_network.specs.Floods.{OPEN_END, fns_of, GrownOver, IsCurrent, AllClosed, KeepsSeen};

use crate::chains::{Chains, beyond, chain_rows};
use crate::parts::Growth;
use crate::row::NetRow;
use std::alloc::{AllocError, Global};

/// The numbers as places.
fn widened(alloc: Global, numbers: &[u32]) -> Result<Vec<usize>, AllocError>
    ensures { IfOk result (λ places. places.items ≡ numbers.now) }
{
    numbers.iter().map(|number| *number as usize).collect(alloc)
}

impl Growth {
    /// Nothing is seen, and each event has the rows that the chains give it.
    fn empty(alloc: Global, events: usize, chains: &Chains) -> Result<Growth, AllocError>
        requires { vec_len chains.now.first ≡ events }
        ensures events { IfOk result (λ g. vec_len g.up ≡ events) }
        ensures by { IfOk result (λ g. g.by.items ≡ replicate events 0) }
        ensures place { IfOk result (λ g. g.place.items ≡ replicate events 0) }
        ensures last { IfOk result (λ g. g.last.items ≡ replicate events OPEN_END) }
        ensures left { IfOk result (λ g. g.left.items ≡ chains.now.first.items) }
        ensures order { IfOk result (λ g. g.order.items ≡ []) }
    {
        let up = vec![in alloc; 0usize; events]?;
        let by = vec![in alloc; 0usize; events]?;
        let place = vec![in alloc; 0usize; events]?;
        let last = vec![in alloc; usize::MAX; events]?;
        let root = vec![in alloc; 0usize; events]?;
        let left = widened(alloc, chains.first.as_slice())?;
        let order = Vec::with_capacity(alloc, events)?;
        Ok(Growth {
            up,
            by,
            place,
            last,
            root,
            left,
            order,
        })
    }

    /// Opens an event that isn't seen.
    fn open(&mut self, event: usize, up: usize, by: usize, root: usize) -> Result<(), AllocError>
        requires { event < vec_len self.old.up }
        ensures opens { OnOk result (Opens (fns_of self.old) (fns_of self.new) event up by root) }
        ensures lasts { self.new.last.items ≡ self.old.last.items }
        ensures lefts { self.new.left.items ≡ self.old.left.items }
        ensures events { vec_len self.new.up ≡ vec_len self.old.up }
    {
        self.order.push(event)?;
        self.up[event] = up;
        self.by[event] = by;
        self.place[event] = self.order.len();
        self.root[event] = root;
        Ok(())
    }

    /// Closes an event below which all is seen.
    fn close(&mut self, event: usize)
        requires { event < vec_len self.old.up }
        ensures closes { Closes (fns_of self.old) (fns_of self.new) event }
        ensures lasts { self.new.last.items
            ≡ slice_set self.old.last.items event (vec_len self.old.order) }
        ensures lefts { self.new.left.items ≡ self.old.left.items }
        ensures events { vec_len self.new.up ≡ vec_len self.old.up }
    {
        self.last[event] = self.order.len();
    }

    /// Goes on to the next row at an event.
    fn look(&mut self, event: usize, next: usize)
        requires { event < vec_len self.old.up }
        ensures looks { Looks (fns_of self.old) (fns_of self.new) event next }
        ensures lasts { self.new.last.items ≡ self.old.last.items }
        ensures lefts { self.new.left.items ≡ slice_set self.old.left.items event next }
        ensures events { vec_len self.new.up ≡ vec_len self.old.up }
    {
        self.left[event] = next;
    }

    /// Looks at a row at the current event, and gives the event that is the current one then.
    fn advance(
        &mut self,
        rows: &[NetRow],
        chains: &Chains,
        current: usize,
    ) -> Result<usize, AllocError>
        requires ends { HaveEnds (vec_len self.old.up) (arcs_of_network rows.now) }
        requires chains { AreChains (arcs_of_network rows.now) (vec_len self.old.up) chains.now }
        requires grown { GrownOver (arcs_of_network rows.now) self.old }
        requires current { IsCurrent self.old current }
        requires some_left { 0 < at self.old.left.items current }
        ensures grown { OnOk result (GrownOver (arcs_of_network rows.now) self.new) }
        ensures current { IfOk result (λ u. IsCurrent self.new u) }
        ensures seen { OnOk result (KeepsSeen self.old self.new) }
        ensures lasts { self.new.last.items ≡ self.old.last.items }
        ensures smaller { OnOk result (sum self.new.left.items < sum self.old.left.items) }
        ensures events { vec_len self.new.up ≡ vec_len self.old.up }
    {
        let k = self.left[current];
        let (next, other) = beyond(rows, chains, current, k);
        if self.place[other] != 0 {
            self.look(current, next);
            return Ok(current);
        }
        let root = self.root[current];
        self.open(other, current, k, root)?;
        self.look(current, next);
        Ok(other)
    }

    /// Sees all that can be reached from an event.
    fn flood(&mut self, rows: &[NetRow], chains: &Chains, start: usize) -> Result<(), AllocError>
        requires ends { HaveEnds (vec_len self.old.up) (arcs_of_network rows.now) }
        requires chains { AreChains (arcs_of_network rows.now) (vec_len self.old.up) chains.now }
        requires grown { GrownOver (arcs_of_network rows.now) self.old }
        requires closed { AllClosed self.old }
        requires event { start < vec_len self.old.up }
        requires before { (x : ℕ) → x < start → 0 < at self.old.place.items x }
        ensures grown { OnOk result (GrownOver (arcs_of_network rows.now) self.new) }
        ensures closed { OnOk result (AllClosed self.new) }
        ensures seen { OnOk result (KeepsSeen self.old self.new) }
        ensures start_seen { OnOk result (0 < at self.new.place.items start) }
        ensures events { OnOk result (vec_len self.new.up ≡ vec_len self.old.up) }
    {
        if self.place[start] != 0 {
            return Ok(());
        }
        self.open(start, start, 0, start)?;
        let mut current = start;
        'events: loop {
            let row_left = self.left[current];
            if row_left == 0 {
                self.close(current);
                let row_up = self.by[current];
                if row_up == 0 {
                    return Ok(());
                }
                current = self.up[current];
            } else {
                current = self.advance(rows, chains, current)?;
            }
        }
    }
}

/// A spanning forest of the rows between so many events.
pub fn grow(alloc: Global, events: usize, rows: &[NetRow]) -> Result<Growth, AllocError>
    requires ends { HaveEnds events (arcs_of_network rows.now) }
    requires count { length rows.now ≤ MOST_ROWS }
    ensures grown { IfOk result (λ g. GrownOver (arcs_of_network rows.now) g) }
    ensures closed { IfOk result (λ g. AllClosed g) }
    ensures all_seen { IfOk result (λ g. (x : ℕ) → x < events → 0 < at g.place.items x) }
    ensures events { IfOk result (λ g. vec_len g.up ≡ events) }
{
    let chains = chain_rows(alloc, events, rows)?;
    let mut growth = Growth::empty(alloc, events, &chains)?;
    for start in 0..events {
        growth.flood(rows, &chains, start)?;
    }
    Ok(growth)
}
