//! The rows at each event.

ghost use Rattle.std.specs.Prelude.{◌≡◌, ℕ, ◌+◌, ◌-◌, ◌<◌, ◌≤◌, ◌⊎◌, length, slice_index, slice_set, replicate, IfOk, vec_len};
ghost use Rattle.pesp_problem.specs.declared.limits.TheConstants.{MOST_ROWS};
ghost use Rattle.pesp_network.specs.Networks.{arcs_of_network};
ghost use Rattle.pesp_problem.specs.Arcs.{tail_of, head_of};
ghost use Rattle.pesp_problem.specs.ArcLimits.{HaveEnds};
ghost use Rattle.pesp_network.specs.Chains.{IsNext, AreChains};

use crate::row::NetRow;
use pesp_problem::Arc;
use std::alloc::{AllocError, Global};

/// The rows at each event, as chains by falling number: an event's last row, and the row that comes next at a row's
/// tail and at its head. Rows are numbered from 1; 0 ends a chain.
#[derive(Drop)]
pub struct Chains {
    pub first: Vec<u32>,
    pub at_tail: Vec<u32>,
    pub at_head: Vec<u32>,
}

impl Chains {
    /// Chains without a row, with room for so many rows between so many events.
    fn none(alloc: Global, events: usize, rows: usize) -> Result<Chains, AllocError>
        requires { rows ≤ MOST_ROWS }
        ensures first { IfOk result (λ chains. chains.first.items ≡ replicate events 0) }
        ensures firsts { IfOk result (λ chains. vec_len chains.first ≡ events) }
        ensures tails { IfOk result (λ chains. vec_len chains.at_tail ≡ rows + 1) }
        ensures heads { IfOk result (λ chains. vec_len chains.at_head ≡ rows + 1) }
    {
        let first = vec![in alloc; 0u32; events]?;
        let at_tail = vec![in alloc; 0u32; rows + 1]?;
        let at_head = vec![in alloc; 0u32; rows + 1]?;
        Ok(Chains {
            first,
            at_tail,
            at_head,
        })
    }

    /// Puts the row at a place, from 0, before the rows at its ends.
    fn add(&mut self, place: usize, row: &NetRow)
        requires place { place < MOST_ROWS }
        requires tail { row.now.tail < vec_len self.old.first }
        requires head { row.now.head < vec_len self.old.first }
        requires tails { place + 1 < vec_len self.old.at_tail }
        requires heads { place + 1 < vec_len self.old.at_head }
        ensures first { self.new.first.items ≡ slice_set
            (slice_set self.old.first.items row.now.tail (place + 1)) row.now.head (place + 1) }
        ensures at_tail { self.new.at_tail.items ≡ slice_set self.old.at_tail.items (place + 1)
            (slice_index self.old.first.items row.now.tail) }
        ensures at_head { self.new.at_head.items ≡ slice_set self.old.at_head.items (place + 1)
            (slice_index self.old.first.items row.now.head) }
        ensures firsts { vec_len self.new.first ≡ vec_len self.old.first }
        ensures tails { vec_len self.new.at_tail ≡ vec_len self.old.at_tail }
        ensures heads { vec_len self.new.at_head ≡ vec_len self.old.at_head }
    {
        let tail = row.tail as usize;
        let head = row.head as usize;
        self.at_tail[place + 1] = self.first[tail];
        self.at_head[place + 1] = self.first[head];
        self.first[tail] = (place + 1) as u32;
        self.first[head] = (place + 1) as u32;
    }

    /// Which row comes next after a row at an event, 0 where there is none.
    pub fn next_at(&self, arcs: &[Arc], event: u32, row: u32) -> u32
        requires row { (1 ≤ row) × (row ≤ length arcs.now) }
        requires at_event { (tail_of arcs.now row ≡ event) ⊎ (head_of arcs.now row ≡ event) }
        requires chains { ((events : ℕ) × AreChains arcs.now events self.now) }
        ensures { IsNext (tail_of arcs.now) (head_of arcs.now) event row result }
    {
        let k = row as usize;
        if arcs[k - 1].tail == event {
            self.at_tail[k]
        } else {
            self.at_head[k]
        }
    }
}

/// The chains of the rows between so many events.
pub fn chain_rows(alloc: Global, events: usize, rows: &[NetRow]) -> Result<Chains, AllocError>
    requires ends { HaveEnds events (arcs_of_network rows.now) }
    requires count { length rows.now ≤ MOST_ROWS }
    ensures { IfOk result (AreChains (arcs_of_network rows.now) events) }
{
    let mut chains = Chains::none(alloc, events, rows.len())?;
    for (i, row) in rows.iter().enumerate() {
        chains.add(i, row);
    }
    Ok(chains)
}

/// Which row comes next after the row k at an event, and the event at the other end of the row k.
pub fn beyond(rows: &[NetRow], chains: &Chains, event: usize, k: usize) -> (usize, usize)
    requires row { (1 ≤ k) × (k ≤ length rows.now) }
    requires at_event { (tail_of (arcs_of_network rows.now) k ≡ event)
        ⊎ (head_of (arcs_of_network rows.now) k ≡ event) }
    requires chains { (events : ℕ) × AreChains (arcs_of_network rows.now) events chains.now }
    ensures next { IsNext (tail_of (arcs_of_network rows.now)) (head_of (arcs_of_network rows.now))
        event k result.0 }
    ensures ends { ((tail_of (arcs_of_network rows.now) k ≡ result.1)
        × (head_of (arcs_of_network rows.now) k ≡ event))
        ⊎ ((head_of (arcs_of_network rows.now) k ≡ result.1)
        × (tail_of (arcs_of_network rows.now) k ≡ event)) }
{
    let row = rows[k - 1];
    if row.tail as usize == event {
        (chains.at_tail[k] as usize, row.head as usize)
    } else {
        (chains.at_head[k] as usize, row.tail as usize)
    }
}
