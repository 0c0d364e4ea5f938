//! Rows that wait for a visit.

ghost use Rattle.std.specs.Prelude.{◌≡◌, ℕ, ◌+◌, ◌-◌, ◌<◌, ◌≤◌, ◌≢◌, ◌⊎◌, length, IfOk, OnOk, vec_len, true, false, []};
ghost use Rattle.pesp_problem.specs.declared.limits.TheConstants.{MOST_ROWS};
ghost use Rattle.pesp_network.specs.Chains.{AreChains};
ghost use Rattle.pesp_problem.specs.Arcs.{tail_of, head_of};
ghost use Rattle.pesp_domains.specs.Waiting.{waits_at, WaitingGrows, Leaves, WaitingAreListed};

use pesp_network::Chains;
use pesp_problem::{Arc, Memory};
use std::alloc::Global;

/// Which rows wait for a visit, by their places, and a list that has each of them.
#[derive(Drop)]
pub struct Waiting {
    pub flags: Vec<bool>,
    pub rows: Vec<u32>,
}

impl Waiting {
    /// None of so many rows waits.
    pub fn none(alloc: Global, count: usize) -> Result<Waiting, Memory>
        ensures long { IfOk result (λ w. vec_len w.flags ≡ count) }
        ensures none { IfOk result (λ w. (row : ℕ) → waits_at w row ≡ false) }
        ensures list { IfOk result (λ w. w.rows.items ≡ []) }
    {
        let flags = vec![in alloc; false; count]?;
        Ok(Waiting {
            flags,
            rows: Vec::new(alloc),
        })
    }

    /// All of so many rows wait.
    pub fn all(alloc: Global, count: usize) -> Result<Waiting, Memory>
        requires { count ≤ MOST_ROWS }
        ensures listed { IfOk result (WaitingAreListed count) }
        ensures all { IfOk result (λ w. (row : ℕ) → row < count → waits_at w row ≡ true) }
    {
        let mut waiting = Waiting::none(alloc, count)?;
        for row in 0..count {
            waiting.add(row as u32)?;
        }
        Ok(waiting)
    }

    /// One row waits.
    pub fn add(&mut self, row: u32) -> Result<(), Memory>
        requires { row < vec_len self.old.flags }
        ensures grows { WaitingGrows self.old self.new }
        ensures waits { OnOk result (waits_at self.new row ≡ true) }
    {
        let place = row as usize;
        if self.flags[place] {
            return Ok(());
        }
        self.rows.push(row)?;
        self.flags[place] = true;
        Ok(())
    }

    /// One row waits no longer.
    pub fn leave(&mut self, row: u32)
        requires { row < vec_len self.old.flags }
        ensures { Leaves row self.old self.new }
    {
        self.flags[row as usize] = false;
    }

    /// Each row at an event waits, but for one, which is named by its number from 1.
    pub fn wake(
        &mut self,
        arcs: &[Arc],
        chains: &Chains,
        event: u32,
        but: u32,
    ) -> Result<(), Memory>
        requires chains { ((events : ℕ) × AreChains arcs.now events chains.now × (event < events)) }
        requires long { vec_len self.old.flags ≡ length arcs.now }
        ensures grows { WaitingGrows self.old self.new }
        ensures woken { OnOk result ((row : ℕ) → 0 < row → row ≤ length arcs.now
            → (tail_of arcs.now row ≡ event) ⊎ (head_of arcs.now row ≡ event) → row ≢ but
            → waits_at self.new (row - 1) ≡ true) }
    {
        let mut row = chains.first[event as usize];
        while row > 0 {
            if row != but {
                self.add(row - 1)?;
            }
            row = chains.next_at(arcs, event, row);
        }
        Ok(())
    }
}
