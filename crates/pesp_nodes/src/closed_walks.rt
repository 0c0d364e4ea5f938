//! Whether walks close.

ghost use Rattle.std.specs.Prelude.{◌≡◌, ℕ, ◌-◌, ◌<◌, ◌≤◌, ◌↔◌, IsTrue, MatchOption, length};
ghost use Rattle.pesp_problem.specs.Walks.{RowExists, AreRows, Leads, IsWalk, start, finish};
ghost use Rattle.pesp_problem.specs.Nodes.{cycle_at};
ghost use Rattle.pesp_nodes.specs.Problems.{IsFirstOpen};

use pesp_problem::{Arc, SignedRow, Walk};

/// Whether the row exists.
fn exists(arcs: &[Arc], s: &SignedRow) -> bool
    ensures { IsTrue result ↔ RowExists arcs.now s.now }
{
    1 <= s.row && s.row as usize <= arcs.len()
}

/// The event at which a signed row begins.
fn start(arcs: &[Arc], s: &SignedRow) -> u32
    requires { RowExists arcs.now s.now }
    ensures { result ≡ start arcs.now s.now }
{
    let arc = &arcs[s.row as usize - 1];
    if s.plus { arc.tail } else { arc.head }
}

/// The event at which it ends.
fn finish(arcs: &[Arc], s: &SignedRow) -> u32
    requires { RowExists arcs.now s.now }
    ensures { result ≡ finish arcs.now s.now }
{
    let arc = &arcs[s.row as usize - 1];
    if s.plus { arc.head } else { arc.tail }
}

/// Whether rows that exist lead from one event to another.
fn leads(arcs: &[Arc], from: u32, way: &[SignedRow], to: u32) -> bool
    ensures { IsTrue result ↔ (AreRows arcs.now way.now × Leads arcs.now from way.now to) }
{
    let mut event = from;
    for s in way {
        if !exists(arcs, s) {
            return false;
        }
        if start(arcs, s) != event {
            return false;
        }
        event = finish(arcs, s);
    }
    event == to
}

/// Whether a walk closes: it has a row, its rows exist, and their ends meet in order and close.
fn closes(arcs: &[Arc], walk: &[SignedRow]) -> bool
    ensures { IsTrue result ↔ IsWalk arcs.now walk.now }
{
    if walk.is_empty() {
        return false;
    }
    if !exists(arcs, &walk[0]) {
        return false;
    }
    let event = start(arcs, &walk[0]);
    leads(arcs, event, walk, event)
}

/// The first walk of a table that doesn't close, by its number from 1.
pub fn first_open(arcs: &[Arc], table: &[Walk]) -> Option<u64>
    ensures { MatchOption result ((c : ℕ) → c < length table.now
        → IsWalk arcs.now (cycle_at table.now c)) (λ cycle. IsFirstOpen arcs.now table.now cycle) }
{
    for place in 0..table.len() {
        if !closes(arcs, table[place].rows()) {
            return Some(place as u64 + 1);
        }
    }
    None
}
