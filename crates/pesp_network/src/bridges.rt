//! Which rows are bridges.

ghost use Rattle.std.specs.Prelude.{◌≡◌, ℕ, ◌+◌, ◌-◌, ◌<◌, ◌≤◌, ◌≢◌, ◌↔◌, length, IfOk, IsTrue, vec_len};
ghost use Rattle.pesp_problem.specs.Walks.{Names};
ghost use Rattle.pesp_problem.specs.Forests.{IsBridge};
ghost use Rattle.pesp_network.specs.Networks.{arcs_of_network};
ghost use Rattle.pesp_network.specs.Growing.{at};
ghost use Rattle.pesp_network.specs.Rooted.{IsForest, AreReaches, ReachesRows, TakesPlaces};

use crate::parts::{Forest, Reaches};
use crate::row::NetRow;
use std::alloc::{AllocError, Global};

impl Reaches {
    /// Takes two places in at an event.
    fn take(&mut self, event: usize, low: usize, high: usize)
        requires { event < vec_len self.old.low }
        ensures takes { TakesPlaces self.old.low.items self.old.high.items self.new.low.items
            self.new.high.items event low high }
        ensures events { vec_len self.new.low ≡ vec_len self.old.low }
    {
        self.low[event] = self.low[event].min(low);
        self.high[event] = self.high[event].max(high);
    }

    /// Takes in, at one end of the row k, the place of its other end.
    fn take_row(&mut self, forest: &Forest, k: usize, event: usize, other: usize)
        requires event { event < vec_len forest.now.up }
        requires other { other < vec_len forest.now.up }
        requires room { vec_len self.old.low ≡ vec_len forest.now.up }
        ensures kept { at forest.now.by.items event ≡ k → (self.new.low.items ≡ self.old.low.items)
            × (self.new.high.items ≡ self.old.high.items) }
        ensures takes { at forest.now.by.items event ≢ k
            → TakesPlaces self.old.low.items self.old.high.items self.new.low.items self.new.high.items
            event (at forest.now.place.items other) (at forest.now.place.items other) }
        ensures events { vec_len self.new.low ≡ vec_len self.old.low }
    {
        if forest.by[event] == k {
            return;
        }
        let place = forest.place[other];
        self.take(event, place, place);
    }

    /// Takes in, at the event above, what an event reaches.
    fn take_up(&mut self, forest: &Forest, event: usize)
        requires event { event < vec_len forest.now.up }
        requires up { 0 < at forest.now.by.items event
            → at forest.now.up.items event < vec_len forest.now.up }
        requires room { vec_len self.old.low ≡ vec_len forest.now.up }
        ensures kept { at forest.now.by.items event ≡ 0 → (self.new.low.items ≡ self.old.low.items)
            × (self.new.high.items ≡ self.old.high.items) }
        ensures takes { 0 < at forest.now.by.items event
            → TakesPlaces self.old.low.items self.old.high.items self.new.low.items self.new.high.items
            (at forest.now.up.items event) (at self.old.low.items event)
            (at self.old.high.items event) }
        ensures events { vec_len self.new.low ≡ vec_len self.old.low }
    {
        if forest.by[event] == 0 {
            return;
        }
        let low = self.low[event];
        let high = self.high[event];
        self.take(forest.up[event], low, high);
    }
}

/// What is reached from each event itself.
fn reach_rows(alloc: Global, rows: &[NetRow], forest: &Forest) -> Result<Reaches, AllocError>
    requires { IsForest (vec_len forest.now.up) (arcs_of_network rows.now) forest.now }
    ensures takes { IfOk result (λ r. ReachesRows (vec_len forest.now.up) (arcs_of_network rows.now) forest.now
        (length (arcs_of_network rows.now)) r.low.items r.high.items) }
    ensures events { IfOk result (λ r. vec_len r.low ≡ vec_len forest.now.up) }
{
    let low = Vec::from_slice(alloc, forest.place.as_slice())?;
    let high = Vec::from_slice(alloc, forest.place.as_slice())?;
    let mut reaches = Reaches { low, high };
    for (i, row) in rows.iter().enumerate() {
        let tail = row.tail as usize;
        let head = row.head as usize;
        reaches.take_row(forest, i + 1, tail, head);
        reaches.take_row(forest, i + 1, head, tail);
    }
    Ok(reaches)
}

/// The first and the last place that are reached from each event or below it.
pub fn reach(alloc: Global, rows: &[NetRow], forest: &Forest) -> Result<Reaches, AllocError>
    requires { IsForest (vec_len forest.now.up) (arcs_of_network rows.now) forest.now }
    ensures reaches { IfOk result
        (λ r. AreReaches (vec_len forest.now.up) (arcs_of_network rows.now) forest.now r.low.items r.high.items) }
    ensures events { IfOk result (λ r. vec_len r.low ≡ vec_len forest.now.up) }
{
    let mut reaches = reach_rows(alloc, rows, forest)?;
    let mut count = forest.order.len();
    while count > 0 {
        count -= 1;
        let event = forest.order[count];
        reaches.take_up(forest, event);
    }
    Ok(reaches)
}

/// Whether nothing beyond an event and what is below it is reached.
fn is_cut(forest: &Forest, reaches: &Reaches, event: usize) -> bool
    requires event { event < vec_len forest.now.up }
    requires sized { vec_len reaches.now.low ≡ vec_len forest.now.up }
    ensures { IsTrue result ↔ ((at forest.now.place.items event ≤ at reaches.now.low.items event)
        × (at reaches.now.high.items event ≤ at forest.now.last.items event)) }
{
    forest.place[event] <= reaches.low[event] && reaches.high[event] <= forest.last[event]
}

/// Whether every walk passes the row k as often one way as the other: it joins an event to the one above it, and nothing
/// else leads out from below it.
pub fn is_bridge(rows: &[NetRow], forest: &Forest, reaches: &Reaches, k: usize) -> bool
    requires forest { IsForest (vec_len forest.now.up) (arcs_of_network rows.now) forest.now }
    requires reaches { AreReaches (vec_len forest.now.up) (arcs_of_network rows.now) forest.now reaches.now.low.items
        reaches.now.high.items }
    requires sized { vec_len reaches.now.low ≡ vec_len forest.now.up }
    requires row { Names (length rows.now) k }
    ensures { IsTrue result ↔ IsBridge (arcs_of_network rows.now) k }
{
    let row = rows[k - 1];
    let tail = row.tail as usize;
    let tail_row = forest.by[tail];
    if tail_row == k {
        return is_cut(forest, reaches, tail);
    }
    let head = row.head as usize;
    let head_row = forest.by[head];
    if head_row == k {
        return is_cut(forest, reaches, head);
    }
    false
}
