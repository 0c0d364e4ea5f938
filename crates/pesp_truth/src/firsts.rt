//! The first event of each component.

ghost use Rattle.std.specs.Prelude.{◌≡◌, ◌≢◌, ℕ, ◌<◌, ◌≤◌, length, slice_index, IfOk};
ghost use Rattle.pesp_problem.specs.Arcs.{arc_at};
ghost use Rattle.pesp_problem.specs.Forests.{IsFirstOf};
ghost use Rattle.pesp_problem.specs.ArcLimits.{HaveEnds};

use pesp_problem::{Arc, Memory};
use std::alloc::Global;

/// The events, each under its own number.
fn alone(alloc: Global, events: u32) -> Result<Vec<u32>, Memory>
    ensures long { IfOk result (λ v. length v.items ≡ events) }
    ensures own { IfOk result
        (λ v. (event : ℕ) → event < events → slice_index v.items event ≡ event) }
{
    let mut labels = vec![in alloc; 0u32; events as usize]?;
    for event in 0..events {
        labels[event as usize] = event;
    }
    Ok(labels)
}

/// Writes one number in the place of another.
fn relabel(labels: &mut [u32], from: u32, to: u32)
    ensures changed { (event : ℕ) → event < length labels.old → slice_index labels.old event ≡ from
        → slice_index labels.new event ≡ to }
    ensures same { (event : ℕ) → event < length labels.old → slice_index labels.old event ≢ from
        → slice_index labels.new event ≡ slice_index labels.old event }
{
    if from == to {
        return;
    }
    for event in 0..labels.len() {
        let label = labels[event];
        labels[event] = if label == from { to } else { label };
    }
}

/// Gives the events at each row the lesser of their two labels, and so do all events that have one of these.
fn join_rows(labels: &mut [u32], arcs: &[Arc])
    requires ends { HaveEnds (length labels.old) arcs.now }
    requires own { (event : ℕ) → event < length labels.old → slice_index labels.old event ≡ event }
    ensures { (event : ℕ) → event < length labels.old
        → IsFirstOf arcs.now event (slice_index labels.new event) }
{
    for place in 0..arcs.len() {
        let tail = labels[arcs[place].tail as usize];
        let head = labels[arcs[place].head as usize];
        relabel(labels, tail.max(head), tail.min(head));
    }
}

/// For each event the first one, in order, of those that rows join with it.
pub fn firsts_of(alloc: Global, events: u32, arcs: &[Arc]) -> Result<Vec<u32>, Memory>
    requires { HaveEnds events arcs.now }
    ensures long { IfOk result (λ v. length v.items ≡ events) }
    ensures firsts { IfOk result
        (λ v. (event : ℕ) → event < events → IsFirstOf arcs.now event (slice_index v.items event)) }
{
    let mut labels = alone(alloc, events)?;
    join_rows(&mut labels, arcs);
    Ok(labels)
}
