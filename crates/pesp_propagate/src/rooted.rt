//! Forests with roots.

ghost use Rattle.std.specs.Prelude.{◌≡◌, ℕ, ◌<◌, ◌≤◌, ◌⊎◌, ◌↔◌, IsTrue, IfOk, length, slice_index, vec_len};
ghost use Rattle.pesp_problem.specs.declared.limits.TheConstants.{MOST_ROWS};
ghost use Rattle.pesp_problem.specs.Arcs.{arc_at, HasEnds};
ghost use Rattle.pesp_problem.specs.ArcLimits.{HaveEnds};
ghost use Rattle.pesp_problem.specs.Roots.{AreRoots, AreTreeRows};
ghost use Rattle.pesp_propagate.specs.Rooted.{roots_of, IsFor, IsJoined, IsSpanned};

use pesp_problem::{Arc, Memory};
use std::alloc::Global;

/// For each event the event above it, the number of the row that joins the two, or 0 at a root, how many rows lead up
/// to the root, and the root.
#[derive(Drop)]
pub struct Rooted {
    pub up: Vec<u32>,
    pub by: Vec<u32>,
    pub depth: Vec<u32>,
    pub root: Vec<u32>,
}

/// Whether an arc has these two ends, in one order or the other.
fn has_ends(arc: &Arc, x: u32, y: u32) -> bool
    ensures { IsTrue result ↔ HasEnds arc.now x y }
{
    (arc.tail == x && arc.head == y) || (arc.head == x && arc.tail == y)
}

/// Whether an event is a root, or is joined to the event above it by the row that it names.
fn is_joined(events: u32, arcs: &[Arc], rooted: &Rooted, event: u32) -> bool
    requires lists { IsFor events rooted.now }
    requires event { event < events }
    ensures { IsTrue result ↔ IsJoined events arcs.now (roots_of rooted.now) event }
{
    let at = event as usize;
    let by = rooted.by[at] as usize;
    let root = rooted.root[at];
    if by == 0 {
        return root == event;
    }
    let up = rooted.up[at];
    if by > arcs.len() || up >= events {
        return false;
    }
    has_ends(&arcs[by - 1], event, up)
        && rooted.depth[up as usize] < rooted.depth[at]
        && rooted.root[up as usize] == root
}

/// Whether both ends of an arc are events with the same root.
fn is_spanned(events: u32, rooted: &Rooted, arc: &Arc) -> bool
    requires lists { IsFor events rooted.now }
    ensures { IsTrue result ↔ IsSpanned events arc.now (roots_of rooted.now) }
{
    arc.tail < events
        && arc.head < events
        && rooted.root[arc.tail as usize] == rooted.root[arc.head as usize]
}

/// Whether there is an entry for each event in each list.
fn is_for(events: u32, rooted: &Rooted) -> bool
    ensures { IsTrue result ↔ IsFor events rooted.now }
{
    let count = events as usize;
    rooted.up.len() == count
        && rooted.by.len() == count
        && rooted.depth.len() == count
        && rooted.root.len() == count
}

/// Whether each event is a root or is joined upwards.
fn are_joined(events: u32, arcs: &[Arc], rooted: &Rooted) -> bool
    requires lists { IsFor events rooted.now }
    ensures { IsTrue result
        ↔ ((x : ℕ) → x < events → IsJoined events arcs.now (roots_of rooted.now) x) }
{
    for event in 0..events {
        if !is_joined(events, arcs, rooted, event) {
            return false;
        }
    }
    true
}

/// Whether both ends of each arc have the same root.
fn are_spanned(events: u32, arcs: &[Arc], rooted: &Rooted) -> bool
    requires lists { IsFor events rooted.now }
    ensures { IsTrue result ↔ ((i : ℕ) → i < length arcs.now
        → IsSpanned events (arc_at arcs.now i) (roots_of rooted.now)) }
{
    for arc in arcs {
        if !is_spanned(events, rooted, arc) {
            return false;
        }
    }
    true
}

/// Whether these are trees of rows that join what the arcs join.
pub fn is_rooted(events: u32, arcs: &[Arc], rooted: &Rooted) -> bool
    ensures lists { IsTrue result → IsFor events rooted.now }
    ensures trees { IsTrue result → AreRoots events arcs.now (roots_of rooted.now) }
    ensures all { IsFor events rooted.now → AreRoots events arcs.now (roots_of rooted.now)
        → IsTrue result }
{
    is_for(events, rooted) && are_joined(events, arcs, rooted) && are_spanned(events, arcs, rooted)
}

/// Whether the row of this number, from 1, joins one of its ends upwards.
fn is_tree_row(rooted: &Rooted, arc: &Arc, number: u32) -> bool
    requires tail { arc.now.tail < vec_len rooted.now.by }
    requires head { arc.now.head < vec_len rooted.now.by }
    ensures { IsTrue result ↔ (slice_index rooted.now.by.items arc.now.tail ≡ number)
        ⊎ (slice_index rooted.now.by.items arc.now.head ≡ number) }
{
    rooted.by[arc.tail as usize] == number || rooted.by[arc.head as usize] == number
}

/// The rows that join events upwards, by rising number.
pub fn tree_rows(alloc: Global, arcs: &[Arc], rooted: &Rooted) -> Result<Vec<u32>, Memory>
    requires ends { HaveEnds (vec_len rooted.now.by) arcs.now }
    requires few { length arcs.now ≤ MOST_ROWS }
    ensures { (events : ℕ) → AreRoots events arcs.now (roots_of rooted.now)
        → IfOk result (λ rows. AreTreeRows events (roots_of rooted.now) rows.items) }
{
    let mut rows = Vec::new(alloc);
    for (place, arc) in arcs.iter().enumerate() {
        let number = place as u32 + 1;
        if is_tree_row(rooted, arc, number) {
            rows.push(number)?;
        }
    }
    Ok(rows)
}
