//! The rows that cross each cut of a rooted forest.

ghost use Rattle.std.specs.Prelude.{◌≡◌, ◌≢◌, ℕ, ◌+◌, ◌<◌, ◌≤◌, ◌↔◌, List, [], IsTrue, IfSome, OnSome, length, vec_len, slice_index};
ghost use Rattle.pesp_problem.specs.declared.limits.TheConstants.{MOST_ROWS};
ghost use Rattle.pesp_problem.specs.declared.arc.Arc.{Arc};
ghost use Rattle.pesp_problem.specs.Roots.{AreRoots};
ghost use Rattle.pesp_propagate.specs.Rooted.{roots_of, IsFor};
ghost use Rattle.pesp_propagate.specs.declared.crossing.Entry.{Entry};
ghost use Rattle.pesp_propagate.specs.Lists.{Hold, ListHasRoom, HasRoomFor, Puts, IsStep, AreListed};

use crate::crossing::Entry;
use crate::rooted::Rooted;
use pesp_problem::Arc;

/// For each event the entries of the rows that cross between what hangs below it and the rest: one list after the other.
#[derive(Drop)]
pub struct Cuts {
    pub starts: Vec<usize>,
    pub ends: Vec<usize>,
    pub entries: Vec<Entry>,
}

/// Puts an entry at the end of a list; false where the list has no room.
pub fn put(cuts: &mut Cuts, cut: u32, entry: Entry) -> bool
    ensures put { IsTrue result → Puts cuts.old cuts.new cut entry }
    ensures room { IsTrue result ↔ ListHasRoom cuts.old cut }
{
    let cut = cut as usize;
    if cut >= cuts.ends.len() || cut + 1 >= cuts.starts.len() {
        return false;
    }
    let at = cuts.ends[cut];
    if at >= cuts.starts[cut + 1] || at >= cuts.entries.len() {
        return false;
    }
    cuts.entries[at] = entry;
    cuts.ends[cut] = at + 1;
    true
}

/// Puts an entry under an event and gives the event above it; None at a root, or where the list has no room.
fn climb(rooted: &Rooted, cuts: &mut Cuts, event: u32, entry: Entry) -> Option<u32>
    requires by { event < vec_len rooted.now.by }
    requires up { event < vec_len rooted.now.up }
    ensures joined { OnSome result (0 < slice_index rooted.now.by.items event) }
    ensures above { IfSome result (λ up. up ≡ slice_index rooted.now.up.items event) }
    ensures put { OnSome result (Puts cuts.old cuts.new event entry) }
{
    let at = event as usize;
    if rooted.by[at] == 0 || !put(cuts, event, entry) {
        return None;
    }
    Some(rooted.up[at])
}

/// Takes the deeper of two events, met from the head and from the tail of the row at a place, one row up.
fn step(rooted: &Rooted, cuts: &mut Cuts, row: u32, at: (u32, u32)) -> Option<(u32, u32)>
    requires lists { IsFor (vec_len rooted.now.by) rooted.now }
    requires head { at.0 < vec_len rooted.now.by }
    requires tail { at.1 < vec_len rooted.now.by }
    requires apart { at.0 ≢ at.1 }
    ensures { (arcs : List Arc) → AreRoots (vec_len rooted.now.by) arcs (roots_of rooted.now)
        → IfSome result (IsStep (vec_len rooted.now.by) arcs (roots_of rooted.now) row at.0 at.1
        cuts.old cuts.new) }
{
    let (head, tail) = at;
    if rooted.depth[head as usize] >= rooted.depth[tail as usize] {
        let up = climb(rooted, cuts, head, Entry { row, inward: true })?;
        return Some((up, tail));
    }
    let up = climb(rooted, cuts, tail, Entry { row, inward: false })?;
    Some((head, up))
}

/// Puts the row at a place into the lists of all cuts that it crosses; false where a list has no room.
fn list_row(arcs: &[Arc], rooted: &Rooted, cuts: &mut Cuts, row: u32) -> bool
    requires lists { IsFor (vec_len rooted.now.by) rooted.now }
    requires trees { AreRoots (vec_len rooted.now.by) arcs.now (roots_of rooted.now) }
    requires row { row < length arcs.now }
    ensures { IsTrue result
        → AreListed (vec_len rooted.now.by) arcs.now (roots_of rooted.now) row cuts.old
        → AreListed (vec_len rooted.now.by) arcs.now (roots_of rooted.now) (row + 1) cuts.new }
{
    let arc = arcs[row as usize];
    let mut at = (arc.head, arc.tail);
    while at.0 != at.1 {
        let Some(next) = step(rooted, cuts, row, at) else {
            return false;
        };
        at = next;
    }
    true
}

/// Puts all rows into the lists of the cuts that they cross; false where a list has no room.
pub fn list_rows(arcs: &[Arc], rooted: &Rooted, cuts: &mut Cuts) -> bool
    requires lists { IsFor (vec_len rooted.now.by) rooted.now }
    requires trees { AreRoots (vec_len rooted.now.by) arcs.now (roots_of rooted.now) }
    requires few { length arcs.now ≤ MOST_ROWS }
    ensures { IsTrue result
        → AreListed (vec_len rooted.now.by) arcs.now (roots_of rooted.now) 0 cuts.old
        → AreListed (vec_len rooted.now.by) arcs.now (roots_of rooted.now) (length arcs.now)
        cuts.new }
{
    let count = arcs.len() as u32;
    for row in 0..count {
        if !list_row(arcs, rooted, cuts, row) {
            return false;
        }
    }
    true
}

/// The greatest number of entries that are listed for a forest.
pub const MOST_ENTRIES: usize = 4_000_000;

/// Makes an empty list for each count, with room for so many entries; false where there is no room for all.
pub fn lay_out(cuts: &mut Cuts, counts: &[u32]) -> bool
    ensures empty { IsTrue result → Hold (length counts.now) cuts.new (λ _. []) }
    ensures room { HasRoomFor counts.now cuts.old → IsTrue result }
{
    let lists = counts.len();
    if cuts.ends.len() != lists || cuts.starts.len() <= lists {
        return false;
    }
    let mut at: usize = 0;
    for (cut, count) in counts.iter().enumerate() {
        cuts.starts[cut] = at;
        cuts.ends[cut] = at;
        at += *count as usize;
        if at > cuts.entries.len() {
            return false;
        }
    }
    cuts.starts[lists] = at;
    true
}

/// The list of a cut.
pub fn list(cuts: &Cuts, cut: u32) -> Option<&[Entry]>
    ensures { (n : ℕ) (lists : ℕ → List Entry) → cut < n → Hold n cuts.now lists
        → IfSome result (λ s. s.now ≡ lists cut) }
{
    let at = cut as usize;
    if at >= cuts.starts.len() || at >= cuts.ends.len() {
        return None;
    }
    let from = cuts.starts[at];
    let to = cuts.ends[at];
    if from > to || to > cuts.entries.len() {
        return None;
    }
    Some(&cuts.entries[from..to])
}
