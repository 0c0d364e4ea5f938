//! Rows are visited in rounds until no set becomes smaller.

ghost use Rattle.std.specs.Prelude.{◌≡◌, ℕ, ◌+◌, ◌*◌, ◌<◌, ◌≤◌, ◌↔◌, length, true, false, Bool, IsTrue};
ghost use Rattle.pesp_problem.specs.declared.limits.TheConstants.{MOST_EVENTS, MOST_PERIOD};
ghost use Rattle.pesp_problem.specs.Arcs.{arc_at};
ghost use Rattle.pesp_problem.specs.Families.{NoFamilyIsSupported};
ghost use Rattle.pesp_truth.specs.Sets.{padded_period, family_at};
ghost use Rattle.pesp_problem.specs.ArcLimits.{HaveEnds};
ghost use Rattle.pesp_truth.specs.Rounds.{net_at, IsWide, is_marked, IsQuiet, QuietRowsSupport, InRound, IsRoundStep, IsRound};

use crate::visit::{Narrowed, visit};
use pesp_problem::Arc;

/// What a round shows.
#[derive(Clone, Copy)]
pub enum Round {
    /// No family without an empty set is supported.
    Emptied,
    /// Some set became smaller, and none is empty.
    Narrowed,
    /// Each row supports the sets.
    Settled,
}

/// Gives each event the same mark.
fn mark_all(marks: &mut [bool], mark: bool)
    ensures { (event : ℕ) → event < length marks.old → is_marked marks.new event ≡ mark }
{
    for event in 0..marks.len() {
        marks[event] = mark;
    }
}

/// Marks the ends at which the set became smaller.
fn mark_ends(marks: &mut [bool], arc: &Arc, narrowed: Narrowed)
    requires tail { arc.now.tail < length marks.old }
    requires head { arc.now.head < length marks.old }
    ensures kept { (event : ℕ) → is_marked marks.new event ≡ false
        → is_marked marks.old event ≡ false }
    ensures tail { is_marked marks.new arc.now.tail ≡ false → narrowed.tail ≡ false }
    ensures head { is_marked marks.new arc.now.head ≡ false → narrowed.head ≡ false }
    ensures none { narrowed.tail ≡ false → narrowed.head ≡ false → marks.new ≡ marks.old }
{
    let tail = marks[arc.tail as usize] || narrowed.tail;
    marks[arc.tail as usize] = tail;
    let head = marks[arc.head as usize] || narrowed.head;
    marks[arc.head as usize] = head;
}

/// Whether an end of a row is marked.
fn has_mark(marks: &[bool], arc: &Arc) -> bool
    requires tail { arc.now.tail < length marks.now }
    requires head { arc.now.head < length marks.now }
    ensures { result ≡ false → IsQuiet marks.now arc.now }
{
    marks[arc.tail as usize] || marks[arc.head as usize]
}

/// Visits a row where an end is marked, and tells whether a set became smaller; None where no family is supported.
fn visit_at(
    words: &mut [u64],
    period: usize,
    arcs: &[Arc],
    ranges: &[(u32, u32)],
    before: &[bool],
    now: &mut [bool],
    place: usize,
) -> Option<bool>
    requires period { (0 < period) × (period ≤ MOST_PERIOD) }
    requires events { length before.now ≤ MOST_EVENTS }
    requires ends { HaveEnds (length before.now) arcs.now }
    requires ranges { length ranges.now ≡ length arcs.now }
    requires long { length before.now * padded_period period ≤ 64 * length words.old }
    requires marks { length now.old ≡ length before.now }
    requires place { place < length arcs.now }
    requires wide { IsWide (net_at period arcs.now) ranges.now (length before.now)
        (family_at period words.old) }
    requires round { InRound (net_at period arcs.now) ranges.now before.now now.old place
        (family_at period words.old) }
    ensures { IsRoundStep (net_at period arcs.now) ranges.now (length before.now) before.now now.old
        now.new place words.old words.new result }
{
    let arc = &arcs[place];
    if !has_mark(before, arc) && !has_mark(now, arc) {
        return Some(false);
    }
    let Some(narrowed) = visit(words, period, arc, ranges[place]) else {
        return None;
    };
    mark_ends(now, arc, narrowed);
    Some(narrowed.tail | narrowed.head)
}

/// One visit of each row at which a set became smaller in the round before or in this one.
fn visit_rows(
    words: &mut [u64],
    period: usize,
    arcs: &[Arc],
    ranges: &[(u32, u32)],
    before: &[bool],
    now: &mut [bool],
) -> Round
    requires period { (0 < period) × (period ≤ MOST_PERIOD) }
    requires events { length before.now ≤ MOST_EVENTS }
    requires ends { HaveEnds (length before.now) arcs.now }
    requires ranges { length ranges.now ≡ length arcs.now }
    requires long { length before.now * padded_period period ≤ 64 * length words.old }
    requires marks { length now.old ≡ length before.now }
    requires unmarked { (event : ℕ) → event < length now.old → is_marked now.old event ≡ false }
    requires wide { IsWide (net_at period arcs.now) ranges.now (length before.now)
        (family_at period words.old) }
    requires quiet { QuietRowsSupport (net_at period arcs.now) ranges.now before.now
        (family_at period words.old) }
    ensures { IsRound (net_at period arcs.now) ranges.now (length before.now) words.old words.new
        now.new result }
{
    let mut changed = false;
    for place in 0..arcs.len() {
        let Some(narrowed) = visit_at(words, period, arcs, ranges, before, now, place) else {
            return Round::Emptied;
        };
        changed |= narrowed;
    }
    if changed {
        Round::Narrowed
    } else {
        Round::Settled
    }
}

/// Visits the rows until each supports the sets, or some set is empty: true where no family without an empty set is supported.
pub fn is_emptied(
    words: &mut [u64],
    period: usize,
    arcs: &[Arc],
    ranges: &[(u32, u32)],
    before: &mut [bool],
    now: &mut [bool],
) -> bool
    requires period { (0 < period) × (period ≤ MOST_PERIOD) }
    requires events { length before.old ≤ MOST_EVENTS }
    requires ends { HaveEnds (length before.old) arcs.now }
    requires ranges { length ranges.now ≡ length arcs.now }
    requires long { length before.old * padded_period period ≤ 64 * length words.old }
    requires marks { length now.old ≡ length before.old }
    requires wide { IsWide (net_at period arcs.now) ranges.now (length before.old)
        (family_at period words.old) }
    ensures { IsTrue result
        ↔ NoFamilyIsSupported (net_at period arcs.now) ranges.now (length before.old) }
{
    mark_all(now, true);
    let mut round = Round::Narrowed;
    while round == Round::Narrowed {
        before.copy_from_slice(now);
        mark_all(now, false);
        round = visit_rows(words, period, arcs, ranges, before, now);
    }
    round == Round::Emptied
}
