//! The sets at the ends of one row.

ghost use Rattle.std.specs.Prelude.{◌≡◌, ◌≢◌, ◌↔◌, ℕ, ◌+◌, ◌-◌, ◌*◌, ◌%◌, ◌<◌, ◌≤◌, length, pos, min, true, false, IsTrue};
ghost use Rattle.std.specs.Int.{int_rem_euclid};
ghost use Rattle.pesp_problem.specs.declared.limits.TheConstants.{MOST_EVENTS, MOST_PERIOD};
ghost use Rattle.pesp_truth.specs.Sets.{padded_period, family_at};
ghost use Rattle.pesp_truth.specs.Windows.{NarrowsFamily};
ghost use Rattle.pesp_truth.specs.Visits.{HasSome, IsVisit};

use crate::narrow::{Window, least, narrow};
use crate::word::has_number;
use pesp_problem::Arc;

/// At which ends of a row the set became smaller.
#[derive(Clone, Copy)]
pub struct Narrowed {
    pub tail: bool,
    pub head: bool,
}

/// A lower bound as a shift round the period.
fn shift_of(lower: &i64, period: usize) -> usize
    requires { (0 < period) × (period ≤ MOST_PERIOD) }
    ensures { pos result ≡ int_rem_euclid lower.now (pos period) }
{
    lower.rem_euclid(period as i64) as usize
}

/// Whether the remainder of a loop, which is one for all differences, is in the range.
fn loop_holds(period: usize, shift: usize, range: (u32, u32)) -> bool
    requires period { 0 < period }
    requires shift { shift ≤ period }
    ensures { IsTrue result
        ↔ (range.0 ≤ (period - shift) % period) × ((period - shift) % period ≤ range.1) }
{
    let remainder = (period - shift) % period;
    range.0 as usize <= remainder && remainder <= range.1 as usize
}

/// Whether an event has a difference left.
fn has_some(words: &[u64], period: usize, event: usize) -> bool
    requires period { (0 < period) × (period ≤ MOST_PERIOD) }
    requires event { event ≤ MOST_EVENTS }
    requires long { event * padded_period period + padded_period period ≤ 64 * length words.now }
    ensures { IsTrue result ↔ HasSome (family_at period words.now) event }
{
    if period <= 64 {
        return has_number(words, period, event);
    }
    least(words, period, event) < period
}

/// The shifts from the tail to its partners at the head, and from the head to those at the tail.
fn windows(period: usize, shift: usize, range: (u32, u32)) -> (Window, Window)
    requires period { (0 < period) × (period ≤ MOST_PERIOD) }
    requires shift { shift ≤ period }
    ensures ahead { result.0.first ≡ (shift + range.0) % period }
    ensures back { result.1.first ≡ (2 * period - shift - min range.1 (period - 1)) % period }
    ensures count { result.0.count ≡ min range.1 (period - 1) + 1 - range.0 }
    ensures same { result.1.count ≡ result.0.count }
{
    let low = range.0 as usize;
    let high = (range.1 as usize).min(period - 1);
    let count = (high + 1).saturating_sub(low);
    let ahead = Window {
        first: (shift + low) % period,
        count,
    };
    let back = Window {
        first: (2 * period - shift - high) % period,
        count,
    };
    (ahead, back)
}

/// Takes from the sets at both ends of a row that is no loop each difference without a partner.
fn revise(
    words: &mut [u64],
    period: usize,
    arc: &Arc,
    shift: usize,
    range: (u32, u32),
) -> Option<Narrowed>
    requires period { (0 < period) × (period ≤ MOST_PERIOD) }
    requires apart { arc.now.tail ≢ arc.now.head }
    requires tail { arc.now.tail * padded_period period + padded_period period ≤ 64 * length words.old }
    requires head { arc.now.head * padded_period period + padded_period period ≤ 64 * length words.old }
    requires ends { (arc.now.tail ≤ MOST_EVENTS) × (arc.now.head ≤ MOST_EVENTS) }
    requires some_head { HasSome (family_at period words.old) arc.now.head }
    requires shift { pos shift ≡ int_rem_euclid arc.now.lower (pos period) }
    ensures { IsVisit period arc.now range words.old words.new result }
{
    let (ahead, back) = windows(period, shift, range);
    let tail = narrow(words, period, arc.tail as usize, arc.head as usize, ahead);
    if !has_some(words, period, arc.tail as usize) {
        return None;
    }
    let head = narrow(words, period, arc.head as usize, arc.tail as usize, back);
    if !has_some(words, period, arc.head as usize) {
        return None;
    }
    Some(Narrowed { tail, head })
}

/// Takes from the sets at both ends of a row each difference without a partner; None where no family within them that the
/// row supports has a difference at both ends.
pub fn visit(words: &mut [u64], period: usize, arc: &Arc, range: (u32, u32)) -> Option<Narrowed>
    requires period { (0 < period) × (period ≤ MOST_PERIOD) }
    requires tail { arc.now.tail * padded_period period + padded_period period ≤ 64 * length words.old }
    requires head { arc.now.head * padded_period period + padded_period period ≤ 64 * length words.old }
    requires ends { (arc.now.tail ≤ MOST_EVENTS) × (arc.now.head ≤ MOST_EVENTS) }
    requires some_tail { HasSome (family_at period words.old) arc.now.tail }
    requires some_head { HasSome (family_at period words.old) arc.now.head }
    ensures { IsVisit period arc.now range words.old words.new result }
{
    let shift = shift_of(&arc.lower, period);
    if arc.tail != arc.head {
        return revise(words, period, arc, shift, range);
    }
    if loop_holds(period, shift, range) {
        Some(Narrowed {
            tail: false,
            head: false,
        })
    } else {
        None
    }
}
