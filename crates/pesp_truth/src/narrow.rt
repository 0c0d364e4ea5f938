//! One set is narrowed to the differences that have a partner in another.

ghost use Rattle.std.specs.Prelude.{◌≡◌, ◌≢◌, ℕ, ◌+◌, ◌*◌, ◌%◌, ◌^◌, ◌<◌, ◌≤◌, length, true, false};
ghost use Rattle.pesp_problem.specs.declared.limits.TheConstants.{MOST_EVENTS, MOST_PERIOD};
ghost use Rattle.pesp_problem.specs.Words.{IsLess};
ghost use Rattle.pesp_truth.specs.Sets.{is_set, padded_period, family_at};
ghost use Rattle.pesp_truth.specs.Windows.{IsLeast, IsTaken, NarrowsFamily};

use crate::bits::{has, remove};
use crate::word::narrow_word;

/// The shifts from a difference to its partners: `first`, and the `count` from there on, round the period.
#[derive(Clone, Copy)]
pub struct Window {
    pub first: usize,
    pub count: usize,
}

/// The least difference of an event, the period where there is none.
pub fn least(words: &[u64], period: usize, event: usize) -> usize
    requires period { period ≤ MOST_PERIOD }
    requires event { event ≤ MOST_EVENTS }
    requires long { event * padded_period period + padded_period period ≤ 64 * length words.now }
    ensures { IsLeast period event (family_at period words.now) result }
{
    for difference in 0..period {
        if has(words, period, event, difference) {
            return difference;
        }
    }
    period
}

/// The difference from which a shift leads to a place.
fn before(place: usize, shift: usize, period: usize) -> usize
    requires period { period ≤ MOST_PERIOD }
    requires place { place < period }
    requires shift { shift < period }
    ensures below { result < period }
    ensures place { (result + shift) % period ≡ place }
{
    if shift <= place {
        place - shift
    } else {
        place + period - shift
    }
}

/// How far the next difference of an event is from a place, round the period, where it is so far from the next place.
fn gap_at(words: &[u64], period: usize, other: usize, place: usize, gap: usize) -> usize
    requires period { period ≤ MOST_PERIOD }
    requires other { other ≤ MOST_EVENTS }
    requires place { place < period }
    requires long { other * padded_period period + padded_period period ≤ 64 * length words.now }
    requires gap { gap < 2 ^ 32 }
    ensures most { result ≤ gap + 1 }
    ensures here { is_set words.now (other * padded_period period + place) ≡ true → result ≡ 0 }
    ensures further { is_set words.now (other * padded_period period + place) ≡ false
        → result ≡ gap + 1 }
{
    if has(words, period, other, place) {
        0
    } else {
        gap + 1
    }
}

/// Takes the difference from which the first shift leads to a place, where the next one of the other event is past the
/// window.
fn take_lonely(
    words: &mut [u64],
    period: usize,
    kept: usize,
    place: usize,
    gap: usize,
    window: Window,
) -> bool
    requires period { period ≤ MOST_PERIOD }
    requires event { kept ≤ MOST_EVENTS }
    requires long { kept * padded_period period + padded_period period ≤ 64 * length words.old }
    requires place { place < period }
    requires first { window.first < period }
    ensures taken { window.count ≤ gap
        → IsTaken period kept window.first place words.old words.new }
    ensures same { gap < window.count → words.new ≡ words.old }
    ensures less { IsLess words.old words.new result }
{
    if gap < window.count {
        return false;
    }
    let difference = before(place, window.first, period);
    remove(words, period, kept, difference)
}

/// Keeps those differences of one event from which a shift of the window leads to one of the other event, of which there
/// is at least one, and says whether something was taken away.
pub fn narrow(words: &mut [u64], period: usize, kept: usize, other: usize, window: Window) -> bool
    requires period { (0 < period) × (period ≤ MOST_PERIOD) }
    requires kept { kept ≤ MOST_EVENTS }
    requires other { other ≤ MOST_EVENTS }
    requires long_kept { kept * padded_period period + padded_period period ≤ 64 * length words.old }
    requires long_other { other * padded_period period + padded_period period ≤ 64 * length words.old }
    requires apart { kept ≢ other }
    requires first { window.first < period }
    requires some { (d : ℕ) × (family_at period words.old other d ≡ true) }
    ensures narrows { NarrowsFamily period kept other window.first window.count
        (family_at period words.old) (family_at period words.new) }
    ensures less { IsLess words.old words.new result }
{
    if window.count >= period {
        return false;
    }
    if period <= 64 {
        return narrow_word(words, period, kept, other, window);
    }
    let mut gap = least(words, period, other);
    let mut changed = false;
    for step in 0..period {
        let place = period - 1 - step;
        gap = gap_at(words, period, other, place, gap);
        changed |= take_lonely(words, period, kept, place, gap, window);
    }
    changed
}
