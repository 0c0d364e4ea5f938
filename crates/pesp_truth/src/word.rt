//! A set is narrowed where each set has one word: the numbers that the window leads from are found for all at once.

ghost use Rattle.std.specs.Prelude.{◌≡◌, ℕ, ◌+◌, ◌*◌, ◌%◌, ◌<◌, ◌≤◌, ◌↔◌, length, slice_index, IsTrue};
ghost use Rattle.std.specs.Int.{bit_at};
ghost use Rattle.pesp_problem.specs.Words.{IsLess};
ghost use Rattle.pesp_truth.specs.Sets.{padded_period, family_at};
ghost use Rattle.pesp_truth.specs.Visits.{HasSome};
ghost use Rattle.pesp_truth.specs.Windows.{NarrowsFamily};
ghost use Rattle.pesp_truth.specs.Words.{IsCutBelow, IsTurned, HavePartners, SetIsKept};

use crate::narrow::Window;

/// The numbers of a word below the period.
fn below(word: u64, period: usize) -> u64
    requires { (0 < period) × (period ≤ 64) }
    ensures { IsCutBelow period word result }
{
    word & (u64::MAX >> (64 - period))
}

/// The set of an event.
fn set_of(words: &[u64], period: usize, event: usize) -> u64
    requires period { (0 < period) × (period ≤ 64) }
    requires event { event < length words.now }
    ensures { IsCutBelow period (slice_index words.now event) result }
{
    below(words[event], period)
}

/// Each number of a set, moved down by a shift round the period.
fn turned(set: u64, period: usize, shift: usize) -> u64
    requires period { (0 < period) × (period ≤ 64) }
    requires shift { shift < period }
    requires set { (d : ℕ) → period ≤ d → bit_at set d ≡ 0 }
    ensures { IsTurned period shift set result }
{
    if shift == 0 {
        return set;
    }
    let round = below(set << (period - shift), period);
    (set >> shift) | round
}

/// The numbers from which a shift of the window leads to one of a set.
fn partners_of(set: u64, period: usize, window: Window) -> u64
    requires period { (0 < period) × (period ≤ 64) }
    requires first { window.first < period }
    requires count { window.count < period }
    requires set { (d : ℕ) → period ≤ d → bit_at set d ≡ 0 }
    ensures { HavePartners period window.first window.count set result }
{
    if window.count == 0 {
        return 0;
    }
    let mut partners = turned(set, period, window.first);
    let mut count = 1;
    while count < window.count {
        let step = count.min(window.count - count);
        let more = turned(partners, period, step);
        partners |= more;
        count += step;
    }
    partners
}

/// Keeps those numbers of an event's set that are among others, and says whether something was taken away.
fn keep(words: &mut [u64], period: usize, event: usize, others: u64) -> bool
    requires period { (0 < period) × (period ≤ 64) }
    requires event { event < length words.old }
    ensures kept { SetIsKept period event others words.old words.new }
    ensures less { IsLess words.old words.new result }
{
    let word = words[event];
    let lonely = below(word, period) & !others;
    let left = word & !lonely;
    words[event] = left;
    left != word
}

/// Whether an event has a difference.
pub fn has_number(words: &[u64], period: usize, event: usize) -> bool
    requires period { (0 < period) × (period ≤ 64) }
    requires long { event * padded_period period + padded_period period ≤ 64 * length words.now }
    ensures { IsTrue result ↔ HasSome (family_at period words.now) event }
{
    set_of(words, period, event) != 0
}

/// Keeps those differences of one event from which a shift of the window leads to one of the other event, and says whether
/// something was taken away.
pub fn narrow_word(
    words: &mut [u64],
    period: usize,
    kept: usize,
    other: usize,
    window: Window,
) -> bool
    requires period { (0 < period) × (period ≤ 64) }
    requires long_kept { kept * padded_period period + padded_period period ≤ 64 * length words.old }
    requires long_other { other * padded_period period + padded_period period ≤ 64 * length words.old }
    requires first { window.first < period }
    requires count { window.count < period }
    ensures narrows { NarrowsFamily period kept other window.first window.count
        (family_at period words.old) (family_at period words.new) }
    ensures less { IsLess words.old words.new result }
{
    let set = set_of(words, period, other);
    let partners = partners_of(set, period, window);
    keep(words, period, kept, partners)
}
