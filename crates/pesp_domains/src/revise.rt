//! The sets at the ends of one arc.

ghost use Rattle.std.specs.Prelude.{◌≡◌, ℕ, ◌+◌, ◌-◌, ◌*◌, ◌/◌, ◌%◌, ◌^◌, ◌<◌, ◌≤◌, ◌≢◌, ◌↔◌, ◌⊎◌, length, true, false};
ghost use Rattle.pesp_problem.specs.Families.{IsWithin};
ghost use Rattle.pesp_problem.specs.Words.{IsLess};
ghost use Rattle.pesp_domains.specs.Bits.{bit};
ghost use Rattle.pesp_domains.specs.Sets.{IsClear, Narrows, Revises, Changes, family};
ghost use Rattle.std.specs.Prelude.{pos};
ghost use Rattle.std.specs.Int.{int_rem_euclid};
ghost use Rattle.pesp_problem.specs.declared.limits.TheConstants.{MOST_PERIOD};

use crate::step::{self, Shifts};
use pesp_problem::Arc;

/// Keeps those differences of one event from which some shift leads to one of another.
fn narrow(
    words: &mut [u64],
    beside: &mut [u64],
    twice: &mut [u64],
    period: usize,
    kept: usize,
    other: usize,
    shifts: Shifts,
) -> bool
    requires period { (0 < period) × (period ≤ MOST_PERIOD) }
    requires width { length beside.old ≤ 1000 }
    requires kept { kept * length beside.old + length beside.old ≤ length words.old }
    requires other { other * length beside.old + length beside.old ≤ length words.old }
    requires few { length words.old ≤ 2 ^ 32 }
    requires first { shifts.first < period }
    requires count { shifts.count ≤ period }
    requires room { (2 * period ≤ 64 * length twice.old) × (length twice.old ≤ 2 ^ 32) }
    requires clear { IsClear period (length beside.old) words.old }
    ensures narrows { Narrows period (length beside.old) kept other shifts.first shifts.count
        words.old words.new }
    ensures less { IsLess words.old words.new result }
{
    let width = beside.len();
    let from = other * width;
    beside.copy_from_slice(&words[from..from + width]);
    let base = kept * width;
    step::keep_supported(
        &mut words[base..base + width],
        beside,
        period,
        shifts,
        twice,
    )
}

/// A lower bound as a shift round the period.
fn shift_of(lower: &i64, period: usize) -> usize
    requires { (0 < period) × (period ≤ MOST_PERIOD) }
    ensures { pos result ≡ int_rem_euclid lower.now (pos period) }
{
    lower.rem_euclid(period as i64) as usize
}

/// At which ends of an arc a set is another.
#[derive(Clone, Copy)]
pub struct Changed {
    pub tail: bool,
    pub head: bool,
}

/// Takes from the sets at both ends of an arc each difference with no partner. Each set has as many words as there is
/// room beside; `twice` has room for a set that is laid out twice.
pub fn revise(
    words: &mut [u64],
    beside: &mut [u64],
    twice: &mut [u64],
    period: usize,
    arc: &Arc,
    range: (u32, u32),
) -> Changed
    requires period { (0 < period) × (period ≤ MOST_PERIOD) }
    requires width { length beside.old ≤ 1000 }
    requires tail { arc.now.tail * length beside.old + length beside.old ≤ length words.old }
    requires head { arc.now.head * length beside.old + length beside.old ≤ length words.old }
    requires few { length words.old ≤ 2 ^ 32 }
    requires room { (2 * period ≤ 64 * length twice.old) × (length twice.old ≤ 2 ^ 32) }
    requires clear { IsClear period (length beside.old) words.old }
    ensures revises { Revises period (length beside.old) arc.now range words.old words.new }
    ensures changes { Changes (length beside.old) arc.now words.old words.new result.tail
        result.head }
{
    let tail = arc.tail as usize;
    let head = arc.head as usize;
    let shift = shift_of(&arc.lower, period);
    let low = range.0 as usize;
    let high = (range.1 as usize).min(period - 1);
    if tail == head {
        let back = (period - shift) % period;
        let count = if low <= back && back <= high { 1 } else { 0 };
        let own = Shifts { first: 0, count };
        let fewer = narrow(words, beside, twice, period, tail, tail, own);
        return Changed {
            tail: fewer,
            head: fewer,
        };
    }
    let count = (high + 1).saturating_sub(low);
    let ahead = Shifts {
        first: (shift + low) % period,
        count,
    };
    let back = Shifts {
        first: (2 * period - shift - high) % period,
        count,
    };
    let fewer_tails = narrow(words, beside, twice, period, tail, head, ahead);
    let fewer_heads = narrow(words, beside, twice, period, head, tail, back);
    Changed {
        tail: fewer_tails,
        head: fewer_heads,
    }
}

/// Whether a set has no number.
pub fn has_none(set: &[u64]) -> bool
    ensures none { result ≡ true → (d : ℕ) → bit set.now d ≡ 0 }
    ensures some { result ≡ false → (d : ℕ) × (bit set.now d ≡ 1) }
{
    for word in set.iter() {
        if *word != 0 {
            return false;
        }
    }
    true
}

/// Keeps what a mask has at one place, and what another has everywhere else.
fn mask_set(set: &mut [u64], place: usize, mask: u64, others: u64)
    ensures { (d : ℕ) → bit set.new d ≡ 1 → bit set.old d ≡ 1 }
{
    for k in 0..set.len() {
        let keep = if k == place { mask } else { others };
        let word = set[k];
        set[k] = word & keep;
    }
}

/// Keeps of one set what a mask has at one of its words, and what another has everywhere else.
pub fn keep_bits(
    words: &mut [u64],
    width: usize,
    event: usize,
    place: usize,
    mask: u64,
    others: u64,
)
    requires width { width ≤ 1000 }
    requires event { event * width + width ≤ length words.old }
    requires few { length words.old ≤ 2 ^ 32 }
    ensures { IsWithin (family width words.new) (family width words.old) }
{
    let base = event * width;
    mask_set(&mut words[base..base + width], place, mask, others);
}
