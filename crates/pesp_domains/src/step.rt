//! Sets of numbers as bits of words, and the step that keeps the supported numbers of one.

ghost use Rattle.std.specs.Prelude.{◌≡◌, ℕ, ◌+◌, ◌-◌, ◌*◌, ◌/◌, ◌%◌, ◌^◌, ◌<◌, ◌≤◌, ◌≢◌, ◌↔◌, ◌⊎◌, length, slice_index, bit_or, bit_and, max, min};
ghost use Rattle.std.specs.Int.{bit_at};
ghost use Rattle.pesp_problem.specs.declared.limits.TheConstants.{MOST_PERIOD};
ghost use Rattle.pesp_problem.specs.Words.{IsLess};
ghost use Rattle.pesp_domains.specs.Bits.{bit, IsWindow, IsTwice, KeepsSupported, KeepsShifted};

use crate::lanes;

/// So many shifts round a period, from the first on.
#[derive(Clone, Copy, PartialEq, Eq)]
pub struct Shifts {
    pub first: usize,
    pub count: usize,
}

/// The word at a place, 0 past the end.
fn word_at(words: &[u64], at: usize) -> u64
    ensures { result ≡ slice_index words.now at }
{
    if at < words.len() { words[at] } else { 0 }
}

/// The 64 bits from a place on.
pub(crate) fn word_from(words: &[u64], place: usize) -> u64
    ensures { (j : ℕ) → j < 64 → bit_at result j ≡ bit words.now (place + j) }
{
    let at = place / 64;
    let by = (place % 64) as u32;
    let low = word_at(words, at);
    if by == 0 {
        return low;
    }
    let high = word_at(words, at + 1);
    (low >> by) | (high << (64 - by))
}

/// Adds to each place what stands so many places further on.
fn or_ahead(words: &mut [u64], by: usize)
    requires few { length words.old ≤ 2 ^ 32 }
    requires by { by ≤ 2 ^ 32 }
    ensures { (d : ℕ) → bit words.new d ≡ max (bit words.old d) (bit words.old (d + by)) }
{
    let mut k = 0;
    while k + by / 64 + 9 <= words.len() {
        let joined = lanes::joined_eight(words, k, by);
        joined.copy_to_slice(&mut words[k..]);
        k += 8;
    }
    'rest: while k < words.len() {
        let more = word_from(words, 64 * k + by);
        let word = words[k];
        words[k] = word | more;
        k += 1;
    }
}

/// The 64 bits from a word on, of the set that is moved so many places up.
fn word_behind(words: &[u64], k: usize, by: usize) -> u64
    requires { k ≤ 2 ^ 32 }
    ensures above { (j : ℕ) → j < 64 → by ≤ 64 * k + j
        → bit_at result j ≡ bit words.now (64 * k + j - by) }
    ensures below { (j : ℕ) → j < 64 → 64 * k + j < by → bit_at result j ≡ 0 }
{
    let place = 64 * k;
    if by <= place {
        return word_from(words, place - by);
    }
    let short = by - place;
    if short < 64 {
        return word_at(words, 0) << short;
    }
    0
}

/// Takes all away.
fn clear(words: &mut [u64])
    ensures { (d : ℕ) → bit words.new d ≡ 0 }
{
    for word in words.iter_mut() {
        *word = 0;
    }
}

/// Joins to each place the next ones, so many in all.
pub(crate) fn spread(words: &mut [u64], count: usize)
    requires few { length words.old ≤ 2 ^ 32 }
    requires count { count ≤ 2 ^ 32 }
    ensures { IsWindow words.old words.new count }
{
    if count == 0 {
        clear(words);
        return;
    }
    let mut reach = 1;
    while reach < count {
        let by = reach.min(count - reach);
        or_ahead(words, by);
        reach += by;
    }
}

/// Lays a set of numbers below the period out twice, one after the other.
pub(crate) fn lay_twice(others: &[u64], period: usize, twice: &mut [u64])
    requires few { length twice.old ≤ 2 ^ 32 }
    requires period { (0 < period) × (period ≤ 2 ^ 32) }
    requires room { 2 * period ≤ 64 * length twice.old }
    requires clear { (d : ℕ) → period ≤ d → bit others.now d ≡ 0 }
    ensures { IsTwice period others.now twice.new }
{
    for k in 0..twice.len() {
        let once = word_from(others, 64 * k);
        let again = word_behind(others, k, period);
        twice[k] = once | again;
    }
}

/// Takes from `kept` each number from which no shift leads, round the period, to a number of `others`, and tells whether
/// there was one. The work is done on words: the others are laid out twice, so that no shift has to go round, then each
/// place is joined with those that the shifts lead to, by doubling, and the numbers at such places stay.
pub fn keep_supported(
    kept: &mut [u64],
    others: &[u64],
    period: usize,
    shifts: Shifts,
    room: &mut [u64],
) -> bool
    requires period { (0 < period) × (period ≤ MOST_PERIOD) }
    requires first { shifts.first < period }
    requires count { shifts.count ≤ period }
    requires room { 2 * period ≤ 64 * length room.old }
    requires few { (length room.old ≤ 2 ^ 32) × (length kept.old ≤ 2 ^ 32) }
    requires clear_kept { (d : ℕ) → period ≤ d → bit kept.old d ≡ 0 }
    requires clear_others { (d : ℕ) → period ≤ d → bit others.now d ≡ 0 }
    ensures supported { KeepsSupported period shifts.first shifts.count kept.old others.now
        kept.new }
    ensures less { IsLess kept.old kept.new result }
{
    lay_twice(others, period, room);
    spread(room, shifts.count);
    keep_shifted(kept, room, shifts.first, period - shifts.first)
}

/// Keeps the numbers that are in the set when that is moved down by one number or up by another.
pub(crate) fn keep_shifted(kept: &mut [u64], wide: &[u64], down: usize, up: usize) -> bool
    requires few { length kept.old ≤ 2 ^ 32 }
    requires down { down ≤ 2 ^ 32 }
    ensures shifted { KeepsShifted kept.old kept.new wide.now down up }
    ensures less { IsLess kept.old kept.new result }
{
    let mut changed = false;
    for k in 0..kept.len() {
        let below = word_from(wide, 64 * k + down);
        let above = word_behind(wide, k, up);
        let word = kept[k];
        let next = word & (below | above);
        changed |= next != word;
        kept[k] = next;
    }
    changed
}

/// So many ones.
fn ones(count: usize) -> u64
    ensures ones { (j : ℕ) → j < 64 → j < count → bit_at result j ≡ 1 }
    ensures zeros { (j : ℕ) → j < 64 → count ≤ j → bit_at result j ≡ 0 }
{
    if count >= 64 {
        u64::MAX
    } else {
        (1 << count) - 1
    }
}

/// Makes a set of all numbers below a count.
pub(crate) fn fill(set: &mut [u64], count: usize)
    requires few { length set.old ≤ 2 ^ 32 }
    ensures ones { (d : ℕ) → d < count → d < 64 * length set.old → bit set.new d ≡ 1 }
    ensures zeros { (d : ℕ) → count ≤ d → bit set.new d ≡ 0 }
{
    for k in 0..set.len() {
        let word = ones(count.saturating_sub(64 * k));
        set[k] = word;
    }
}
