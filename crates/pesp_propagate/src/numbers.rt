//! Signed working numbers in a slice, each step with its bound.

ghost use Rattle.std.specs.Prelude.{◌≡◌, ℕ, ◌+◌, ◌-◌, ◌*◌, ◌<◌, ◌≤◌, ◌+ℤ◌, ◌*ℤ◌, pos, neg_ℤ, length, unsigned_abs, slice_set};
ghost use Rattle.pesp_propagate.specs.Shifts.{number_at, Became};
ghost use Rattle.pesp_propagate.specs.Tallies.{prefix};

/// Working numbers, one for each amount below the period and one more.
#[derive(Drop)]
pub struct Numbers {
    pub costs: Vec<i64>,
    pub bars: Vec<i64>,
}

/// Adds to the number at a place.
pub fn raise(numbers: &mut [i64], at: usize, by: u64)
    requires within { at < length numbers.old }
    requires by { by ≤ 1000000000000000000 }
    requires room { unsigned_abs (number_at numbers.old at) ≤ 2000000000000000000 }
    ensures { numbers.new ≡ slice_set numbers.old at (number_at numbers.old at +ℤ pos by) }
{
    numbers[at] += by as i64;
}

/// Takes from the number at a place.
pub fn lower(numbers: &mut [i64], at: usize, by: u64)
    requires within { at < length numbers.old }
    requires by { by ≤ 1000000000000000000 }
    requires room { unsigned_abs (number_at numbers.old at) ≤ 2000000000000000000 }
    ensures { numbers.new ≡ slice_set numbers.old at (number_at numbers.old at +ℤ neg_ℤ (pos by)) }
{
    numbers[at] -= by as i64;
}

/// Adds the number before it.
fn carry(numbers: &mut [i64], at: usize)
    requires some { 0 < at }
    requires within { at < length numbers.old }
    requires room { unsigned_abs (number_at numbers.old (at - 1) +ℤ number_at numbers.old at)
        ≤ 2000000000000000000 }
    ensures { numbers.new
        ≡ slice_set numbers.old at (number_at numbers.old (at - 1) +ℤ number_at numbers.old at) }
{
    numbers[at] += numbers[at - 1];
}

/// Each of the first numbers becomes the sum up to it.
pub fn sum_up(numbers: &mut [i64], count: usize)
    requires count { count ≤ length numbers.old }
    requires level { (d : ℕ) → unsigned_abs (prefix (d + 1) numbers.old) ≤ 2000000000000000000 }
    ensures long { length numbers.new ≡ length numbers.old }
    ensures sums { Became count (λ d. prefix (d + 1) numbers.old) numbers.new }
{
    for i in 1..count {
        carry(numbers, i);
    }
}

/// By how much a slope rises up to a place, its sign apart.
fn rise(slope: &i64, at: usize) -> u64
    requires few { at ≤ 10000 }
    requires slope { unsigned_abs slope.now ≤ 100000000000000 }
    ensures value { result ≡ unsigned_abs slope.now * at }
    ensures most { result ≤ 1000000000000000000 }
{
    slope.unsigned_abs() * at as u64
}

/// Adds the slope times the place to the number there.
fn tip(numbers: &mut [i64], slope: &i64, at: usize)
    requires within { at < length numbers.old }
    requires few { at ≤ 10000 }
    requires slope { unsigned_abs slope.now ≤ 100000000000000 }
    requires room { unsigned_abs (number_at numbers.old at) ≤ 2000000000000000000 }
    ensures { numbers.new
        ≡ slice_set numbers.old at (number_at numbers.old at +ℤ slope.now *ℤ pos at) }
{
    if *slope >= 0 {
        raise(numbers, at, rise(slope, at));
    } else {
        lower(numbers, at, rise(slope, at));
    }
}

/// Adds the slope, times its place, to each of the first numbers.
pub fn slant(numbers: &mut [i64], slope: &i64, count: usize)
    requires count { count ≤ length numbers.old }
    requires few { count ≤ 10000 }
    requires slope { unsigned_abs slope.now ≤ 100000000000000 }
    requires room { (d : ℕ) → d < count
        → unsigned_abs (number_at numbers.old d) ≤ 2000000000000000000 }
    ensures long { length numbers.new ≡ length numbers.old }
    ensures slanted { Became count (λ d. number_at numbers.old d +ℤ slope.now *ℤ pos d)
        numbers.new }
{
    for i in 0..count {
        tip(numbers, slope, i);
    }
}

/// Makes all numbers 0.
pub fn clear(numbers: &mut [i64])
    ensures long { length numbers.new ≡ length numbers.old }
    ensures zeros { (p : ℕ) → number_at numbers.new p ≡ pos 0 }
{
    for i in 0..numbers.len() {
        numbers[i] = 0;
    }
}
