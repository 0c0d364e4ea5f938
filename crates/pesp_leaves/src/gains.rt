//! What the marked walks that a leaf names add to it.

ghost use Rattle.std.specs.Prelude.{◌≡◌, ℕ, ◌+◌, ◌*◌, ◌^◌, ◌<◌, ◌≤◌, [], ◌∷◌, length, ◌+ℤ◌, unsigned_abs, Bool};
ghost use Rattle.pesp_problem.specs.declared.limits.TheConstants.{MOST_MULTIPLIER};
ghost use Rattle.pesp_problem.specs.Arcs.{net_of};
ghost use Rattle.pesp_leaves.specs.Offsets.{AreSlackRanges};
ghost use Rattle.pesp_leaves.specs.Flows.{ArePairLimits};
ghost use Rattle.pesp_truth.specs.Named.{IsNamed, AreNamed};
ghost use Rattle.pesp_problem.specs.Rates.{rates_at, rate_of, AreSmallRates, AreNoRates};
ghost use Rattle.pesp_leaves.specs.Gains.{gains_of, rates_of};
ghost use Rattle.pesp_leaves.specs.Claims.{FitsShown};

use crate::checker::{Checker, Shown};
use crate::elements::Elements;
use pesp_problem::exact::plus;
use pesp_problem::{Pair, Rates, add_walk};

/// Adds the marked walk that a pair names to rates, under the pair's multiplier. Gives what it gains at least, times the
/// multiplier; nothing for a pair that names a cycle.
fn add_pair(
    checker: &Checker<'_>,
    shown: &Shown<'_>,
    slacks: &[(u32, u32)],
    pair: Pair,
    rates: &mut [Rates],
) -> i128
    requires fits { FitsShown checker.now.instance.now shown.now }
    requires slacks { AreSlackRanges (length checker.now.instance.now.rows) slacks.now }
    requires named { IsNamed (length checker.now.table.now)
        (length shown.now.marks.now.walks) pair }
    requires mult { unsigned_abs pair.mult ≤ MOST_MULTIPLIER }
    requires long { length rates.old ≡ length checker.now.instance.now.rows }
    requires small { AreSmallRates 99999 rates.old }
    ensures gain { result ≡ gains_of (net_of checker.now.instance.now) slacks.now
        (length checker.now.table.now) shown.now.marks.now.walks (pair ∷ []) }
    ensures gain_size { unsigned_abs result ≤ 10 ^ 20 }
    ensures sum { (i : ℕ) (flipped : Bool) → i < length rates.old
        → rate_of flipped (rates_at rates.new i) ≡ rate_of flipped (rates_at rates.old i)
        +ℤ rates_of (net_of checker.now.instance.now) slacks.now
        (length checker.now.table.now) shown.now.marks.now.walks (pair ∷ []) flipped i }
    ensures size { (i : ℕ) (flipped : Bool) → i < length rates.old
        → unsigned_abs (rate_of flipped (rates_at rates.new i))
        ≤ unsigned_abs (rate_of flipped (rates_at rates.old i)) + 10 ^ 23 }
{
    let cycles = checker.table.len();
    let number = pair.cycle as usize;
    if number <= cycles {
        return 0;
    }
    let walk = &shown.marks.walks()[number - cycles - 1];
    let period = checker.instance.period();
    add_walk(period, shown.arcs, slacks, walk.rows(), pair.mult, rates)
}

/// Makes the rates of the marked walks that pairs name, out of rates of rows that nothing passes. Gives what these walks gain
/// at least, each times its multiplier.
pub fn add_walks<P: Elements<Pair>>(
    checker: &Checker<'_>,
    shown: &Shown<'_>,
    slacks: &[(u32, u32)],
    pairs: P,
    rates: &mut [Rates],
) -> i128
    requires fits { FitsShown checker.now.instance.now shown.now }
    requires slacks { AreSlackRanges (length checker.now.instance.now.rows) slacks.now }
    requires named { AreNamed (length checker.now.table.now)
        (length shown.now.marks.now.walks) (P.elements pairs) }
    requires limits { ArePairLimits (P.elements pairs) }
    requires long { length rates.old ≡ length checker.now.instance.now.rows }
    requires none { AreNoRates rates.old }
    ensures gains { result ≡ gains_of (net_of checker.now.instance.now) slacks.now
        (length checker.now.table.now) shown.now.marks.now.walks (P.elements pairs) }
    ensures size { unsigned_abs result ≤ 10 ^ 25 }
    ensures rates { (i : ℕ) (flipped : Bool) → i < length rates.old
        → rate_of flipped (rates_at rates.new i) ≡ rates_of (net_of checker.now.instance.now)
        slacks.now (length checker.now.table.now) shown.now.marks.now.walks
        (P.elements pairs) flipped i }
    ensures small { AreSmallRates 100000 rates.new }
{
    let mut left = pairs;
    let mut gains = 0;
    while let Some(pair) = left.take_next() {
        gains = plus(gains, add_pair(checker, shown, slacks, pair, rates));
    }
    gains
}
