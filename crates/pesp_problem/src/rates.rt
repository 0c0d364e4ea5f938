//! The rates of a marked walk, added row by row.

ghost use Rattle.std.specs.Prelude.{◌≡◌, ℕ, ◌+◌, ◌-◌, ◌*◌, ◌^◌, ◌<◌, ◌≤◌, length, pos, ◌+ℤ◌, ◌*ℤ◌, unsigned_abs, Bool, true, false, All, IfOk};
ghost use Rattle.pesp_problem.specs.declared.limits.TheConstants.{MOST_MULTIPLIER, MOST_PERIOD, MOST_SIGNED_ROWS};
ghost use Rattle.pesp_problem.specs.Walks.{Names, RowExists};
ghost use Rattle.pesp_problem.specs.Ranges.{AreSlackEnds};
ghost use Rattle.pesp_problem.specs.Marked.{rate, walk_sum};
ghost use Rattle.pesp_problem.specs.Marked as marked;
ghost use Rattle.pesp_problem.specs.Rates.{rates_at, rate_of, passed, more_of, AreSmallRates, AreNoRates};
ghost use Rattle.pesp_problem.specs.Terms.{AreSmallArcs};

use crate::Arc;
use crate::bases::rest;
use crate::exact::{plus, times};
use crate::marked::MarkedRow;
use std::alloc::{AllocError, Global};

/// What passes a row: the sum of multiplier times rate over its plain passes, and over its flipped ones.
#[derive(Clone, Copy)]
pub struct Rates {
    pub plain: i128,
    pub flipped: i128,
}

/// Rates of so many rows that nothing passes.
pub fn no_rates(alloc: Global, count: usize) -> Result<Vec<Rates>, AllocError>
    ensures long { IfOk result (λ rates. length rates.items ≡ count) }
    ensures none { IfOk result (λ rates. AreNoRates rates.items) }
{
    vec![in alloc; Rates {
        plain: 0,
        flipped: 0
    }; count]
}

/// Makes rates those of rows that nothing passes.
pub fn clear(rates: &mut [Rates])
    ensures long { length rates.new ≡ length rates.old }
    ensures none { AreNoRates rates.new }
{
    rates.fill(Rates {
        plain: 0,
        flipped: 0,
    });
}

/// What a unit of distance counts along a marked row: the period less the rest where its direction is plus, the rest where
/// it is minus.
fn rate(period: u32, alpha: u32, s: MarkedRow) -> i128
    requires period { period ≤ MOST_PERIOD }
    requires rest { alpha < period }
    ensures value { result ≡ pos (rate period alpha s) }
    ensures size { unsigned_abs result ≤ 10000 }
{
    let rises = if s.flipped {
        !s.signed.plus
    } else {
        s.signed.plus
    };
    if rises {
        i128::from(period - alpha)
    } else {
        i128::from(alpha)
    }
}

/// More of the plain or of the flipped passes.
fn more(rates: Rates, flipped: bool, by: i128) -> Rates
    requires plain { unsigned_abs rates.plain + unsigned_abs by < 2 ^ 127 }
    requires flipped { unsigned_abs rates.flipped + unsigned_abs by < 2 ^ 127 }
    ensures { (b : Bool) → rate_of b result ≡ rate_of b rates +ℤ more_of flipped by b }
{
    if flipped {
        Rates {
            plain: rates.plain,
            flipped: plus(rates.flipped, by),
        }
    } else {
        Rates {
            plain: plus(rates.plain, by),
            flipped: rates.flipped,
        }
    }
}

/// Adds the rates of a marked walk, each times a multiplier.
fn add_rates(period: u32, alpha: u32, walk: &[MarkedRow], mult: i64, rates: &mut [Rates])
    requires period { period ≤ MOST_PERIOD }
    requires rest { alpha < period }
    requires mult { unsigned_abs mult ≤ MOST_MULTIPLIER }
    requires exist { All (λ s. Names (length rates.old) s.signed.row) walk.now }
    requires short { length walk.now ≤ MOST_SIGNED_ROWS }
    requires small { AreSmallRates 99999 rates.old }
    ensures sum { (i : ℕ) (flipped : Bool) → i < length rates.old
        → rate_of flipped (rates_at rates.new i) ≡ rate_of flipped (rates_at rates.old i)
        +ℤ mult *ℤ walk_sum walk.now (passed period alpha i flipped) }
    ensures size { (i : ℕ) (flipped : Bool) → i < length rates.old
        → unsigned_abs (rate_of flipped (rates_at rates.new i))
        ≤ unsigned_abs (rate_of flipped (rates_at rates.old i)) + 10 ^ 23 }
{
    for s in walk {
        let at = s.signed.row as usize - 1;
        let by = times(i128::from(mult), rate(period, alpha, *s));
        let next = more(rates[at], s.flipped, by);
        rates[at] = next;
    }
}

/// The multiplier times what the gain is at least.
fn least_gain(period: u32, alpha: u32, mult: i64) -> i128
    requires period { period ≤ MOST_PERIOD }
    requires rest { alpha < period }
    requires mult { unsigned_abs mult ≤ MOST_MULTIPLIER }
    ensures value { result ≡ mult *ℤ pos (alpha * (period - alpha)) }
    ensures size { unsigned_abs result ≤ 1000000000000 * 100000000 }
{
    times(
        i128::from(mult),
        times(i128::from(alpha), i128::from(period - alpha)),
    )
}

/// Adds a closed marked walk under a multiplier: its rates, at these slack ranges, to those of the rows. Gives what its gain
/// is at least, times the multiplier.
pub fn add_walk(
    period: u32,
    arcs: &[Arc],
    slacks: &[(u32, u32)],
    walk: &[MarkedRow],
    mult: i64,
    rates: &mut [Rates],
) -> i128
    requires some { 0 < period }
    requires period { period ≤ MOST_PERIOD }
    requires arcs { AreSmallArcs arcs.now }
    requires slacks { AreSlackEnds slacks.now }
    requires long { length slacks.now ≡ length arcs.now }
    requires exist { All (λ s. RowExists arcs.now s.signed) walk.now }
    requires short { length walk.now ≤ MOST_SIGNED_ROWS }
    requires mult { unsigned_abs mult ≤ MOST_MULTIPLIER }
    requires all { length rates.old ≡ length arcs.now }
    requires small { AreSmallRates 99999 rates.old }
    ensures gain { result ≡ mult *ℤ pos (marked.least_gain (record {
      period = period;
      arcs = arcs.now;
    }) slacks.now walk.now) }
    ensures gain_size { unsigned_abs result ≤ 1000000000000 * 100000000 }
    ensures sum { (i : ℕ) (flipped : Bool) → i < length rates.old
        → rate_of flipped (rates_at rates.new i) ≡ rate_of flipped (rates_at rates.old i)
        +ℤ mult *ℤ marked.rates_at (record {
          period = period;
          arcs = arcs.now;
        }) slacks.now walk.now flipped i }
    ensures size { (i : ℕ) (flipped : Bool) → i < length rates.old
        → unsigned_abs (rate_of flipped (rates_at rates.new i))
        ≤ unsigned_abs (rate_of flipped (rates_at rates.old i)) + 10 ^ 23 }
{
    let alpha = rest(period, arcs, slacks, walk);
    add_rates(period, alpha, walk, mult, rates);
    least_gain(period, alpha, mult)
}
