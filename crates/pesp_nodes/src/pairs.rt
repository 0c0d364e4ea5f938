//! Pairs of a leaf: cycles with their multipliers.

ghost use Rattle.std.specs.Prelude.{ℕ, ◌↔◌, length, IsTrue};
ghost use Rattle.pesp_nodes.specs.Problems.{IsPairOf, ArePairs};

use pesp_problem::{MOST_MULTIPLIER, Pair};

/// Whether a pair names one of so many cycles and keeps its limit.
fn is_pair(pair: &Pair, cycles: usize) -> bool
    ensures { IsTrue result ↔ IsPairOf cycles pair.now }
{
    if pair.cycle == 0 || pair.cycle as usize > cycles {
        return false;
    }
    let amount = pair.mult.unsigned_abs();
    1 <= amount && amount <= MOST_MULTIPLIER
}

/// Whether pairs can stand at a leaf: they rise, each names one of so many cycles, from 1, and its multiplier is from 1 to
/// 1000000000000 by amount.
pub fn are_pairs(pairs: &[Pair], cycles: usize) -> bool
    ensures { IsTrue result ↔ ArePairs cycles pairs.now }
{
    let mut last = 0;
    for pair in pairs {
        if !is_pair(pair, cycles) {
            return false;
        }
        if pair.cycle <= last {
            return false;
        }
        last = pair.cycle;
    }
    true
}
