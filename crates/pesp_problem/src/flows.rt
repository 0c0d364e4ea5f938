//! Flows: for each row, the sum over pairs of the multiplier times the net count.

ghost use Rattle.std.specs.Prelude.{◌≡◌, ℕ, ◌+◌, ◌^◌, ◌<◌, ◌≤◌, length, ◌+ℤ◌, ◌*ℤ◌, unsigned_abs};
ghost use Rattle.pesp_problem.specs.declared.limits.TheConstants.{MOST_MULTIPLIER, MOST_SIGNED_ROWS};
ghost use Rattle.pesp_problem.specs.Nets.{count_of, AreSmallCounts};
ghost use Rattle.pesp_problem.specs.Terms.{number_at, AreSmallFlows};

use crate::exact::{plus, times};
use crate::nets::NetCount;

/// A multiplier times a net count.
fn product(mult: i64, count: i64) -> i128
    requires mult { unsigned_abs mult ≤ MOST_MULTIPLIER }
    requires count { unsigned_abs count ≤ MOST_SIGNED_ROWS }
    ensures value { result ≡ mult *ℤ count }
    ensures size { unsigned_abs result ≤ 10 ^ 19 }
{
    times(i128::from(mult), i128::from(count))
}

/// Adds a multiplier times each net count to the flow of its row.
pub fn add_flow(flows: &mut [i128], counts: &[NetCount], mult: i64)
    requires counts { AreSmallCounts (length flows.old) counts.now }
    requires mult { unsigned_abs mult ≤ MOST_MULTIPLIER }
    requires small { AreSmallFlows flows.old }
    ensures sum { (i : ℕ) → i < length flows.old
        → number_at flows.new i ≡ number_at flows.old i +ℤ mult *ℤ count_of counts.now i }
    ensures size { (i : ℕ) → i < length flows.old
        → unsigned_abs (number_at flows.new i) ≤ unsigned_abs (number_at flows.old i) + 10 ^ 19 }
{
    for net in counts {
        let at = net.place as usize;
        let flow = plus(flows[at], product(mult, net.count));
        flows[at] = flow;
    }
}
