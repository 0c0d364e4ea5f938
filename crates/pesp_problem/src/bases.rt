//! The rest that the bases of a marked walk leave.

ghost use Rattle.std.specs.Prelude.{◌≡◌, ◌*◌, ◌<◌, ◌≤◌, length, neg_ℤ, ◌+ℤ◌, ◌*ℤ◌, unsigned_abs, All};
ghost use Rattle.pesp_problem.specs.declared.limits.TheConstants.{MOST_SIGNED_ROWS};
ghost use Rattle.pesp_problem.specs.Timetables.{remainder};
ghost use Rattle.pesp_problem.specs.Walks.{RowExists, sign};
ghost use Rattle.pesp_problem.specs.Ranges.{AreSlackEnds};
ghost use Rattle.pesp_problem.specs.Marked.{walk_sum, base};
ghost use Rattle.pesp_problem.specs.Marked as marked;
ghost use Rattle.pesp_problem.specs.Terms.{AreSmallArcs};

use crate::Arc;
use crate::exact::plus;
use crate::marked::MarkedRow;

/// The duration at which a marked row has distance 0.
fn base(arcs: &[Arc], slacks: &[(u32, u32)], s: MarkedRow) -> i128
    requires arcs { AreSmallArcs arcs.now }
    requires slacks { AreSlackEnds slacks.now }
    requires long { length slacks.now ≡ length arcs.now }
    requires exists { RowExists arcs.now s.signed }
    ensures value { result ≡ base arcs.now slacks.now s }
    ensures size { unsigned_abs result ≤ 1030000 }
{
    let at = s.signed.row as usize - 1;
    let range = slacks[at];
    let end = if s.flipped { range.1 } else { range.0 };
    plus(i128::from(arcs[at].lower), i128::from(end))
}

/// A number under the sign of a row.
fn signed(s: MarkedRow, number: i128) -> i128
    requires { unsigned_abs number ≤ 1030000 }
    ensures value { result ≡ sign s.signed *ℤ number }
    ensures size { unsigned_abs result ≤ 1030000 }
{
    if s.signed.plus { number } else { -number }
}

/// The sum of the bases along marked rows, each under its sign.
fn bases(arcs: &[Arc], slacks: &[(u32, u32)], walk: &[MarkedRow]) -> i128
    requires arcs { AreSmallArcs arcs.now }
    requires slacks { AreSlackEnds slacks.now }
    requires long { length slacks.now ≡ length arcs.now }
    requires exist { All (λ s. RowExists arcs.now s.signed) walk.now }
    requires short { length walk.now ≤ MOST_SIGNED_ROWS }
    ensures value { result ≡ walk_sum walk.now (λ s. sign s.signed *ℤ base arcs.now slacks.now s) }
    ensures size { unsigned_abs result ≤ MOST_SIGNED_ROWS * 1030000 }
{
    let mut sum = 0;
    for s in walk {
        sum = plus(sum, signed(*s, base(arcs, slacks, *s)));
    }
    sum
}

/// The remainder of a number by the period.
fn remainder(number: i128, period: u32) -> u32
    requires period { 0 < period }
    requires small { unsigned_abs number ≤ 10000000 * 1030000 }
    ensures value { result ≡ remainder period (neg_ℤ number) }
    ensures size { result < period }
{
    (-number).rem_euclid(i128::from(period)) as u32
}

/// What the bases of a marked walk leave by the period.
pub fn rest(period: u32, arcs: &[Arc], slacks: &[(u32, u32)], walk: &[MarkedRow]) -> u32
    requires period { 0 < period }
    requires arcs { AreSmallArcs arcs.now }
    requires slacks { AreSlackEnds slacks.now }
    requires long { length slacks.now ≡ length arcs.now }
    requires exist { All (λ s. RowExists arcs.now s.signed) walk.now }
    requires short { length walk.now ≤ MOST_SIGNED_ROWS }
    ensures value { result ≡ marked.rest (record {
      period = period;
      arcs = arcs.now;
    }) slacks.now walk.now }
    ensures size { result < period }
{
    remainder(bases(arcs, slacks, walk), period)
}
