//! The ranges of a node.

ghost use Rattle.std.specs.Prelude.{◌≡◌, ℕ, ◌+◌, ◌-◌, ◌*◌, ◌^◌, ◌<◌, ◌≤◌, length, pos, ◌*ℤ◌, unsigned_abs, slice_set};
ghost use Rattle.std.specs.Int.{int_min};
ghost use Rattle.pesp_problem.specs.declared.limits.TheConstants.{MOST_PERIOD, MOST_SLACK};
ghost use Rattle.pesp_problem.specs.Arcs.{arcs_of, arc_at};
ghost use Rattle.pesp_problem.specs.Limits.{KeepsLimits};
ghost use Rattle.pesp_problem.specs.Nodes.{part};
ghost use Rattle.pesp_problem.specs.Ranges.{cut_slack, cut_offset, IsCut};
ghost use Rattle.pesp_leaves.specs.Ranges.{node_of, AreRanges};

use crate::rows::arc_at;
use pesp_problem::exact::{minus, plus, times};
use pesp_problem::{Cut, Instance, Side};

/// A slack range for each row and an offset range for each cycle, and, kept up to date under cuts, the sum over all rows of
/// the lesser of the weight times each end of the slack range.
#[derive(Drop)]
pub struct Ranges {
    pub slacks: Vec<(u32, u32)>,
    pub offsets: Vec<(i64, i64)>,
    pub idle: i128,
}

/// The lesser of the weight times each end of a slack range.
pub fn idle_term(instance: &Instance, place: usize, range: (u32, u32)) -> i128
    requires exists { place < length instance.now.rows }
    requires low { range.0 ≤ MOST_PERIOD }
    requires high { range.1 ≤ MOST_PERIOD }
    ensures value { result
        ≡ int_min (pos (arc_at (arcs_of instance.now) place).weight *ℤ pos range.0)
        (pos (arc_at (arcs_of instance.now) place).weight *ℤ pos range.1) }
    ensures size { unsigned_abs result ≤ 10000000000000 }
    ensures limits { KeepsLimits instance.now }
{
    let weight = i128::from(arc_at(instance, place).weight);
    times(weight, i128::from(range.0)).min(times(weight, i128::from(range.1)))
}

/// Gives a row another slack range.
pub fn set_slack(instance: &Instance, ranges: &mut Ranges, place: usize, range: (u32, u32))
    requires ranges { AreRanges instance.now ranges.old }
    requires exists { place < length instance.now.rows }
    requires low { range.0 ≤ MOST_PERIOD }
    requires high { range.1 ≤ MOST_PERIOD }
    ensures slacks { ranges.new.slacks.items ≡ slice_set ranges.old.slacks.items place range }
    ensures offsets { ranges.new.offsets.items ≡ ranges.old.offsets.items }
    ensures ranges { AreRanges instance.now ranges.new }
{
    let before = idle_term(instance, place, ranges.slacks[place]);
    let after = idle_term(instance, place, range);
    ranges.idle = plus(minus(ranges.idle, before), after);
    ranges.slacks[place] = range;
}

/// A part of a slack range that is cut at `k`.
fn cut_slack(range: (u32, u32), k: u32, side: Side) -> (u32, u32)
    requires { k ≤ MOST_SLACK }
    ensures { result ≡ cut_slack range k side }
{
    match side {
        Side::Low => (range.0, range.1.min(k)),
        Side::High => (range.0.max(k + 1), range.1),
    }
}

/// A part of an offset range that is cut at `z`.
fn cut_offset(range: (i64, i64), z: i64, side: Side) -> (i64, i64)
    requires { unsigned_abs z ≤ 100000000000000 }
    ensures { result ≡ cut_offset range z side }
{
    match side {
        Side::Low => (range.0, range.1.min(z)),
        Side::High => (range.0.max(z + 1), range.1),
    }
}

/// Goes to a part of a cut.
pub fn take_part(instance: &Instance, ranges: &mut Ranges, cut: Cut, side: Side)
    requires ranges { AreRanges instance.now ranges.old }
    requires cut { IsCut (length instance.now.rows) (length ranges.old.offsets.items) cut }
    ensures node { node_of ranges.new ≡ part (node_of ranges.old) cut side }
    ensures ranges { AreRanges instance.now ranges.new }
{
    match cut {
        Cut::Slack { row, k } => {
            let place = row as usize - 1;
            let range = cut_slack(ranges.slacks[place], k, side);
            set_slack(instance, ranges, place, range);
        }
        Cut::Offset { cycle, k } => {
            let place = cycle as usize - 1;
            ranges.offsets[place] = cut_offset(ranges.offsets[place], k, side);
        }
    }
}
