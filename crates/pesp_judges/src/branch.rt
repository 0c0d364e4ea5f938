//! What a cut changes of the ranges, and how it is taken back.

ghost use Rattle.std.specs.Prelude.{◌≡◌, ◌-◌, length};
ghost use Rattle.pesp_problem.specs.Ranges.{AreSlackEnds, IsCut};
ghost use Rattle.pesp_leaves.specs.Ranges.{node_of, AreRanges};
ghost use Rattle.pesp_problem.specs.Pending.{change_of, restored};
ghost use Rattle.pesp_judges.specs.Pending.{IsChange};

use pesp_leaves::{Ranges, set_slack};
use pesp_problem::{Change, Cut, Instance};

/// What a cut is going to change.
pub fn change_of(ranges: &Ranges, cut: Cut) -> Change
    requires ends { AreSlackEnds ranges.now.slacks.items }
    requires cut { IsCut (length ranges.now.slacks.items) (length ranges.now.offsets.items) cut }
    ensures change { result ≡ change_of (node_of ranges.now) cut }
    ensures limits { IsChange (length ranges.now.slacks.items) (length ranges.now.offsets.items)
        result }
{
    match cut {
        Cut::Slack { row, k } => Change::Slack {
            row,
            k,
            was: ranges.slacks[row as usize - 1],
        },
        Cut::Offset { cycle, k } => Change::Offset {
            cycle,
            k,
            was: ranges.offsets[cycle as usize - 1],
        },
    }
}

/// Puts the changed range back.
pub fn put_back(instance: &Instance, ranges: &mut Ranges, change: Change)
    requires ranges { AreRanges instance.now ranges.old }
    requires change { IsChange (length instance.now.rows) (length ranges.old.offsets.items) change }
    ensures node { node_of ranges.new ≡ restored (node_of ranges.old) change }
    ensures ranges { AreRanges instance.now ranges.new }
{
    match change {
        Change::Slack { row, was, .. } => set_slack(instance, ranges, row as usize - 1, was),
        Change::Offset { cycle, was, .. } => ranges.offsets[cycle as usize - 1] = was,
    }
}
