//! How much work a batch is.

use pesp_soft_times::{MANY_ROWS, may_merge};

/// How many individuals, in fours, and how many fours while they are close to the search in which spans may be broken; how many
/// fours come before that one; how many rounds an anneal has; and how many balls in turn may find nothing behind each merge.
#[derive(Clone, Copy)]
pub(crate) struct BatchWork {
    pub(crate) fours: u32,
    pub(crate) close: u32,
    pub(crate) before_soft: u32,
    pub(crate) rounds: u32,
    pub(crate) balls: u32,
}

/// About how many numbers are looked at for an activity in a visit that may break spans.
pub(crate) const A_VISIT: u64 = 120;

/// About how many in a round of an individual's anneal.
pub(crate) const A_ROUND: u64 = 1_500;

/// About how many in a round of a merge.
pub(crate) const A_MERGE: u64 = 300;

/// About how many in a round of a ball.
pub(crate) const A_BALL: u64 = 150;

/// About how many beside each other activity, where the best slacks under offsets are found.
pub(crate) const A_PAIR: u64 = 6;

/// How many greedy rounds come before an anneal.
pub(crate) const GREEDY: u32 = 4;

/// Up to how many rows the relaxation is dived into.
pub(crate) const MOST_DIVED: usize = 8_000;

/// Up to how many rows no batch ends early: all of it takes little time there.
pub(crate) const MAY_END_EARLY: usize = 150;

/// Up to how many rows there is more work for each row.
pub(crate) const FEW: usize = 2_500;

/// Whether a timetable is worth a merge beside the cheapest of a pool: where there are many rows, or it costs at most a 32nd more.
pub(crate) fn is_near(rows: usize, cost: u64, least: u64) -> bool {
    rows > FEW || cost <= least.saturating_add(least / 32)
}

impl BatchWork {
    /// The work before the first step.
    pub(crate) fn first(rows: usize) -> BatchWork {
        let (fours, close, before_soft, rounds, balls) = match rows {
            0..=300 => (8, 8, 2, 20, 3),
            301..=400 => (3, 3, 2, 20, 3),
            401..=700 => (2, 2, 2, 20, 3),
            701..=FEW => (1, 3, 0, 8, 2),
            2_501..=30_000 => (1, 1, 0, 8, 2),
            _ => (1, 1, 0, 6, 20),
        };
        BatchWork {
            fours,
            close,
            before_soft,
            rounds,
            balls,
        }
    }

    /// The work after so many steps: little beside what the steps took, from a few thousand steps on.
    pub(crate) fn after(rows: usize, steps: u32) -> BatchWork {
        let least = if rows > 2_500 { 15 } else { 3 };
        BatchWork {
            fours: 1,
            close: 1,
            before_soft: 0,
            rounds: (steps / 8).clamp(20, 100),
            balls: (steps / 512).saturating_add(least).min(40),
        }
    }
}

/// Whether a batch may still lead to the cheapest timetable, by what its cheapest and that of the other search cost.
pub(crate) fn may_win(hard: u64, soft: u64) -> bool {
    hard <= soft.saturating_add(soft / 32)
}

/// Whether a timetable of the batch may join the other search, by their costs. Balls behind a dearer one take long where there are
/// many rows.
pub(crate) fn may_join(rows: usize, hard: u64, soft: u64) -> bool {
    rows <= FEW || rows > MANY_ROWS || may_merge(hard, soft)
}

/// Whether more fours pay, by what the cheapest of the batch and that of the other search cost.
pub(crate) fn is_close(hard: u64, soft: u64) -> bool {
    hard <= soft.saturating_add(soft / 48)
}
