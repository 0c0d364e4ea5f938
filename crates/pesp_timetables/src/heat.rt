//! How much worse a forest may be than the one before it.

use crate::goal::Goal;
use crate::settings::{COOLINGS, FEWEST_CHOSEN, FEWEST_HEATED};
use pesp_forest::{Frame, Random};

/// 1024 divided by the natural logarithm of 2: a loss as great as the heat is taken once in e times.
const HALVINGS: u128 = 1477;

/// The greatest loss at the start, which falls by some halvings until the last exchange; and by how much more offsets may be
/// open where an exchange is looked at.
#[derive(Clone, Copy)]
pub(crate) struct HeatSchedule {
    top: u64,
    most: u32,
    room: u64,
}

/// The mean of the rows' weights, and 1.
fn mean_weight(frame: &Frame) -> u64 {
    let mut sum = 0u64;
    for row in frame.rows() {
        sum = sum.saturating_add(row.weight);
    }
    let rows = frame.rows().len() as u64;
    sum.checked_div(rows).unwrap_or(0).saturating_add(1)
}

impl HeatSchedule {
    /// The heat of so many exchanges; none where they are too few for each cycle.
    pub(crate) fn new(frame: &Frame, goal: Goal, cycles: usize, most: u32) -> HeatSchedule {
        let scaled = goal
            .share
            .saturating_mul(u64::from(frame.period()))
            .saturating_mul(mean_weight(frame));
        let is_heated = most as usize >= cycles.saturating_mul(FEWEST_HEATED);
        let is_short = (most as usize) < cycles.saturating_mul(FEWEST_CHOSEN);
        HeatSchedule {
            top: if is_heated { scaled / 4096 } else { 0 },
            most,
            room: if is_short { scaled / 64 } else { scaled / 1024 },
        }
    }

    /// The heat after so many exchanges, halved step by step along lines.
    fn after(self, count: u32) -> u64 {
        let steps = u64::from(count).saturating_mul(16 * COOLINGS);
        let step = steps.checked_div(u64::from(self.most)).unwrap_or(0);
        let halved = self
            .top
            .wrapping_shr(u32::try_from(step / 16).unwrap_or(63));
        halved.saturating_sub((halved / 2).saturating_mul(step % 16) / 16)
    }

    /// Whether an exchange is looked at behind which offsets are so much more open: always where it is no more, else the less
    /// likely the more it is.
    pub(crate) fn looks_at(self, random: &mut Random, more: i128) -> bool {
        let Ok(more) = u128::try_from(more) else {
            return true;
        };
        let drawn = u128::from(random.halvings());
        more.saturating_mul(HALVINGS) <= u128::from(self.room).saturating_mul(drawn)
    }

    /// Whether a loss is taken after so many exchanges: always where there is none.
    pub(crate) fn takes(self, random: &mut Random, count: u32, loss: i128) -> bool {
        let drawn = u128::from(random.halvings());
        let Ok(loss) = u128::try_from(loss) else {
            return true;
        };
        let room = u128::from(self.after(count)).saturating_mul(drawn);
        loss.saturating_mul(HALVINGS) <= room
    }
}
