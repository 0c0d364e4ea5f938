//! The shifts that are looked at together.

use crate::places::{below, turned};
use pesp_clusters::{Activity, difference_within, sum_within};
use pesp_forest::Random;

/// At most 64 shifts: the first one, and each further one larger by two to the power of `doublings`, modulo the period. In
/// a period up to 64 they are all shifts from 0. `still` has the place of the shift by nothing, where that is one of them.
#[derive(Clone, Copy)]
pub struct Steps {
    period: u32,
    first: u32,
    doublings: u32,
    count: u32,
    still: u64,
}

/// What a row costs more under the shifts in turn: by `rise` more for each, from `first`, and by `leap` more from the one
/// at `turn` on.
#[derive(Clone, Copy)]
pub(crate) struct CostStep {
    pub(crate) first: i64,
    pub(crate) rise: i64,
    pub(crate) leap: i64,
    pub(crate) turn: u32,
}

/// A number divided by a power of two and rounded upwards.
fn divided_up(number: u32, doublings: u32) -> u32 {
    let less = 1u32.wrapping_shl(doublings).wrapping_sub(1);
    number.wrapping_add(less).wrapping_shr(doublings)
}

impl Steps {
    /// The shifts of a period: all where it is at most 64, else every second, fourth or so on, drawn at random, up to as many
    /// forwards as backwards.
    pub fn draw(period: u32, random: &mut Random) -> Steps {
        if period <= 64 {
            return Steps {
                period,
                first: 0,
                doublings: 0,
                count: period,
                still: 1,
            };
        }
        let most = u64::from((period / 64).ilog2()).wrapping_add(1);
        let doublings = (random.below(most) % 32) as u32;
        let back = 32u32.wrapping_shl(doublings);
        Steps {
            period,
            first: period.wrapping_sub(back),
            doublings,
            count: 64,
            still: 1 << 32,
        }
    }

    /// Whether these are all shifts.
    pub(crate) fn are_all(&self) -> bool {
        self.period <= 64
    }

    /// How many shifts there are.
    pub fn count(&self) -> u32 {
        self.count
    }

    /// The set of the place of the shift by nothing, where that is one of these.
    pub(crate) fn still(&self) -> u64 {
        self.still
    }

    /// The place of the shift by nothing.
    pub fn idle(&self) -> u32 {
        self.still.trailing_zeros()
    }

    /// The shift at a place.
    pub fn amount(&self, place: u32) -> u32 {
        sum_within(self.period, self.first, place.wrapping_shl(self.doublings))
    }

    /// By how much one of two sets may be shifted further than the other: by nothing, or forwards.
    pub(crate) fn forwards(&self) -> Steps {
        Steps {
            first: 0,
            still: 1,
            ..*self
        }
    }

    /// By how much one of two sets may be shifted further than the other: backwards, where these aren't all shifts.
    pub(crate) fn backwards(&self) -> Steps {
        let back = 64u32.wrapping_shl(self.doublings);
        Steps {
            first: self.period.wrapping_sub(back),
            still: 0,
            ..*self
        }
    }

    /// How often the difference of two shifts in turn is doubled: 0 where these are all shifts.
    pub fn doublings(&self) -> u32 {
        self.doublings
    }

    /// A row's slack under the first shift.
    pub fn first_slack(&self, row: &Activity, grows: bool) -> u32 {
        row.shifted(self.period, self.first, grows)
    }

    /// A row's slack under the first shift, and the place of the shift at which it begins anew.
    fn turn(&self, row: &Activity, grows: bool) -> (u32, u32) {
        if grows {
            let slack = sum_within(self.period, row.slack, self.first);
            let left = self.period.wrapping_sub(slack);
            (slack, divided_up(left, self.doublings))
        } else {
            let slack = difference_within(self.period, row.slack, self.first);
            (slack, slack.wrapping_shr(self.doublings).wrapping_add(1))
        }
    }

    /// What a row costs under the shifts.
    pub(crate) fn line(&self, row: &Activity, grows: bool) -> CostStep {
        let (slack, turn) = self.turn(row, grows);
        let sign = if grows {
            row.weight
        } else {
            row.weight.wrapping_neg()
        };
        let more = i64::from(slack).wrapping_sub(i64::from(row.slack));
        CostStep {
            first: row.weight.wrapping_mul(more),
            rise: sign.wrapping_shl(self.doublings),
            leap: sign.wrapping_neg().wrapping_mul(i64::from(self.period)),
            turn,
        }
    }

    /// The shifts under which a growing slack is within the span, where these aren't all shifts.
    fn allowed_growing(&self, row: &Activity) -> u64 {
        let (slack, turn) = self.turn(row, true);
        let before = if slack <= row.span {
            below(
                row.span
                    .wrapping_sub(slack)
                    .wrapping_shr(self.doublings)
                    .wrapping_add(1),
            )
        } else {
            0
        };
        let room = self.period.wrapping_add(row.span).wrapping_sub(slack);
        let after = below(room.wrapping_shr(self.doublings).wrapping_add(1));
        before | (after & !below(turn))
    }

    /// The shifts under which a falling slack is within the span, where these aren't all shifts.
    fn allowed_falling(&self, row: &Activity) -> u64 {
        let (slack, turn) = self.turn(row, false);
        let over = divided_up(slack.saturating_sub(row.span), self.doublings);
        let before = below(turn) & !below(over);
        let rest = self.period.wrapping_add(slack).wrapping_sub(row.span);
        before | !below(divided_up(rest, self.doublings))
    }

    /// The shifts under which a row's slack is within its span: all of them where no slack would break it.
    pub(crate) fn allowed(&self, row: &Activity, grows: bool) -> u64 {
        if row.is_wide(self.period) {
            below(self.count)
        } else {
            self.allowed_narrow(row, grows)
        }
    }

    /// The same for a row that some slack would break.
    fn allowed_narrow(&self, row: &Activity, grows: bool) -> u64 {
        if self.are_all() {
            let set = below(row.span.wrapping_add(1));
            let by = if grows {
                difference_within(self.period, 0, row.slack)
            } else {
                difference_within(self.period, row.slack, row.span)
            };
            turned(set, by, self.period)
        } else if grows {
            self.allowed_growing(row)
        } else {
            self.allowed_falling(row)
        }
    }
}
