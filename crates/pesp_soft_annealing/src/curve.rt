//! What the shifts of a component cost where spans may be broken.

use crate::tent::Tent;
use pesp_annealing::Steps;
use pesp_clusters::{Activity, SlackCrossing, difference_within};

/// Costs as a function of the shift, from the first shift on, whose difference from one shift to the next is doubled so often:
/// by how much they rise for each unit of time at first, and at the place of each shift by how much they leap there, and by how
/// much more they rise from there on.
#[derive(Drop)]
pub(crate) struct Curve {
    period: u32,
    doublings: u32,
    rise: i64,
    leaps: [i64; 64],
    bends: [i64; 64],
}

/// Adds to an amount.
fn add(amounts: &mut [i64; 64], place: u32, more: i64) {
    if let Some(amount) = amounts.get_mut(place as usize) {
        *amount = amount.wrapping_add(more);
    }
}

/// The rises of a row that goes upwards through its span and then above it: within, and above but for its tent.
#[derive(Clone, Copy)]
struct Rises {
    within: i64,
    above: i64,
    price: i64,
}

impl Curve {
    /// Nothing costs anything, in this period.
    pub(crate) fn new(period: u32) -> Curve {
        Curve {
            period,
            doublings: 0,
            rise: 0,
            leaps: [0; 64],
            bends: [0; 64],
        }
    }

    /// The place of the first shift that is at least so much larger than the first one.
    fn place_of(&self, ahead: u32) -> u32 {
        if self.doublings == 0 {
            return ahead;
        }
        let less = 1u32.wrapping_shl(self.doublings).wrapping_sub(1);
        ahead.wrapping_add(less).wrapping_shr(self.doublings)
    }

    /// Lets costs leap where the shift is so much larger than the first one.
    fn leap(&mut self, ahead: u32, by: i64) {
        let place = self.place_of(ahead);
        add(&mut self.leaps, place, by);
    }

    /// Lets costs rise more from where the shift is so much larger than the first one.
    fn bend(&mut self, ahead: u32, by: i64) {
        let place = self.place_of(ahead);
        add(&mut self.bends, place, by);
        if self.doublings != 0 {
            let late = place.wrapping_shl(self.doublings).wrapping_sub(ahead);
            add(&mut self.leaps, place, by.wrapping_mul(i64::from(late)));
        }
    }

    /// A row that can't be broken.
    fn add_wide(&mut self, steps: &Steps, row: &Activity, grows: bool) {
        let slack = steps.first_slack(row, grows);
        let all = row.weight.wrapping_mul(i64::from(self.period));
        if grows {
            self.rise = self.rise.wrapping_add(row.weight);
            let ahead = self.period.wrapping_sub(slack);
            self.leap(ahead, all.wrapping_neg());
        } else {
            self.rise = self.rise.wrapping_sub(row.weight);
            self.leap(slack.wrapping_add(1), all);
        }
    }

    /// By how much more the shift is than the first one when what goes upwards from `from` is at `to` next.
    fn ahead(&self, from: u32, to: u32) -> u32 {
        if to > from {
            to.wrapping_sub(from)
        } else {
            to.wrapping_add(self.period).wrapping_sub(from)
        }
    }

    /// Adds the line of a row that goes upwards from a place: through its span, and above it along its tent.
    fn add_line(&mut self, span: u32, from: u32, rises: &Rises) {
        let Rises {
            within,
            above,
            price,
        } = *rises;
        let sum = span.wrapping_add(self.period);
        let low = sum / 2;
        let high = sum.wrapping_add(1) / 2;
        let first = if from < span {
            within
        } else if from < low {
            above.wrapping_add(price)
        } else if from < high {
            above
        } else {
            above.wrapping_sub(price)
        };
        self.rise = self.rise.wrapping_add(first);
        let turn = above.wrapping_sub(within);
        let less = price.wrapping_neg();
        let to_span = self.ahead(from, span);
        let to_low = self.ahead(from, low);
        let to_high = self.ahead(from, high);
        let to_end = self.ahead(from, self.period);
        self.bend(to_span, price.wrapping_add(turn));
        self.bend(to_low, less);
        self.bend(to_high, less);
        self.bend(to_end, price.wrapping_sub(turn));
    }

    /// A row that may be broken.
    fn add_narrow(&mut self, steps: &Steps, row: &Activity, tent: &Tent, grows: bool) {
        let slack = steps.first_slack(row, grows);
        let price = tent.price;
        if grows {
            let rises = Rises {
                within: row.weight,
                above: tent.fall.wrapping_neg(),
                price,
            };
            self.add_line(row.span, slack, &rises);
            let end = self.ahead(slack, self.period);
            self.leap(end, tent.rest.wrapping_neg());
        } else {
            let rises = Rises {
                within: row.weight.wrapping_neg(),
                above: tent.fall,
                price,
            };
            let from = difference_within(self.period, row.span, slack);
            self.add_line(row.span, from, &rises);
            let next = self.ahead(from, row.span.wrapping_add(1));
            self.leap(next, tent.rest);
        }
    }

    /// The curve of the rows that cross.
    pub(crate) fn find(
        &mut self,
        steps: &Steps,
        rows: &[Activity],
        tents: &[Tent],
        crossings: &[SlackCrossing],
    ) -> Option<()> {
        self.doublings = steps.doublings();
        self.rise = 0;
        self.leaps = [0; 64];
        self.bends = [0; 64];
        for crossing in crossings {
            let row = rows.get(crossing.row as usize)?;
            if row.is_wide(self.period) {
                self.add_wide(steps, row, crossing.grows);
            } else {
                let tent = tents.get(crossing.row as usize)?;
                self.add_narrow(steps, row, tent, crossing.grows);
            }
        }
        Some(())
    }

    /// Writes what the shifts cost, the first one nothing.
    pub(crate) fn write(&self, costs: &mut [i64; 64]) {
        let mut cost = 0i64;
        let mut rise = self.rise;
        let changes = self.leaps.iter().zip(self.bends.iter());
        for (slot, (leap, bend)) in costs.iter_mut().zip(changes) {
            cost = cost.wrapping_add(*leap);
            rise = rise.wrapping_add(*bend);
            *slot = cost;
            cost = cost.wrapping_add(rise.wrapping_shl(self.doublings));
        }
    }
}
