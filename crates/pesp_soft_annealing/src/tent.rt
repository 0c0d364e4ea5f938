//! What a row costs outside its span.

use crate::settings::MOST_PRICE;
use pesp_clusters::Activity;

/// What a row costs with a slack above its span: as much as at its span, less `fall` for each unit of time above it, so that
/// `rest` is left at the period, where the slack begins anew; and more by `price` for each unit of time to the span or to the
/// period, whichever is nearer.
#[derive(Clone, Copy)]
pub(crate) struct Tent {
    pub(crate) fall: i64,
    pub(crate) rest: i64,
    pub(crate) price: i64,
}

/// A price within its limit.
fn within(price: u64) -> i64 {
    i64::try_from(price.min(MOST_PRICE)).unwrap_or(0)
}

/// Writes the costs between two places, from the first one on.
fn write_line(costs: &mut [u64; 64], from: u32, to: u32, first: i64, rise: i64) {
    let mut cost = first;
    let places = costs.get_mut(from as usize..to as usize).unwrap_or(&mut []);
    for slot in places.iter_mut() {
        *slot = cost.unsigned_abs();
        cost = cost.wrapping_add(rise);
    }
}

impl Tent {
    /// The tent of a row, at the price 1.
    pub(crate) fn of(period: u32, row: &Activity) -> Tent {
        let above = i64::from(period.saturating_sub(row.span));
        let most = row.weight.wrapping_mul(i64::from(row.span));
        Tent {
            fall: most.checked_div(above).unwrap_or(0),
            rest: most.checked_rem(above).unwrap_or(0),
            price: 1,
        }
    }

    /// Writes what the slacks of the row cost, from 0 on: three lines, up to its span, up to the middle above it, and up to the
    /// period.
    pub(crate) fn write(&self, period: u32, row: &Activity, costs: &mut [u64; 64]) {
        let span = row.span.min(period);
        let last = span.wrapping_add(period) / 2;
        let next = last.wrapping_add(1);
        let top = row.weight.wrapping_mul(i64::from(span));
        let falls = self.fall.wrapping_mul(i64::from(next.wrapping_sub(span)));
        let pays = self
            .price
            .wrapping_mul(i64::from(period.wrapping_sub(next)));
        let late = top.wrapping_sub(falls).wrapping_add(pays);
        let down = self.fall.wrapping_neg();
        write_line(costs, 0, span, 0, row.weight);
        write_line(costs, span, next, top, self.price.wrapping_add(down));
        write_line(costs, next, period, late, down.wrapping_sub(self.price));
    }

    /// Sets the price.
    pub(crate) fn set_price(&mut self, price: u64) {
        self.price = within(price);
    }

    /// Doubles the price.
    pub(crate) fn double_price(&mut self) {
        self.price = within(self.price.unsigned_abs().saturating_mul(2));
    }
}
