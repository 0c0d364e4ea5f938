//! How an anneal cools.

use pesp_annealing::halved;

/// So many sweeps at a heat that falls from a top, halved so many sixteenths of once. The top is in 32nds of the mean cost of a
/// row.
#[derive(Clone, Copy)]
pub struct Cooling {
    pub sweeps: u32,
    pub top: u64,
    pub sixteenths: u64,
}

/// A soft anneal and a hard one. A unit of time above a span costs the last price, in 32nds of the mean cost of a row, at the
/// end of the soft one, and at its beginning the last price halved so many times.
#[derive(Clone, Copy)]
pub struct AnnealPlan {
    pub soft: Cooling,
    pub hard: Cooling,
    pub last_price: u64,
    pub doublings: u64,
}

/// So many 32nds of a mean cost.
fn thirty_seconds(mean: u64, count: u64) -> u64 {
    (mean.saturating_mul(count) / 32).max(1)
}

impl Cooling {
    /// The heat of a sweep.
    pub(crate) fn heat(&self, mean: u64, sweep: u32) -> u64 {
        let done = u64::from(sweep).saturating_mul(self.sixteenths);
        let sixteenths = done / u64::from(self.sweeps.max(1));
        halved(thirty_seconds(mean, self.top), sixteenths)
    }
}

impl AnnealPlan {
    /// The price in a sweep.
    pub(crate) fn price(&self, mean: u64, sweep: u32) -> u64 {
        let all = self.doublings.saturating_mul(16);
        let done = u64::from(sweep).saturating_mul(all) / u64::from(self.soft.sweeps.max(1));
        halved(
            thirty_seconds(mean, self.last_price),
            all.saturating_sub(done),
        )
    }
}
