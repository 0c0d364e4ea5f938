//! How much work anneals have in which spans may be broken.

use crate::plans::Prices;
use pesp_network::Network;

/// Up to how many rows there is no search in which spans may be broken: batches find the best there.
const FEWEST_SOFT: usize = 120;

/// How many reheats of a timetable are merged with it.
const REHEATS: u32 = 3;

/// Up to how many rows dense networks are annealed longer, and balls are left out behind a far dearer timetable.
pub const MANY_ROWS: usize = 8_000;

/// From how many groups on all of them are made where a batch came to one cost twice.
const MANY_GROUPS: u32 = 8;

/// After how many groups in turn that found nothing cheaper no more begin.
const PATIENCE: u32 = 4;

/// How many groups of how many individuals have anneals in which spans may be broken, and with how many sweeps and
/// at which prices, and after how many groups in turn that found nothing cheaper no more begin; how many sweeps an anneal between
/// clusters has; how many rounds there are of how many reheats, with how many sweeps, and after how many rounds in turn that found
/// nothing they end.
#[derive(Clone, Copy)]
pub struct SoftEffort {
    pub(crate) groups: u32,
    pub(crate) individuals: u32,
    pub(crate) sweeps: u32,
    pub(crate) prices: Prices,
    pub(crate) patience: u32,
    pub(crate) between: u32,
    pub(crate) rounds: u32,
    pub(crate) reheats: u32,
    pub(crate) again: u32,
    pub(crate) quiet: u32,
}

/// Whether a timetable costs at most a 16th more than the cheapest one: a dearer one isn't worth a merge with it.
pub fn may_merge(cost: u64, least: u64) -> bool {
    cost <= least.saturating_add(least / 16)
}

/// Whether there are more than three activities for two events: then there are many offsets to find.
pub fn is_dense(network: &Network) -> bool {
    let events = network.events() as usize;
    network.rows().len().saturating_mul(2) > events.saturating_mul(3)
}

impl SoftEffort {
    /// The work before the first step; None where there is none.
    pub fn first(network: &Network) -> Option<SoftEffort> {
        let rows = network.rows().len();
        if rows <= FEWEST_SOFT {
            return None;
        }
        let (groups, individuals, sweeps, between, again, rounds) = match rows {
            0..=400 => (8, 4, 200, 300, 150, 2),
            401..=700 => (2, 4, 250, 300, 200, 1),
            701..=2_500 if is_dense(network) => (1, 3, 2_500, 300, 400, 2),
            701..=2_500 => (1, 3, 2_000, 400, 500, 2),
            2_501..=MANY_ROWS if is_dense(network) => (1, 1, 6_000, 600, 500, 1),
            2_501..=MANY_ROWS => (1, 1, 1_000, 600, 400, 1),
            8_001..=30_000 => (1, 1, 600, 600, 300, 1),
            _ => (1, 1, 200, 200, 100, 0),
        };
        Some(SoftEffort {
            groups,
            individuals,
            sweeps,
            prices: Prices::of(rows),
            patience: PATIENCE,
            between,
            rounds,
            reheats: REHEATS,
            again,
            quiet: 1,
        })
    }

    /// The same with two thirds of the sweeps: for a batch that others do their work beside.
    pub fn shorter(&self) -> SoftEffort {
        SoftEffort {
            sweeps: self.sweeps / 3 * 2,
            between: self.between / 3 * 2,
            again: self.again / 3 * 2,
            ..*self
        }
    }

    /// Whether new individuals are made.
    pub fn has_groups(&self) -> bool {
        self.groups > 0
    }

    /// The work where a batch came to one cost twice: all of it where there are many groups, else one individual in a quarter of
    /// the sweeps.
    pub fn after_same(&self) -> SoftEffort {
        if self.groups >= MANY_GROUPS {
            return *self;
        }
        SoftEffort {
            groups: self.groups.min(1),
            individuals: 1,
            sweeps: self.sweeps / 4,
            ..*self
        }
    }

    /// The work after so many steps.
    pub fn after(rows: usize, steps: u32) -> SoftEffort {
        let between = match rows {
            0..=MANY_ROWS => 1_000,
            8_001..=30_000 => 600,
            _ => 200,
        };
        SoftEffort {
            groups: 0,
            individuals: 0,
            sweeps: 0,
            prices: Prices::of(rows),
            patience: 0,
            between,
            rounds: (steps / 512).clamp(1, 4),
            reheats: REHEATS,
            again: between / 2,
            quiet: 2,
        }
    }
}
