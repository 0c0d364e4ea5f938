//! How soft anneals cool: heats and prices in 32nds of the mean cost of a row.

use pesp_soft_annealing::{AnnealPlan, Cooling};

/// What a unit of time above a span costs at the end of a soft anneal, and how often that was doubled until then.
#[derive(Clone, Copy)]
pub(crate) struct Prices {
    last: u64,
    doublings: u64,
}

/// From good timetables, most of whose offsets stay.
const FROM_GOOD: Prices = Prices {
    last: 256,
    doublings: 2,
};

impl Prices {
    /// The prices of individuals over so many rows. Where there are few rows they begin so low that offsets of long walks of
    /// narrow rows change.
    pub(crate) fn of(rows: usize) -> Prices {
        let (last, doublings) = match rows {
            0..=400 => (128, 3),
            401..=700 => (128, 2),
            _ => (256, 2),
        };
        Prices { last, doublings }
    }
}

/// The plan of a soft anneal at these prices, and of a hard one of so many sweeps.
fn plan(soft: Cooling, prices: Prices, hard_sweeps: u32) -> AnnealPlan {
    AnnealPlan {
        soft,
        hard: Cooling {
            sweeps: hard_sweeps,
            top: 32,
            sixteenths: 80,
        },
        last_price: prices.last,
        doublings: prices.doublings,
    }
}

/// An individual: from four times the mean to a half of it, in so many sweeps, and then from the mean to a 32nd of it.
pub(crate) fn individual(sweeps: u32, prices: Prices) -> AnnealPlan {
    let soft = Cooling {
        sweeps,
        top: 128,
        sixteenths: 48,
    };
    plan(soft, prices, 150)
}

/// A search from good timetables, from the mean, or the second one from one and a half times that, to a half of it.
fn from_good(sweeps: u32, number: u32, hard_sweeps: u32) -> AnnealPlan {
    let (top, sixteenths) = if number == 1 { (48, 25) } else { (32, 16) };
    let soft = Cooling {
        sweeps,
        top,
        sixteenths,
    };
    plan(soft, FROM_GOOD, hard_sweeps)
}

/// A search between the clusters of a merge.
pub(crate) fn between(sweeps: u32, number: u32) -> AnnealPlan {
    from_good(sweeps, number, 200)
}

/// A reheat of a good timetable.
pub(crate) fn reheat(sweeps: u32, number: u32) -> AnnealPlan {
    from_good(sweeps, number, 100)
}
