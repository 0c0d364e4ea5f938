//! Scales of multipliers.

use pesp_cert::{Fronted, Marks};
use pesp_network::{NetRow, Network};

/// The least scale of leaves that name a marked walk, where weights allow it.
const LEAST_SCALE: u32 = 524_288;

/// The greatest scale of a text.
const MOST_SCALE: u32 = 1_000_000;

/// The period for which the least scale is fine enough: the longer the period, the less the multipliers.
const PERIOD: u32 = 60;

/// The greatest multiplier of a text.
const MOST_MULTIPLIER: u64 = 1_000_000_000_000;

/// How many times the greatest weight multipliers may be, at least.
const ROOM: u64 = 4;

/// The greatest weight.
fn greatest_weight(rows: &[NetRow]) -> u64 {
    let mut greatest = 1;
    for row in rows {
        greatest = greatest.max(row.weight);
    }
    greatest
}

/// The scale by which multipliers are fine enough for a period.
fn scale_of(period: u32) -> u32 {
    let scale = (LEAST_SCALE / PERIOD).saturating_mul(period);
    scale.max(LEAST_SCALE).min(MOST_SCALE)
}

/// The scale for a network: less where its weights are great, so that multipliers have a text.
pub fn scale_for(network: &Network) -> u32 {
    let wanted = scale_of(network.period());
    let most = MOST_MULTIPLIER / greatest_weight(network.rows()).saturating_mul(ROOM).max(1);
    u32::try_from(most).unwrap_or(wanted).min(wanted).max(1)
}

/// How often the scale of a front goes into the scale for a network, 1 at least.
fn factor_of(marks: &Marks, network: &Network) -> u32 {
    (scale_for(network) / marks.scale().max(1)).max(1)
}

/// By what the multipliers of a base's leaves grow that name a marked walk.
pub(crate) fn growth_of(base: &Fronted, network: &Network) -> i64 {
    match &base.front {
        Some(front) => i64::from(factor_of(front.marks(), network)),
        None => 1,
    }
}

/// The scale in which the leaves of a base can be told again exactly: a multiple of its own, or that for the network where it has
/// none.
pub fn scale_over(base: &Fronted, network: &Network) -> u32 {
    match &base.front {
        Some(front) => {
            let marks = front.marks();
            marks.scale().saturating_mul(factor_of(marks, network))
        }
        None => scale_for(network),
    }
}
