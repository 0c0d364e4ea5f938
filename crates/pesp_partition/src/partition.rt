//! Partitions of the events, in which inequalities of great share are inside one part.

use crate::joining::EventParts;
use crate::multiplied::Multiplied;
use pesp_forest::Random;
use pesp_network::NetRow;
use std::alloc::{AllocError, Global};
use std::cmp::Reverse;

/// How many partitions are tried.
const TRIES: u32 = 30;

/// How many thousandths make up one, by which shares are multiplied.
const WHOLE: u64 = 1_000;

/// What a partition is made from: the parts of events that are joined on, the rows, and the inequalities. A part has at most so
/// many events.
#[derive(Clone, Copy)]
pub(crate) struct Joined<'a> {
    pub(crate) labels: &'a [u32],
    pub(crate) rows: &'a [NetRow],
    pub(crate) inequalities: &'a [Multiplied],
    pub(crate) most: u32,
}

/// A partition: the part of each event, and the shares of inequalities inside one part.
#[derive(Drop)]
struct Partition {
    labels: Vec<u32>,
    inside: u128,
}

/// The order in which inequalities are looked at: by falling share, each times a random number up to so much.
fn order_of(
    alloc: Global,
    joined: Joined<'_>,
    random: &mut Random,
    noise: u64,
) -> Result<Vec<u32>, AllocError> {
    let mut keyed = Vec::with_capacity(alloc, joined.inequalities.len())?;
    for (place, inequality) in joined.inequalities.iter().enumerate() {
        let number = u32::try_from(place).unwrap_or(u32::MAX);
        let drawn = WHOLE.saturating_add(random.below(noise.saturating_mul(WHOLE)));
        keyed.push((inequality.share().saturating_mul(u128::from(drawn)), number))?;
    }
    keyed.sort_unstable_by_key(|one| (Reverse(one.0), one.1));
    let mut order = Vec::with_capacity(alloc, keyed.len())?;
    for (_, number) in &keyed {
        order.push(*number)?;
    }
    Ok(order)
}

/// Joins along inequalities in this order.
fn join_along(joined: Joined<'_>, parts: &mut EventParts, order: &[u32]) -> Result<(), AllocError> {
    for place in order {
        if let Some(inequality) = joined.inequalities.get(*place as usize) {
            parts.join(&inequality.events)?;
        }
    }
    Ok(())
}

/// Joins along rows.
fn join_rows(joined: Joined<'_>, parts: &mut EventParts) -> Result<(), AllocError> {
    for row in joined.rows {
        parts.join(&[row.tail, row.head])?;
    }
    Ok(())
}

/// The shares of inequalities inside one part.
fn inside_of(joined: Joined<'_>, parts: &mut EventParts) -> u128 {
    let mut sum = 0u128;
    for inequality in joined.inequalities {
        if parts.has_all(&inequality.events) {
            sum = sum.saturating_add(inequality.share());
        }
    }
    sum
}

/// A partition by this much of noise.
fn partition_by(
    alloc: Global,
    joined: Joined<'_>,
    random: &mut Random,
    noise: u64,
) -> Result<Partition, AllocError> {
    let order = order_of(alloc, joined, random, noise)?;
    let mut parts = EventParts::labelled(alloc, joined.labels, joined.most)?;
    join_along(joined, &mut parts, &order)?;
    join_along(joined, &mut parts, &order)?;
    join_rows(joined, &mut parts)?;
    let inside = inside_of(joined, &mut parts);
    let events = u32::try_from(joined.labels.len()).unwrap_or(u32::MAX);
    let labels = parts.labels(alloc, events)?;
    Ok(Partition { labels, inside })
}

/// The part of each event, by the partition of the most inside its parts.
pub(crate) fn best_partition(alloc: Global, joined: Joined<'_>) -> Result<Vec<u32>, AllocError> {
    let mut random = Random::new(1);
    let mut best = partition_by(alloc, joined, &mut random, 0)?;
    for number in 1..TRIES {
        let noise = u64::from(number % 3);
        let found = partition_by(alloc, joined, &mut random, noise)?;
        if found.inside > best.inside {
            best = found;
        }
    }
    Ok(best.labels)
}
