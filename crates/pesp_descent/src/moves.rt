//! The choice of an amount by which a side is shifted.

use pesp_forest::Random;
use pesp_problem::Arc;
use pesp_propagate::{Entry, Numbers, shift_costs};

/// The weight of an amount that is as cheap as the cheapest.
const FULL: u64 = 1 << 20;

/// The cost of an amount under which all rows are satisfied.
fn allowed_cost(numbers: &Numbers, amount: u32) -> Option<i64> {
    let at = amount as usize;
    if *numbers.bars.get(at)? == 0 {
        numbers.costs.get(at).copied()
    } else {
        None
    }
}

/// The cheapest amount under which all rows are satisfied; 0 where none is cheaper than no shift.
fn cheapest(period: u32, numbers: &Numbers) -> u32 {
    let mut best: u32 = 0;
    let mut least: i64 = 0;
    for amount in 0..period {
        let cost = allowed_cost(numbers, amount).unwrap_or(0);
        if cost < least {
            best = amount;
            least = cost;
        }
    }
    best
}

/// The weight of an amount that is dearer than the cheapest: a half for each time that the heat goes into the difference.
fn weight(dearer: u64, heat: u64) -> u64 {
    if heat == 0 || dearer / 20 >= heat {
        return 0;
    }
    let halves = (dearer / heat).min(63) as u32;
    let full = FULL >> halves;
    let rest = (full / 2).wrapping_mul(dearer % heat) / heat;
    full.wrapping_sub(rest)
}

/// The weight of an amount; 0 where a row isn't satisfied under it.
fn weight_of(numbers: &Numbers, amount: u32, least: i64, heat: u64) -> u64 {
    match allowed_cost(numbers, amount) {
        Some(cost) => weight(cost.abs_diff(least), heat),
        None => 0,
    }
}

/// The least cost of an amount below the period under which all rows are satisfied; 0 where none is below 0.
fn least_cost(period: u32, numbers: &Numbers) -> i64 {
    let mut least: i64 = 0;
    for amount in 0..period {
        least = least.min(allowed_cost(numbers, amount).unwrap_or(0));
    }
    least
}

/// The weights of all amounts below the period, added up.
fn weight_of_all(period: u32, numbers: &Numbers, least: i64, heat: u64) -> u64 {
    let mut sum: u64 = 0;
    for amount in 0..period {
        sum = sum.wrapping_add(weight_of(numbers, amount, least, heat));
    }
    sum
}

/// The amount at which the weights, added up in order, pass a number; 0 where they don't.
fn amount_at(period: u32, numbers: &Numbers, least: i64, heat: u64, number: u64) -> u32 {
    let mut left = number;
    for amount in 0..period {
        let here = weight_of(numbers, amount, least, heat);
        if left < here {
            return amount;
        }
        left = left.wrapping_sub(here);
    }
    0
}

/// An amount at random, the likelier the cheaper it is, under which all rows are satisfied.
fn warm(period: u32, numbers: &Numbers, heat: u64, random: &mut Random) -> u32 {
    let least = least_cost(period, numbers);
    let number = random.below(weight_of_all(period, numbers, least, heat));
    amount_at(period, numbers, least, heat, number)
}

/// The amount by which a side is shifted: the cheapest where there is no heat, else one at random.
fn choose(period: u32, numbers: &Numbers, heat: u64, random: &mut Random) -> u32 {
    if heat == 0 {
        cheapest(period, numbers)
    } else {
        warm(period, numbers, heat, random)
    }
}

/// Changes the slacks of the rows that cross a side as the side is shifted.
fn shift(period: u32, slacks: &mut [u32], entries: &[Entry], amount: u32) {
    for entry in entries {
        let at = entry.row as usize;
        if at < slacks.len() {
            let grown = if entry.inward {
                slacks[at].wrapping_add(amount)
            } else {
                slacks[at].wrapping_add(period).wrapping_sub(amount)
            };
            slacks[at] = if grown >= period {
                grown.wrapping_sub(period)
            } else {
                grown
            };
        }
    }
}

/// Shifts a side that these entries cross, and gives by how much that is dearer.
pub(crate) fn shift_side(
    period: u32,
    arcs: &[Arc],
    slacks: &mut [u32],
    entries: &[Entry],
    numbers: &mut Numbers,
    heat: u64,
    random: &mut Random,
) -> Option<i64> {
    let costs = &mut numbers.costs;
    if !shift_costs(period, arcs, slacks, entries, costs, &mut numbers.bars) {
        return None;
    }
    let amount = choose(period, numbers, heat, random);
    if amount == 0 {
        return Some(0);
    }
    let dearer = *numbers.costs.get(amount as usize)?;
    shift(period, slacks, entries, amount);
    Some(dearer)
}
