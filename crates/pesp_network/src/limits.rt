//! Which rows a network may have, and the rows of an instance.

ghost use Rattle.std.specs.Prelude.{◌≡◌, ℕ, ◌+◌, ◌<◌, ◌≤◌, ◌↔◌, length, map, IsTrue, IfOk, IfSome, MatchOption, All};
ghost use Rattle.pesp_problem.specs.Arcs as spec;
ghost use Rattle.pesp_problem.specs.Limits.{RowKeepsLimits};
ghost use Rattle.pesp_network.specs.Networks.{arcs_of_network, net_row_at, RowKeepsNetLimits, IsBadRow, AreGood};

use crate::row::NetRow;
use pesp_problem::{MOST_EVENTS, MOST_LOWER, MOST_PERIOD, MOST_ROWS, MOST_WEIGHT, Row, arc_of};
use std::alloc::{AllocError, Global};

/// Whether a row keeps its limits.
fn is_good(period: u32, events: u32, row: &NetRow) -> bool
    ensures { IsTrue result ↔ RowKeepsNetLimits period events row.now }
{
    row.tail < events
        && row.head < events
        && row.span < period
        && row.lower.unsigned_abs() <= MOST_LOWER
        && row.weight <= MOST_WEIGHT
}

/// The first row that a network of so many events can't have, by its number from 1, or 0 where the period or the number of
/// events is beyond its limit.
pub fn bad_row(period: u32, events: u32, rows: &[NetRow]) -> Option<u32>
    ensures { MatchOption result (AreGood period events rows.now)
        (IsBadRow period events rows.now) }
{
    if period == 0 || period > MOST_PERIOD || events as usize > MOST_EVENTS {
        return Some(0);
    }
    for (i, row) in rows.iter().enumerate() {
        if i >= MOST_ROWS || !is_good(period, events, row) {
            return Some(i as u32 + 1);
        }
    }
    None
}

/// The rows of an instance, each with its span and its number.
pub fn rows_of(alloc: Global, period: u32, rows: &[Row]) -> Result<Vec<NetRow>, AllocError>
    requires period { 1 ≤ period }
    requires few { length rows.now ≤ MOST_ROWS }
    requires each { (events : ℕ) × All (RowKeepsLimits events) rows.now }
    ensures arcs { IfOk result
        (λ made. arcs_of_network made.items ≡ map (spec.arc_of period) rows.now) }
    ensures origins { IfOk result
        (λ made. (i : ℕ) → i < length made.items → (net_row_at made.items i).origin ≡ i + 1) }
    ensures few { IfOk result (λ made. length made.items ≤ MOST_ROWS) }
    ensures each { (events : ℕ) → All (RowKeepsLimits events) rows.now
        → IfOk result (λ made. All (RowKeepsNetLimits period events) made.items) }
{
    let mut made = Vec::with_capacity(alloc, rows.len())?;
    for (i, row) in rows.iter().enumerate() {
        let arc = arc_of(period, row);
        made.push(NetRow {
            tail: arc.tail,
            head: arc.head,
            lower: arc.lower,
            span: arc.span,
            weight: arc.weight,
            origin: i as u32 + 1,
        })?;
    }
    Ok(made)
}
