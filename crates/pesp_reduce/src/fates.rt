//! What is left of the rows.

ghost use Rattle.std.specs.Prelude.{◌≡◌, ℕ, ◌+◌, ◌<◌, ◌≤◌, length, map, IfOk, All, vec_len, unsigned_abs};
ghost use Rattle.pesp_problem.specs.declared.limits.TheConstants.{MOST_LOWER, MOST_ROWS};
ghost use Rattle.pesp_problem.specs.Walks.{Names};
ghost use Rattle.pesp_network.specs.Networks.{net_row_at, arcs_of_network};
ghost use Rattle.pesp_reduce.specs.Rows.{flag};
ghost use Rattle.pesp_reduce.specs.Fates as spec;

use crate::fate::Fate;
use crate::rows::is_free;
use pesp_network::{NetRow, Network};
use std::alloc::{AllocError, Global};

/// A row between the events that its ends become.
fn mapped_row(stands: &[u32], shifts: &[u32], row: &NetRow) -> NetRow
    requires tail { row.now.tail < length stands.now }
    requires head { row.now.head < length stands.now }
    requires lower { unsigned_abs row.now.lower ≤ MOST_LOWER }
    requires shifts { length shifts.now ≡ length stands.now }
    ensures { result ≡ spec.mapped_row stands.now shifts.now row.now }
{
    let tail = row.tail as usize;
    let head = row.head as usize;
    NetRow {
        tail: stands[tail],
        head: stands[head],
        lower: row.lower + i64::from(shifts[tail]) - i64::from(shifts[head]),
        span: row.span,
        weight: row.weight,
        origin: row.origin,
    }
}

/// The rows between the events that their ends become.
pub fn mapped_rows(
    alloc: Global,
    stands: &[u32],
    shifts: &[u32],
    rows: &[NetRow],
) -> Result<Vec<NetRow>, AllocError>
    requires tails { All (λ row. row.tail < length stands.now) rows.now }
    requires heads { All (λ row. row.head < length stands.now) rows.now }
    requires lowers { All (λ row. unsigned_abs row.lower ≤ MOST_LOWER) rows.now }
    requires shifts { length shifts.now ≡ length stands.now }
    ensures { IfOk result
        (λ made. made.items ≡ map (spec.mapped_row stands.now shifts.now) rows.now) }
{
    let mut made = Vec::new(alloc);
    for row in rows {
        made.push(mapped_row(stands, shifts, row))?;
    }
    Ok(made)
}

/// What becomes of a row.
fn fate_of(period: u32, row: &NetRow, contracted: bool, left: &Network, number: u32) -> Fate
    requires period { 0 < period }
    requires number { Names (length left.now.rows) number }
    ensures { spec.IsFate period row.now contracted (arcs_of_network left.now.rows) number result }
{
    if is_free(period, row) {
        return Fate::Free;
    }
    if contracted {
        return Fate::Contracted;
    }
    if left.is_bridge(number) {
        return Fate::Bridge;
    }
    Fate::Kept
}

/// What becomes of each row.
pub fn fates_of(
    alloc: Global,
    period: u32,
    rows: &[NetRow],
    contracted: &[bool],
    left: &Network,
) -> Result<Vec<Fate>, AllocError>
    requires period { 0 < period }
    requires few { length rows.now ≤ MOST_ROWS }
    requires flags { length contracted.now ≡ length rows.now }
    requires left { length left.now.rows ≡ length rows.now }
    ensures count { IfOk result (λ fates. vec_len fates ≡ length rows.now) }
    ensures each { IfOk result (λ fates. (i : ℕ) → i < length rows.now
        → spec.IsFate period (net_row_at rows.now i) (flag contracted.now i)
        (arcs_of_network left.now.rows) (i + 1) (spec.fate_at fates.items i)) }
{
    let mut fates = Vec::new(alloc);
    for (i, row) in rows.iter().enumerate() {
        let number = i as u32 + 1;
        fates.push(fate_of(period, row, contracted[i], left, number))?;
    }
    Ok(fates)
}

/// Whether a row with this fate is kept.
fn is_kept(fate: Fate) -> bool
    ensures { result ≡ spec.is_kept fate }
{
    match fate {
        Fate::Free => false,
        Fate::Contracted => false,
        Fate::Bridge => false,
        Fate::Kept => true,
    }
}

/// The rows that are kept, in order.
pub fn kept_rows(alloc: Global, rows: &[NetRow], fates: &[Fate]) -> Result<Vec<NetRow>, AllocError>
    requires { length fates.now ≡ length rows.now }
    ensures { IfOk result
        (λ made. made.items ≡ spec.kept_below fates.now rows.now (length rows.now)) }
{
    let mut made = Vec::new(alloc);
    for (i, row) in rows.iter().enumerate() {
        if !is_kept(fates[i]) {
            continue;
        }
        made.push(*row)?;
    }
    Ok(made)
}
