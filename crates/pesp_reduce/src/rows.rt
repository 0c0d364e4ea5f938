//! Rows that take part in a network, and loops in the places of those that don't, so that each row keeps its number.

ghost use Rattle.std.specs.Prelude.{◌≡◌, ℕ, ◌<◌, [], map, length, IfOk, vec_len};
ghost use Rattle.pesp_network.specs.Networks.{net_row_at, KeepsNetLimits};
ghost use Rattle.pesp_reduce.specs.Rows as spec;

use pesp_network::{NetRefusal, NetRow, Network};
use pesp_problem::Memory;
use std::alloc::{AllocError, Global};

/// A loop at the row's tail.
fn loop_at(row: &NetRow) -> NetRow
    ensures { result ≡ spec.loop_at row.now }
{
    NetRow {
        tail: row.tail,
        head: row.tail,
        lower: 0,
        span: 0,
        weight: 0,
        origin: row.origin,
    }
}

/// The row where it takes part, else a loop.
fn part(takes: bool, row: &NetRow) -> NetRow
    ensures { result ≡ spec.row_or_loop takes row.now }
{
    if takes { *row } else { loop_at(row) }
}

/// Whether a row is free and of weight 0.
pub fn is_free(period: u32, row: &NetRow) -> bool
    requires { 0 < period }
    ensures { result ≡ spec.is_free period row.now }
{
    row.span == period - 1 && row.weight == 0
}

/// The row, or a loop where it is free and of weight 0.
fn row_that_matters(period: u32, row: &NetRow) -> NetRow
    requires { 0 < period }
    ensures { result ≡ spec.row_that_matters period row.now }
{
    if is_free(period, row) {
        loop_at(row)
    } else {
        *row
    }
}

/// The row, or a loop where it isn't fixed.
fn fixed_row(row: &NetRow) -> NetRow
    ensures { result ≡ spec.fixed_row row.now }
{
    part(row.span == 0, row)
}

/// The rows, with a loop for each free row of weight 0.
pub fn rows_that_matter(
    alloc: Global,
    period: u32,
    rows: &[NetRow],
) -> Result<Vec<NetRow>, AllocError>
    requires { 0 < period }
    ensures { IfOk result (λ made. made.items ≡ map (spec.row_that_matters period) rows.now) }
{
    rows.iter()
        .map(|row| row_that_matters(period, row))
        .collect(alloc)
}

/// The fixed rows, with a loop for each other row.
pub fn fixed_rows(alloc: Global, rows: &[NetRow]) -> Result<Vec<NetRow>, AllocError>
    ensures { IfOk result (λ made. made.items ≡ map spec.fixed_row rows.now) }
{
    rows.iter().map(|row| fixed_row(row)).collect(alloc)
}

/// The rows that take part, with a loop for each other row.
pub fn part_of(alloc: Global, rows: &[NetRow], takes: &[bool]) -> Result<Vec<NetRow>, AllocError>
    requires { length takes.now ≡ length rows.now }
    ensures count { IfOk result (λ made. vec_len made ≡ length rows.now) }
    ensures rows { IfOk result (λ made. (i : ℕ) → i < length rows.now
        → net_row_at made.items i ≡ spec.row_or_loop (spec.flag takes.now i) (net_row_at rows.now i)) }
{
    let mut made = Vec::new(alloc);
    for (i, row) in rows.iter().enumerate() {
        made.push(part(takes[i], row))?;
    }
    Ok(made)
}

/// The network of rows that keep their limits.
pub fn network_of(
    alloc: Global,
    period: u32,
    events: u32,
    rows: Vec<NetRow>,
) -> Result<Network, Memory>
    requires { KeepsNetLimits
        (record { period = period; events = events; rows = rows.items; forest = [] }) }
    ensures period { IfOk result (λ n. n.period ≡ period) }
    ensures events { IfOk result (λ n. n.events ≡ events) }
    ensures rows { IfOk result (λ n. n.rows ≡ rows.items) }
{
    match Network::new(alloc, period, events, rows) {
        Ok(network) => Ok(network),
        Err(NetRefusal::BadRow { row: _ }) => unreachable!(),
        Err(_) => Err(Memory),
    }
}
