//! The system of differences of a node: along each row that cycles pass, levels of events may rise by the durations that
//! its slack range allows, less the periods by which the row is shifted.

ghost use Rattle.std.specs.Prelude.{◌≡◌, ℕ, ◌-◌, ◌<◌, ◌≤◌, ◌+ℤ◌, ◌*ℤ◌, length, pos, unsigned_abs, All, IfOk};
ghost use Rattle.pesp_problem.specs.declared.limits.TheConstants.{MOST_LOWER, MOST_PERIOD, MOST_ROWS};
ghost use Rattle.pesp_problem.specs.Walks.{Names, start, finish};
ghost use Rattle.pesp_problem.specs.Ranges.{AreSlackEnds};
ghost use Rattle.pesp_nodes.specs.Offsets.{AreArcs, IsSmallOffset};
ghost use Rattle.pesp_bound.specs.Differences as spec;
ghost use Rattle.pesp_bound.specs.Differences.{IsDemand, AreDemands, ArePassed};

use crate::edge::Edge;
use pesp_nodes::Passages;
use pesp_problem::{Arc, SignedRow};
use std::alloc::{AllocError, Global};

/// The greatest gain of an edge.
pub const MOST: usize = 10300001030000;

/// The rows that cycles pass, each under a plus sign and then under a minus sign.
pub fn passed_rows(alloc: Global, by_row: &[Passages]) -> Result<Vec<SignedRow>, AllocError>
    requires { length by_row.now ≤ MOST_ROWS }
    ensures { IfOk result (λ v. ArePassed by_row.now (length by_row.now) v.items) }
{
    let mut rows = Vec::new(alloc);
    for place in 0..by_row.len() {
        if by_row[place].as_slice().is_empty() {
            continue;
        }
        let row = place as u32 + 1;
        rows.push(SignedRow { row, plus: true })?;
        rows.push(SignedRow { row, plus: false })?;
    }
    Ok(rows)
}

/// The duration of a row at a slack.
fn duration(lower: i64, slack: u32) -> i64
    requires lower { unsigned_abs lower ≤ MOST_LOWER }
    requires slack { slack ≤ MOST_PERIOD }
    ensures value { result ≡ lower +ℤ pos slack }
    ensures size { unsigned_abs result ≤ 1030000 }
{
    lower + i64::from(slack)
}

/// The period times an offset.
fn periods(period: u32, offset: i64) -> i64
    requires { IsSmallOffset period offset }
    ensures value { result ≡ pos period *ℤ offset }
    ensures size { unsigned_abs result ≤ 10300000000000 }
{
    i64::from(period) * offset
}

/// The most by which levels may rise along a row.
fn rise_bound(period: u32, arc: &Arc, slacks: (u32, u32), shift: (i64, i64), plus: bool) -> i64
    requires lower { unsigned_abs arc.now.lower ≤ MOST_LOWER }
    requires low { slacks.0 ≤ MOST_PERIOD }
    requires high { slacks.1 ≤ MOST_PERIOD }
    requires from { IsSmallOffset period shift.0 }
    requires to { IsSmallOffset period shift.1 }
    ensures value { result ≡ spec.rise_bound period arc.now slacks shift plus }
    ensures size { unsigned_abs result ≤ 10300001030000 }
{
    if plus {
        duration(arc.lower, slacks.1) - periods(period, shift.0)
    } else {
        periods(period, shift.1) - duration(arc.lower, slacks.0)
    }
}

/// The edge between two events by which levels rise by at most the bound.
fn edge_between(start: u32, finish: u32, bound: i64) -> Edge
    requires { unsigned_abs bound ≤ 10300001030000 }
    ensures start { result.start ≡ start }
    ensures finish { result.finish ≡ finish }
    ensures bound { pos result.loss ≡ pos result.gain +ℤ bound }
    ensures small { result.gain ≤ 10300001030000 }
{
    let (gain, loss) = if bound < 0 {
        (bound.unsigned_abs() as usize, 0)
    } else {
        (0, bound as usize)
    };
    Edge {
        start: start as usize,
        finish: finish as usize,
        gain,
        loss,
    }
}

/// The edge along a signed row.
fn edge_along(
    period: u32,
    arcs: &[Arc],
    slacks: &[(u32, u32)],
    shifts: &[(i64, i64)],
    s: SignedRow,
) -> Edge
    requires arcs { AreArcs arcs.now }
    requires slacks { AreSlackEnds slacks.now }
    requires slacks_long { length slacks.now ≡ length arcs.now }
    requires shifts { All (λ s. IsSmallOffset period s.0 × IsSmallOffset period s.1) shifts.now }
    requires shifts_long { length shifts.now ≡ length arcs.now }
    requires exists { Names (length arcs.now) s.row }
    ensures { IsDemand (record { period = period; arcs = arcs.now }) slacks.now shifts.now s
        result }
{
    let place = s.row as usize - 1;
    let arc = &arcs[place];
    let bound = rise_bound(period, arc, slacks[place], shifts[place], s.plus);
    if s.plus {
        edge_between(arc.tail, arc.head, bound)
    } else {
        edge_between(arc.head, arc.tail, bound)
    }
}

/// An edge along each signed row.
pub fn edges_along(
    alloc: Global,
    period: u32,
    arcs: &[Arc],
    slacks: &[(u32, u32)],
    shifts: &[(i64, i64)],
    rows: &[SignedRow],
) -> Result<Vec<Edge>, AllocError>
    requires arcs { AreArcs arcs.now }
    requires slacks { AreSlackEnds slacks.now }
    requires slacks_long { length slacks.now ≡ length arcs.now }
    requires shifts { All (λ s. IsSmallOffset period s.0 × IsSmallOffset period s.1) shifts.now }
    requires shifts_long { length shifts.now ≡ length arcs.now }
    requires exist { All (λ s. Names (length arcs.now) s.row) rows.now }
    ensures { IfOk result (λ v. AreDemands (record { period = period; arcs = arcs.now }) slacks.now
        shifts.now rows.now v.items) }
{
    let mut edges = Vec::new(alloc);
    for k in 0..rows.len() {
        edges.push(edge_along(period, arcs, slacks, shifts, rows[k]))?;
    }
    Ok(edges)
}
