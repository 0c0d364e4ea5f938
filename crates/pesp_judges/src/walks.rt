//! Whether the cycles are walks of the instance.

ghost use Rattle.std.specs.Prelude.{◌≡◌, ◌↔◌, ℕ, ◌≤◌, ◌<◌, ◌^◌, IsTrue, [], All, length, sum_by, IfOk, OnOk, MatchResult};
ghost use Rattle.pesp_problem.specs.declared.limits.TheConstants.{MOST_CYCLES, MOST_SIGNED_ROWS};
ghost use Rattle.pesp_problem.specs.Arcs.{arcs_of};
ghost use Rattle.pesp_problem.specs.Walks.{RowExists, IsWalk};
ghost use Rattle.pesp_problem.specs.Walks as spec;
ghost use Rattle.pesp_problem.specs.Nets.{AreZeros, AreNets};
ghost use Rattle.pesp_leaves.specs.Nets.{AreCounts, ArePlaces};
ghost use Rattle.pesp_judges.specs.Faults.{IsCycleFault};
ghost use Rattle.pesp_judges.specs.Ways.{IsWay, IsWayOf, IsCycleVerdict};

use crate::refusal::Refusal;
use pesp_leaves::{Elements, arc_at, count_row, take_nets};
use pesp_problem::{Instance, Nets, SignedRow, Walk};
use std::alloc::{AllocError, Global};

/// Whether the row exists.
#[inline]
fn row_exists(instance: &Instance, s: &SignedRow) -> bool
    ensures { IsTrue result ↔ RowExists (arcs_of instance.now) s.now }
{
    1 <= s.row && s.row as usize <= instance.rows().len()
}

/// The events at which a signed row begins and ends.
#[inline]
fn ends(instance: &Instance, s: &SignedRow) -> (u32, u32)
    requires { RowExists (arcs_of instance.now) s.now }
    ensures start { result.0 ≡ spec.start (arcs_of instance.now) s.now }
    ensures finish { result.1 ≡ spec.finish (arcs_of instance.now) s.now }
{
    let arc = arc_at(instance, s.row as usize - 1);
    if s.plus {
        (arc.tail, arc.head)
    } else {
        (arc.head, arc.tail)
    }
}

/// What the rows of a cycle are: one of them doesn't exist, or their ends don't meet in order and close, or they do.
#[derive(Clone, Copy)]
pub enum Way {
    Missing,
    Open,
    Closed,
}

/// Follows the rows of a cycle from an event, and adds their signs to working numbers that are 0, and their places to none.
fn follow<R: Elements<SignedRow>>(
    instance: &Instance,
    rows: R,
    begin: u32,
    places: &mut Vec<u32>,
    working: &mut [i128],
) -> Result<Way, AllocError>
    requires none { places.old.items ≡ [] }
    requires short { length (R.elements rows) ≤ MOST_SIGNED_ROWS }
    requires long { length working.old ≡ length instance.now.rows }
    requires zeros { AreZeros working.old }
    ensures way { IfOk result (λ way. IsWay (arcs_of instance.now) (R.elements rows) begin way) }
    ensures counts { IfOk result
        (λ way. way ≡ Way.Closed → AreCounts (R.elements rows) working.new) }
    ensures places { OnOk result (ArePlaces places.new.items working.new) }
{
    let mut left = rows;
    let mut at = begin;
    let mut joined = true;
    while let Some(s) = left.take_next() {
        if !row_exists(instance, &s) {
            return Ok(Way::Missing);
        }
        let (start, finish) = ends(instance, &s);
        joined &= start == at;
        at = finish;
        count_row(places, working, &s)?;
    }
    if joined && at == begin {
        Ok(Way::Closed)
    } else {
        Ok(Way::Open)
    }
}

/// What the rows of a cycle are. Where they are a closed walk, the working numbers, one a row and 0 before, become its
/// net counts, and there are places of all that are not 0.
fn way_of<R: Elements<SignedRow>>(
    instance: &Instance,
    rows: R,
    places: &mut Vec<u32>,
    working: &mut [i128],
) -> Result<Way, AllocError>
    requires none { places.old.items ≡ [] }
    requires short { length (R.elements rows) ≤ MOST_SIGNED_ROWS }
    requires long { length working.old ≡ length instance.now.rows }
    requires zeros { AreZeros working.old }
    ensures way { IfOk result (λ way. IsWayOf (arcs_of instance.now) (R.elements rows) way) }
    ensures counts { IfOk result
        (λ way. way ≡ Way.Closed → AreCounts (R.elements rows) working.new) }
    ensures places { IfOk result
        (λ way. way ≡ Way.Closed → ArePlaces places.new.items working.new) }
{
    let mut ahead = rows;
    let Some(first) = ahead.take_next() else {
        return Ok(Way::Open);
    };
    if !row_exists(instance, &first) {
        return Ok(Way::Missing);
    }
    let (begin, _) = ends(instance, &first);
    follow(instance, rows, begin, places, working)
}

/// The net counts of a cycle that has this number and stands in this line, or what is wrong with it. The working numbers,
/// one a row, are 0 before and after; the places of the rows that are passed are listed anew.
pub fn judge_cycle<R: Elements<SignedRow>>(
    alloc: Global,
    instance: &Instance,
    rows: R,
    number: u32,
    line: u64,
    places: &mut Vec<u32>,
    working: &mut [i128],
) -> Result<Result<Nets, Refusal>, AllocError>
    requires short { length (R.elements rows) ≤ MOST_SIGNED_ROWS }
    requires long { length working.old ≡ length instance.now.rows }
    requires zeros { AreZeros working.old }
    ensures verdict { IfOk result
        (λ found. IsCycleVerdict instance.now (R.elements rows) number line found) }
    ensures zeros { OnOk result (AreZeros working.new) }
{
    places.clear();
    match way_of(instance, rows, places, working)? {
        Way::Missing => {
            working.fill(0);
            Ok(Err(Refusal::NoSuch { line }))
        }
        Way::Open => {
            working.fill(0);
            Ok(Err(Refusal::OpenWalk { cycle: number }))
        }
        Way::Closed => {
            let nets = take_nets(alloc, places, working)?;
            Ok(Ok(nets))
        }
    }
}

/// The net counts of all cycles, or the first cycle that is no walk, and why; cycle 1 stands in the line after `line`. The
/// working numbers, one a row, are 0 before and after.
pub fn judge_cycles(
    alloc: Global,
    instance: &Instance,
    cycles: &[Walk],
    line: u64,
    working: &mut [i128],
) -> Result<Result<Vec<Nets>, Refusal>, AllocError>
    requires few { length cycles.now ≤ MOST_CYCLES }
    requires rows { sum_by (λ walk. length walk) cycles.now ≤ MOST_SIGNED_ROWS }
    requires line { line < 2 ^ 63 }
    requires long { length working.old ≡ length instance.now.rows }
    requires zeros { AreZeros working.old }
    ensures verdict { IfOk result (λ found. MatchResult found
        (λ table. All (IsWalk (arcs_of instance.now)) cycles.now
        × AreNets (length instance.now.rows) cycles.now table.items)
        (λ refusal. IsCycleFault (arcs_of instance.now) cycles.now line refusal)) }
    ensures zeros { OnOk result (AreZeros working.new) }
{
    let mut table = Vec::new(alloc);
    let mut places = Vec::new(alloc);
    for (place, cycle) in cycles.iter().enumerate() {
        let number = place as u32 + 1;
        let at = line + u64::from(number);
        match judge_cycle(
            alloc,
            instance,
            cycle.rows(),
            number,
            at,
            &mut places,
            working,
        )? {
            Ok(nets) => table.push(nets)?,
            Err(refusal) => return Ok(Err(refusal)),
        }
    }
    Ok(Ok(table))
}
