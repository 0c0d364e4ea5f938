//! Passes over all edges that lift levels, until they settle or a closed way is found (Bellman 1958; Ford 1956).

ghost use Rattle.std.specs.Prelude.{◌≡◌, ◌≢◌, ℕ, ◌+◌, ◌*◌, ◌<◌, ◌≤◌, ◌^◌, length, sum, replicate, vec_len, IfOk, IfSome, IsSome, MatchBool, MatchOption};
ghost use Rattle.pesp_bound.specs.Settling.{edge_at, at, EdgesAreWithin, SettlesEdge, AreSettled, GainsForEver, IsLevelOutcome};
ghost use Rattle.pesp_bound.specs.Growing.{LevelsAreGrown};

use crate::edge::{Edge, Outcome};
use std::alloc::{AllocError, Global};

/// So many zeros.
fn zeros(alloc: Global, count: usize) -> Result<Vec<usize>, AllocError>
    ensures { IfOk result (λ v. v.items ≡ replicate count 0) }
{
    vec![in alloc; 0usize; count]
}

/// Lifts the start of one edge, where the edge demands it.
fn lift(edges: &[Edge], k: usize, level: &mut [usize], by: &mut [usize]) -> bool
    requires edge { k < length edges.now }
    requires start { (edge_at edges.now k).start < length level.old }
    requires finish { (edge_at edges.now k).finish < length level.old }
    requires events { length by.old ≡ length level.old }
    requires small { at level.old (edge_at edges.now k).finish + (edge_at edges.now k).gain < 2 ^ 64 }
    requires grown { LevelsAreGrown edges.now level.old by.old }
    ensures grown { LevelsAreGrown edges.now level.new by.new }
    ensures cases { MatchBool result (sum level.old < sum level.new)
        ((level.new ≡ level.old) × SettlesEdge edges.now (at level.old) k) }
    ensures others { (x : ℕ) → x ≢ (edge_at edges.now k).start → at level.new x ≡ at level.old x }
    ensures here { (most : ℕ) → at level.old (edge_at edges.now k).start ≤ most
        → at level.old (edge_at edges.now k).finish + (edge_at edges.now k).gain ≤ most
        → at level.new (edge_at edges.now k).start ≤ most }
    ensures events { length level.new ≡ length level.old }
    ensures events_by { length by.new ≡ length level.old }
{
    let edge = edges[k];
    let wanted = (level[edge.finish] + edge.gain).saturating_sub(edge.loss);
    if wanted <= level[edge.start] {
        return false;
    }
    level[edge.start] = wanted;
    by[edge.start] = k + 1;
    true
}

/// Goes over all edges, up to the first event that comes above the limit; the event that was lifted last.
fn pass(edges: &[Edge], level: &mut [usize], by: &mut [usize], limit: usize) -> Option<usize>
    requires within { (most : ℕ) × (limit + most < 2 ^ 64)
        × EdgesAreWithin (length level.old) most edges.now }
    requires events { length by.old ≡ length level.old }
    requires low { (x : ℕ) → at level.old x ≤ limit }
    requires grown { LevelsAreGrown edges.now level.old by.old }
    ensures grown { LevelsAreGrown edges.now level.new by.new }
    ensures cases { MatchOption result (AreSettled edges.now (at level.new))
        (λ e. (e < length level.old) × (sum level.old < sum level.new)
        × ((x : ℕ) → x ≢ e → at level.new x ≤ limit)) }
    ensures events { length level.new ≡ length level.old }
    ensures events_by { length by.new ≡ length level.old }
{
    let mut last = None;
    for k in 0..edges.len() {
        let start = edges[k].start;
        if lift(edges, k, level, by) {
            last = Some(start);
            if level[start] > limit {
                return last;
            }
        }
    }
    last
}

/// The way back from an event along the edges that lifted, from where it comes to an event again.
fn climb(
    alloc: Global,
    edges: &[Edge],
    level: &[usize],
    by: &[usize],
    event: usize,
) -> Result<Option<Vec<usize>>, AllocError>
    requires within { (most : ℕ) × EdgesAreWithin (length level.now) most edges.now }
    requires events { length by.now ≡ length level.now }
    requires grown { LevelsAreGrown edges.now level.now by.now }
    requires event { event < length level.now }
    ensures gains { IfOk result (λ o. IfSome o (λ w. GainsForEver edges.now w.items)) }
    ensures short { IfOk result (λ o. IfSome o (λ w. length w.items ≤ length level.now)) }
    ensures found { (most : ℕ) → EdgesAreWithin (length level.now) most edges.now
        → length level.now * most < at level.now event → IfOk result (λ o. IsSome o) }
{
    let mut place = zeros(alloc, level.len())?;
    let mut way = Vec::new(alloc);
    let mut current = event;
    while place[current] == 0 {
        let k = by[current];
        if k == 0 {
            return Ok(None);
        }
        way.push(k - 1)?;
        place[current] = way.len();
        current = edges[k - 1].finish;
    }
    let closed = way.split_off(place[current] - 1)?;
    Ok(Some(closed))
}

/// Passes until the levels settle, or until some event's way back closes.
fn settle_in(
    alloc: Global,
    edges: &[Edge],
    level: &mut [usize],
    by: &mut [usize],
    most: usize,
) -> Result<Option<Vec<usize>>, AllocError>
    requires within { EdgesAreWithin (length level.old) most edges.now }
    requires events { length by.old ≡ length level.old }
    requires small { length level.old * most + most < 2 ^ 63 }
    requires low { (x : ℕ) → at level.old x ≤ length level.old * most }
    requires grown { LevelsAreGrown edges.now level.old by.old }
    ensures cases { IfOk result (λ o. MatchOption o (AreSettled edges.now (at level.new))
        (λ w. GainsForEver edges.now w.items × (length w.items ≤ length level.old))) }
    ensures events { IfOk result (λ o. length level.new ≡ length level.old) }
{
    let limit = level.len() * most;
    while let Some(event) = pass(edges, level, by, limit) {
        let found = climb(alloc, edges, level, by, event)?;
        if found.is_some() {
            return Ok(found);
        }
    }
    Ok(None)
}

/// Levels that meet the demands of all edges, or a closed way of no more edges than there are events along which the demands
/// can't be met. The gains are at most `most`.
pub fn settle(
    alloc: Global,
    edges: &[Edge],
    events: usize,
    most: usize,
) -> Result<Outcome, AllocError>
    requires within { EdgesAreWithin events most edges.now }
    requires small { events * most + most < 2 ^ 63 }
    ensures { IfOk result (IsLevelOutcome edges.now events) }
{
    let mut level = zeros(alloc, events)?;
    let mut by = zeros(alloc, events)?;
    match settle_in(alloc, edges, &mut level, &mut by, most)? {
        None => Ok(Outcome::Levels(level)),
        Some(way) => Ok(Outcome::Gains(way)),
    }
}
