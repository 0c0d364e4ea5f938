//! Which rows a spanning forest is to be made of. Nothing depends on the choice but the strength of bounds and the length
//! of walks, so it is safe and otherwise unproved.

ghost use Rattle.std.specs.Prelude.{◌≡◌, ◌<◌, ◌≤◌, length, IfOk, IsTrue, All, vec_len};
ghost use Rattle.pesp_problem.specs.Walks.{Names};

use crate::row::NetRow;
use pesp_problem::MOST_ROWS;
use std::alloc::{AllocError, Global};
use std::cmp::Ordering;

/// A row by its place, and what decides how early it is taken.
#[derive(Clone, Copy)]
struct ForestRow {
    place: usize,
    span: u32,
    weight: u64,
}

impl ForestRow {
    /// By rising span / (weight + 1), compared as products, and then by rising place.
    fn order(&self, other: &ForestRow) -> Ordering {
        let here = u128::from(self.span) * (u128::from(other.weight) + 1);
        let there = u128::from(other.span) * (u128::from(self.weight) + 1);
        here.cmp(&there).then(self.place.cmp(&other.place))
    }
}

/// Events in groups: each leads to another event of its group, and the group's last one to itself.
#[derive(Drop)]
struct Groups {
    next: Vec<usize>,
}

impl Groups {
    /// Each event is its own group.
    fn apart(alloc: Global, events: usize) -> Result<Groups, AllocError> {
        let next = (0..events).collect(alloc)?;
        Ok(Groups { next })
    }

    /// The last event of an event's group; the way there is halved.
    fn last_of(&mut self, event: usize) -> usize {
        let mut at = event;
        for _ in 0..self.next.len() {
            let after = self.next.get(at).copied().unwrap_or(at);
            if after == at {
                return at;
            }
            let beyond = self.next.get(after).copied().unwrap_or(after);
            if let Some(slot) = self.next.get_mut(at) {
                *slot = beyond;
            }
            at = beyond;
        }
        at
    }

    /// Makes one group of two; false where they are one already.
    fn join(&mut self, one: usize, other: usize) -> bool {
        let here = self.last_of(one);
        let there = self.last_of(other);
        if here == there {
            return false;
        }
        if let Some(slot) = self.next.get_mut(here) {
            *slot = there;
        }
        true
    }
}

/// The rows in the order in which they are taken.
fn candidates_of(alloc: Global, rows: &[NetRow]) -> Result<Vec<ForestRow>, AllocError>
    ensures { IfOk result (λ candidates. vec_len candidates ≡ length rows.now) }
{
    let mut candidates = Vec::with_capacity(alloc, rows.len())?;
    for (place, row) in rows.iter().enumerate() {
        candidates.push(ForestRow {
            place,
            span: row.span,
            weight: row.weight,
        })?;
    }
    candidates.sort_unstable_by(|one, other| one.order(other));
    Ok(candidates)
}

/// Whether the row at a place joins two groups; they are one then.
fn joins(rows: &[NetRow], groups: &mut Groups, place: usize) -> bool
    ensures { IsTrue result → place < length rows.now }
{
    let Some(row) = rows.get(place) else {
        return false;
    };
    groups.join(row.tail as usize, row.head as usize)
}

/// The numbers of the rows that join groups as they are taken in this order.
fn taken(
    alloc: Global,
    rows: &[NetRow],
    candidates: &[ForestRow],
    groups: &mut Groups,
) -> Result<Vec<u32>, AllocError>
    requires few { length rows.now ≤ MOST_ROWS }
    requires each_once { length candidates.now ≡ length rows.now }
    ensures names { IfOk result (λ numbers. All (Names (length rows.now)) numbers.items) }
    ensures few { IfOk result (λ numbers. vec_len numbers ≤ length rows.now) }
{
    let mut numbers = Vec::new(alloc);
    for candidate in candidates {
        if joins(rows, groups, candidate.place) {
            numbers.push(candidate.place as u32 + 1)?;
        }
    }
    Ok(numbers)
}

/// The rows of a spanning forest, by their numbers from 1: each row in turn, of least span / (weight + 1) first, that
/// closes no cycle with those taken before it (Kruskal 1956).
pub fn propose(alloc: Global, events: usize, rows: &[NetRow]) -> Result<Vec<u32>, AllocError>
    requires { length rows.now ≤ MOST_ROWS }
    ensures names { IfOk result (λ numbers. All (Names (length rows.now)) numbers.items) }
    ensures few { IfOk result (λ numbers. vec_len numbers ≤ length rows.now) }
{
    let candidates = candidates_of(alloc, rows)?;
    let mut groups = Groups::apart(alloc, events)?;
    taken(alloc, rows, candidates.as_slice(), &mut groups)
}

/// Whether these are numbers of rows, no more than a network can have.
fn are_numbers(count: usize, numbers: &[u32]) -> bool
    ensures names { IsTrue result → All (Names count) numbers.now }
    ensures few { IsTrue result → length numbers.now ≤ MOST_ROWS }
{
    if numbers.len() > MOST_ROWS {
        return false;
    }
    numbers
        .iter()
        .all(|number| 1 <= *number && *number as usize <= count)
}

/// These numbers, or none where they aren't numbers of so many rows, or are more than a network can have rows.
pub fn numbers_or_none(count: usize, numbers: &[u32]) -> &[u32]
    ensures names { All (Names count) result.now }
    ensures few { length result.now ≤ MOST_ROWS }
{
    if are_numbers(count, numbers) {
        return numbers;
    }
    &[]
}
