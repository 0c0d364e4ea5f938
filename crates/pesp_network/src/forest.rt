//! Spanning forests of rows.

ghost use Rattle.std.specs.Prelude.{◌≡◌, ℕ, ◌+◌, ◌-◌, ◌<◌, ◌≤◌, length, map, slice_index, slice_index_or, IfOk, IsTrue, All, vec_len};
ghost use Rattle.pesp_problem.specs.declared.limits.TheConstants.{MOST_ROWS};
ghost use Rattle.pesp_problem.specs.Walks.{Names};
ghost use Rattle.pesp_network.specs.Networks.{arcs_of_network, net_row_at};
ghost use Rattle.pesp_problem.specs.ArcLimits.{HaveEnds};
ghost use Rattle.pesp_network.specs.Rooted.{IsGrown, IsForest, IsMetBy, row_number_of};

use crate::growth::grow;
use crate::parts::{Forest, Growth};
use crate::proposal::propose;
use crate::row::NetRow;
use std::alloc::{AllocError, Global};

/// The rows of these numbers.
fn pick(alloc: Global, rows: &[NetRow], numbers: &[u32]) -> Result<Vec<NetRow>, AllocError>
    requires { All (Names (length rows.now)) numbers.now }
    ensures { IfOk result
        (λ kept. kept.items ≡ map (λ k. net_row_at rows.now (k - 1)) numbers.now) }
{
    numbers
        .iter()
        .map(|number| rows[*number as usize - 1])
        .collect(alloc)
}

/// The number of the k-th of these rows, and 0 for 0.
fn numbered(numbers: &[u32], k: usize) -> usize
    requires { k ≤ length numbers.now }
    ensures { result ≡ row_number_of numbers.now k }
{
    if k == 0 {
        return 0;
    }
    numbers[k - 1] as usize
}

/// The same for each.
fn renumber(alloc: Global, by: &[usize], numbers: &[u32]) -> Result<Vec<usize>, AllocError>
    requires { All (λ k. k ≤ length numbers.now) by.now }
    ensures { IfOk result (λ named. named.items ≡ map (row_number_of numbers.now) by.now) }
{
    by.iter().map(|k| numbered(numbers, *k)).collect(alloc)
}

/// Trees of the rows of these numbers.
fn grow_over(
    alloc: Global,
    events: usize,
    rows: &[NetRow],
    numbers: &[u32],
) -> Result<Forest, AllocError>
    requires ends { HaveEnds events (arcs_of_network rows.now) }
    requires rows { length rows.now ≤ MOST_ROWS }
    requires few { length numbers.now ≤ MOST_ROWS }
    requires names { All (Names (length rows.now)) numbers.now }
    ensures grown { IfOk result (IsGrown events (arcs_of_network rows.now)) }
    ensures met { IfOk result (λ f. (i : ℕ) → i < length numbers.now
        → IsMetBy (arcs_of_network rows.now) f (slice_index numbers.now i)) }
{
    let kept = pick(alloc, rows, numbers)?;
    let growth = grow(alloc, events, kept.as_slice())?;
    let by = renumber(alloc, growth.by.as_slice(), numbers)?;
    let Growth {
        up,
        place,
        last,
        root,
        order,
        ..
    } = growth;
    Ok(Forest {
        up,
        by,
        place,
        last,
        root,
        order,
    })
}

/// Whether both ends of each row are in one tree.
fn meets_all(rows: &[NetRow], forest: &Forest) -> bool
    requires { IsGrown (vec_len forest.now.up) (arcs_of_network rows.now) forest.now }
    ensures { IsTrue result → (k : ℕ) → Names (length (arcs_of_network rows.now)) k
        → IsMetBy (arcs_of_network rows.now) forest.now k }
{
    for row in rows {
        if forest.root[row.tail as usize] != forest.root[row.head as usize] {
            return false;
        }
    }
    true
}

/// The numbers of so many rows.
fn all_numbers(alloc: Global, count: usize) -> Result<Vec<u32>, AllocError>
    requires { count ≤ MOST_ROWS }
    ensures len { IfOk result (λ numbers. vec_len numbers ≡ count) }
    ensures each { IfOk result
        (λ numbers. (i : ℕ) → i < count → slice_index numbers.items i ≡ i + 1) }
{
    let mut numbers = Vec::with_capacity(alloc, count)?;
    for i in 0..count {
        numbers.push(i as u32 + 1)?;
    }
    Ok(numbers)
}

/// A spanning forest of the rows between so many events: of the rows that are proposed, or of all where these don't join
/// what all join.
pub fn forest_from(
    alloc: Global,
    events: usize,
    rows: &[NetRow],
    proposed: &[u32],
) -> Result<Forest, AllocError>
    requires ends { HaveEnds events (arcs_of_network rows.now) }
    requires few { length rows.now ≤ MOST_ROWS }
    requires few_proposed { length proposed.now ≤ MOST_ROWS }
    requires names { All (Names (length rows.now)) proposed.now }
    ensures { IfOk result (IsForest events (arcs_of_network rows.now)) }
{
    let forest = grow_over(alloc, events, rows, proposed)?;
    if meets_all(rows, &forest) {
        return Ok(forest);
    }
    let all = all_numbers(alloc, rows.len())?;
    let whole = grow_over(alloc, events, rows, all.as_slice())?;
    Ok(whole)
}

/// A spanning forest of the rows between so many events, of the rows that are proposed for any network.
pub fn forest_of(alloc: Global, events: usize, rows: &[NetRow]) -> Result<Forest, AllocError>
    requires ends { HaveEnds events (arcs_of_network rows.now) }
    requires few { length rows.now ≤ MOST_ROWS }
    ensures { IfOk result (IsForest events (arcs_of_network rows.now)) }
{
    let proposed = propose(alloc, events, rows)?;
    forest_from(alloc, events, rows, proposed.as_slice())
}
