//! Lists of row numbers, and what of them is judged.

ghost use Rattle.std.specs.Prelude.{◌≡◌, ◌↔◌, ◌≢◌, ℕ, All, Contains, IsTrue, IfOk, length};
ghost use Rattle.std.specs.List.Sorted.{IsStrictlyIncreasing};
ghost use Rattle.pesp_problem.specs.Walks.{Names};
ghost use Rattle.pesp_truth.specs.Conflicts as spec;
ghost use Rattle.pesp_conflict.specs.Findings.{AreAll};
ghost use Rattle.pesp_conflict.specs.Insides.{rest_of};

use std::alloc::{AllocError, Global};

/// Whether the number is found in the list, which should rise.
pub fn is_listed(listed: &[u32], row: u32) -> bool
    ensures only { IsTrue result → Contains listed.now row }
    ensures found { IsStrictlyIncreasing listed.now → Contains listed.now row → IsTrue result }
{
    listed.binary_search(&row).is_ok()
}

/// Whether each number is below the next.
pub fn are_rising(rows: &[u32]) -> bool
    ensures { IsTrue result ↔ IsStrictlyIncreasing rows.now }
{
    for place in 1..rows.len() {
        if rows[place - 1] >= rows[place] {
            return false;
        }
    }
    true
}

/// Whether each number names one of so many rows.
pub fn are_named(rows: &[u32], count: usize) -> bool
    ensures { IsTrue result ↔ All (Names count) rows.now }
{
    rows.iter().all(|row| 1 <= *row && *row as usize <= count)
}

/// Whether each number of some is in the list.
pub fn are_among(listed: &[u32], some: &[u32]) -> bool
    ensures only { IsTrue result → All (Contains listed.now) some.now }
    ensures found { IsStrictlyIncreasing listed.now → All (Contains listed.now) some.now → IsTrue result }
{
    for row in some {
        if !is_listed(listed, *row) {
            return false;
        }
    }
    true
}

/// Whether the number is found among numbers in any order.
fn is_found(rows: &[u32], row: u32) -> bool
    ensures { IsTrue result ↔ Contains rows.now row }
{
    rows.contains(&row)
}

/// Whether each number of some is found among numbers in any order.
pub fn are_found(rows: &[u32], some: &[u32]) -> bool
    ensures { IsTrue result ↔ All (Contains rows.now) some.now }
{
    for row in some {
        if !is_found(rows, *row) {
            return false;
        }
    }
    true
}

/// Whether the rest has each listed number but one.
pub fn has_others(listed: &[u32], row: u32, rest: &[u32]) -> bool
    ensures { IsTrue result → All (λ other. other ≢ row → Contains rest.now other) listed.now }
{
    listed
        .iter()
        .all(|other| *other == row || is_listed(rest, *other))
}

/// Whether the numbers of so many rows are all in the list.
pub fn is_whole(listed: &[u32], count: u32) -> bool
    ensures only { IsTrue result → (row : ℕ) → Names count row → Contains listed.now row }
    ensures found { IsStrictlyIncreasing listed.now → ((row : ℕ) → Names count row → Contains listed.now row)
        → IsTrue result }
{
    for place in 0..count {
        if !is_listed(listed, place + 1) {
            return false;
        }
    }
    true
}

/// The numbers of so many rows.
pub fn all_rows(alloc: Global, count: u32) -> Result<Vec<u32>, AllocError>
    ensures { IfOk result (λ rows. AreAll count rows.items) }
{
    let mut rows = Vec::new(alloc);
    for place in 0..count {
        rows.push(place + 1)?;
    }
    Ok(rows)
}

/// The listed numbers at these places, from 1.
pub fn chosen(alloc: Global, listed: &[u32], places: &[u32]) -> Result<Vec<u32>, AllocError>
    requires { All (Names (length listed.now)) places.now }
    ensures { IfOk result (λ rows. rows.items ≡ spec.chosen listed.now places.now) }
{
    let mut rows = Vec::new(alloc);
    for place in places {
        rows.push(listed[*place as usize - 1])?;
    }
    Ok(rows)
}

/// The listed numbers that aren't among some others.
pub fn without(alloc: Global, listed: &[u32], others: &[u32]) -> Result<Vec<u32>, AllocError>
    ensures { IfOk result (λ rest. rest.items ≡ rest_of listed.now others.now) }
{
    let mut rest = Vec::new(alloc);
    for row in listed {
        if !others.contains(row) {
            rest.push(*row)?;
        }
    }
    Ok(rest)
}
