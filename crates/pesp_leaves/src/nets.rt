//! Working numbers, and the net counts of a walk, each row once.

ghost use Rattle.std.specs.Prelude.{◌≡◌, ℕ, List, ◌-◌, ◌+ℤ◌, ◌<◌, ◌≤◌, pos, length, unsigned_abs, slice_index_or, slice_set, IfOk, OnOk};
ghost use Rattle.pesp_problem.specs.declared.limits.TheConstants.{MOST_SIGNED_ROWS};
ghost use Rattle.pesp_problem.specs.declared.row.SignedRow.{SignedRow};
ghost use Rattle.pesp_problem.specs.Walks.{Names, sign};
ghost use Rattle.pesp_problem.specs.Nets.{AreZeros, AreNetCounts};
ghost use Rattle.pesp_leaves.specs.Nets.{AreCounts, ArePlaces, IsEntered};

use pesp_problem::{NetCount, Nets, SignedRow};
use std::alloc::{AllocError, Global};

/// Working numbers, all 0.
pub fn zeros(alloc: Global, count: usize) -> Result<Vec<i128>, AllocError>
    ensures long { IfOk result (λ numbers. length numbers.items ≡ count) }
    ensures zeros { IfOk result (λ numbers. AreZeros numbers.items) }
{
    vec![in alloc; 0; count]
}

/// 1 under a plus sign, -1 under a minus sign.
#[inline]
fn sign_of(s: &SignedRow) -> i128
    ensures { result ≡ sign s.now }
{
    if s.plus { 1 } else { -1 }
}

/// Adds a place to those of the rows that are passed, where the row's working number is 0.
#[inline]
fn enter(places: &mut Vec<u32>, place: u32, number: i128) -> Result<(), AllocError>
    ensures { OnOk result (IsEntered places.old.items places.new.items place number) }
{
    if number != 0 {
        return Ok(());
    }
    places.push(place)?;
    Ok(())
}

/// Adds the sign of a row to its working number, and its place to those of the rows that are passed.
#[inline]
pub fn count_row(
    places: &mut Vec<u32>,
    working: &mut [i128],
    s: &SignedRow,
) -> Result<(), AllocError>
    requires exists { Names (length working.old) s.now.row }
    requires small { unsigned_abs (slice_index_or working.old (s.now.row - 1) (pos 0)) ≤ MOST_SIGNED_ROWS }
    ensures counts { OnOk result (working.new
        ≡ slice_set working.old (s.now.row - 1)
        (slice_index_or working.old (s.now.row - 1) (pos 0) +ℤ sign s.now)) }
    ensures places { OnOk result (IsEntered places.old.items places.new.items (s.now.row - 1)
        (slice_index_or working.old (s.now.row - 1) (pos 0))) }
{
    let place = s.row - 1;
    let number = working[place as usize];
    enter(places, place, number)?;
    let count = number + sign_of(s);
    working[place as usize] = count;
    Ok(())
}

/// A working number, which is 0 afterwards.
#[inline]
pub fn take(working: &mut [i128], at: usize) -> i128
    requires { at < length working.old }
    ensures value { result ≡ slice_index_or working.old at (pos 0) }
    ensures zero { working.new ≡ slice_set working.old at (pos 0) }
{
    let number = working[at];
    working[at] = 0;
    number
}

/// Takes the net counts that are not 0, each row's once, from working numbers that hold them. They are 0 afterwards.
fn take_counts(
    alloc: Global,
    places: &[u32],
    working: &mut [i128],
) -> Result<Vec<NetCount>, AllocError>
    requires entered { ArePlaces places.now working.old }
    requires small { (i : ℕ) → i < length working.old
        → unsigned_abs (slice_index_or working.old i (pos 0)) ≤ MOST_SIGNED_ROWS }
    ensures counts { IfOk result (λ v. (walk : List SignedRow) → length walk ≤ MOST_SIGNED_ROWS
        → AreCounts walk working.old → AreNetCounts (length working.old) walk v.items) }
    ensures zeros { OnOk result (AreZeros working.new) }
{
    let mut counts = Vec::new(alloc);
    counts.reserve(places.len().min(working.len()))?;
    for place in places {
        let place = *place;
        let count = take(working, place as usize);
        if count != 0 {
            counts.push(NetCount {
                place,
                count: count as i64,
            })?;
        }
    }
    Ok(counts)
}

/// Takes the net counts of a walk from working numbers, one a row, that hold them. They are 0 afterwards.
pub fn take_nets(alloc: Global, places: &[u32], working: &mut [i128]) -> Result<Nets, AllocError>
    requires entered { ArePlaces places.now working.old }
    requires small { (i : ℕ) → i < length working.old
        → unsigned_abs (slice_index_or working.old i (pos 0)) ≤ MOST_SIGNED_ROWS }
    ensures counts { IfOk result (λ nets. (walk : List SignedRow) → length walk ≤ MOST_SIGNED_ROWS
        → AreCounts walk working.old → AreNetCounts (length working.old) walk nets) }
    ensures zeros { OnOk result (AreZeros working.new) }
{
    let counts = take_counts(alloc, places, working)?;
    Ok(Nets::of(counts))
}
