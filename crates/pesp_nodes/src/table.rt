//! Tables of walks: their limits, their passages by row, and their net counts by cycle.

ghost use Rattle.std.specs.Prelude.{◌≡◌, ℕ, ◌+◌, ◌<◌, ◌≤◌, ◌↔◌, List, [], length, replicate, All, IsTrue, IfOk};
ghost use Rattle.pesp_problem.specs.declared.limits.TheConstants.{MOST_ROWS};
ghost use Rattle.pesp_problem.specs.declared.row.SignedRow.{SignedRow};
ghost use Rattle.pesp_problem.specs.Walks.{Names};
ghost use Rattle.pesp_problem.specs.Nets.{AreNets};
ghost use Rattle.pesp_nodes.specs.Passages.{AreBefore, ArePassages};
ghost use Rattle.pesp_nodes.specs.Problems.{IsSmallTable};

use crate::nets::add_row;
use crate::passages::{Passages, add_walk};
use pesp_problem::{MOST_CYCLES, MOST_SIGNED_ROWS, Nets, Walk};
use std::alloc::{AllocError, Global};

/// Whether a table has at most 100000 cycles and at most 10000000 signed rows.
pub fn is_small(table: &[Walk]) -> bool
    ensures { IsTrue result ↔ IsSmallTable table.now }
{
    if table.len() > MOST_CYCLES {
        return false;
    }
    let mut rows: usize = 0;
    for walk in table {
        rows += walk.rows().len();
        if rows > MOST_SIGNED_ROWS {
            return false;
        }
    }
    true
}

/// No passages of any row.
fn no_passages(alloc: Global, rows: usize) -> Result<Vec<Passages>, AllocError>
    ensures { IfOk result (λ v. v.items ≡ replicate rows []) }
{
    let mut by_row = Vec::new(alloc);
    for _ in 0..rows {
        by_row.push(Passages::new(alloc))?;
    }
    Ok(by_row)
}

/// The passages of each of so many rows by the cycles of a table.
pub fn passages_of_table(
    alloc: Global,
    rows: usize,
    table: &[Walk],
) -> Result<Vec<Passages>, AllocError>
    requires exist { All (λ walk. All (λ s. Names rows s.row) walk) table.now }
    requires short { All (λ walk. length walk ≤ MOST_SIGNED_ROWS) table.now }
    requires few { length table.now ≤ MOST_CYCLES }
    ensures passages { IfOk result (λ v. ArePassages rows (length table.now) table.now v.items) }
    ensures before { IfOk result (λ v. All (AreBefore (length table.now + 1)) v.items) }
{
    let mut by_row = no_passages(alloc, rows)?;
    for place in 0..table.len() {
        add_walk(&mut by_row, place as u32 + 1, table[place].rows())?;
    }
    Ok(by_row)
}

/// No net counts of any cycle.
fn no_nets(alloc: Global, cycles: usize) -> Result<Vec<Nets>, AllocError>
    ensures { IfOk result (λ v. v.items ≡ replicate cycles []) }
{
    let mut nets = Vec::new(alloc);
    for _ in 0..cycles {
        nets.push(Nets::new(alloc))?;
    }
    Ok(nets)
}

/// The net counts of each of so many cycles, from the passages of the rows.
pub fn nets_of_passages(
    alloc: Global,
    cycles: usize,
    by_row: &[Passages],
) -> Result<Vec<Nets>, AllocError>
    requires before { All (AreBefore (cycles + 1)) by_row.now }
    requires few { length by_row.now ≤ MOST_ROWS }
    ensures { (walks : List (List SignedRow)) → length walks ≡ cycles
        → All (λ walk. length walk ≤ MOST_SIGNED_ROWS) walks → ArePassages (length by_row.now) cycles walks
        by_row.now → IfOk result (λ v. AreNets (length by_row.now) walks v.items) }
{
    let mut nets = no_nets(alloc, cycles)?;
    for place in 0..by_row.len() {
        add_row(&mut nets, place as u32, by_row[place].as_slice())?;
    }
    Ok(nets)
}
