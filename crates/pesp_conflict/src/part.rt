//! The instance that has listed rows alone.

ghost use Rattle.std.specs.Prelude.{◌≡◌, ◌≤◌, All, IfOk, length};
ghost use Rattle.pesp_problem.specs.declared.limits.TheConstants.{MOST_ROWS};
ghost use Rattle.pesp_problem.specs.Walks.{Names};
ghost use Rattle.pesp_truth.specs.Conflicts as spec;

use pesp_problem::{Instance, Memory, Row};
use std::alloc::{AllocError, Global};

/// The row at no cost.
fn unweighted(row: &Row) -> Row
    ensures { result ≡ spec.unweighted row.now }
{
    Row { weight: 0, ..*row }
}

/// The listed rows, at no cost.
fn rows_of(alloc: Global, rows: &[Row], listed: &[u32]) -> Result<Vec<Row>, AllocError>
    requires { All (Names (length rows.now)) listed.now }
    ensures { IfOk result (λ picked. picked.items ≡ spec.unweighted_rows rows.now listed.now) }
{
    let mut picked = Vec::new(alloc);
    for row in listed {
        picked.push(unweighted(&rows[*row as usize - 1]))?;
    }
    Ok(picked)
}

/// The instance that has the listed rows alone, at no cost; its events stay.
pub fn part_of(alloc: Global, instance: &Instance, listed: &[u32]) -> Result<Instance, Memory>
    requires names { All (Names (length instance.now.rows)) listed.now }
    requires few { length listed.now ≤ MOST_ROWS }
    ensures { IfOk result (λ part. part ≡ spec.only_rows instance.now listed.now) }
{
    let rows = rows_of(alloc, instance.rows(), listed)?;
    let events = Vec::from_slice(alloc, instance.events())?;
    Ok(Instance::new(instance.period(), events, rows))
}
