//! What is told of a listed activity.

ghost use Rattle.std.specs.Prelude.{◌≡◌, ◌<◌, All, length, IfOk};
ghost use Rattle.pesp_problem.specs.Walks.{Names};
ghost use Rattle.pesp_conflict.specs.Lists as spec;

use pesp_problem::Instance;
use std::alloc::{AllocError, Global};

/// What is told of an activity: its number from 1 on and its label, the labels of its events, and its bounds in the instance's
/// own unit.
#[derive(Clone, Copy)]
pub struct Listed {
    pub row: u32,
    pub label: i64,
    pub tail: i64,
    pub head: i64,
    pub lower: i64,
    pub upper: i64,
}

/// What is told of the row of a number.
fn listed_at(instance: &Instance, number: u32) -> Listed
    requires { Names (length instance.now.rows) number }
    ensures { result ≡ spec.listed_of instance.now number }
{
    let events = instance.events();
    let row = &instance.rows()[number as usize - 1];
    Listed {
        row: number,
        label: row.label,
        tail: events[row.tail as usize],
        head: events[row.head as usize],
        lower: row.lower,
        upper: row.upper,
    }
}

/// What is told of these rows.
pub fn lines_of(alloc: Global, instance: &Instance, rows: &[u32]) -> Result<Vec<Listed>, AllocError>
    requires { All (Names (length instance.now.rows)) rows.now }
    ensures { IfOk result (λ lines. lines.items ≡ spec.listed_lines instance.now rows.now) }
{
    let mut lines = Vec::new(alloc);
    for number in rows {
        lines.push(listed_at(instance, *number))?;
    }
    Ok(lines)
}
