//! What walks, nodes and leaf values see of a row.

ghost use Rattle.std.specs.Prelude.{◌≡◌, ◌<◌, ◌≤◌, ◌≤ℤ◌, pos, neg_ℤ};
ghost use Rattle.pesp_problem.specs.declared.limits.TheConstants.{MOST_BOUND};
ghost use Rattle.pesp_problem.specs.Arcs as spec;

use crate::row::Row;

/// A row without its label and its upper bound: its slack may be 0 to `span`.
#[derive(Clone, Copy, PartialEq, Eq)]
pub struct Arc {
    pub tail: u32,
    pub head: u32,
    pub lower: i64,
    pub span: u32,
    pub weight: u64,
}

/// The arc of a row: its span is the lesser of `upper - lower` and the greatest slack, `period - 1`.
pub fn arc_of(period: u32, row: &Row) -> Arc
    requires period { 0 < period }
    requires lower { neg_ℤ (pos MOST_BOUND) ≤ℤ row.now.lower }
    requires bounds { row.now.lower ≤ℤ row.now.upper }
    requires upper { row.now.upper ≤ℤ pos MOST_BOUND }
    ensures { result ≡ spec.arc_of period row.now }
{
    let width = (row.upper - row.lower) as u32;
    Arc {
        tail: row.tail,
        head: row.head,
        lower: row.lower,
        span: width.min(period - 1),
        weight: row.weight,
    }
}
