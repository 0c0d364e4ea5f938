//! Signed rows with a mark, and walks along them.

ghost use Rattle.std.specs.Prelude.{◌≡◌};

use crate::SignedRow;
use std::marker::Model;

/// A signed row, and the end of its slack range from which its slack is measured: the low end where it is plain, the high
/// end where it is flipped.
#[derive(Clone, Copy, PartialEq, Eq)]
pub struct MarkedRow {
    pub signed: SignedRow,
    pub flipped: bool,
}

/// Marked rows in the order in which they are passed.
#[derive(Drop)]
pub struct MarkedWalk {
    rows: Vec<MarkedRow>,
}

impl Model for MarkedWalk {
    ghost use Rattle.std.specs.Prelude.{List};
    ghost use Rattle.pesp_problem.specs.declared.marked.MarkedRow.{MarkedRow};

    ghost Value = { List MarkedRow };

    ghost view = { λ w. w.rows.items };
}

impl MarkedWalk {
    /// The walk along these rows.
    pub fn new(rows: Vec<MarkedRow>) -> MarkedWalk
        ensures { result ≡ rows.items }
    {
        MarkedWalk { rows }
    }

    /// Its rows in order.
    pub fn rows(&self) -> &[MarkedRow]
        ensures { result.now ≡ self.now }
    {
        &self.rows
    }
}
