//! Walks along rows.

ghost use Rattle.std.specs.Prelude.{◌≡◌};

use crate::row::SignedRow;
use std::marker::Model;

/// Signed rows in the order in which they are passed.
#[derive(Drop)]
pub struct Walk {
    rows: Vec<SignedRow>,
}

impl Model for Walk {
    ghost use Rattle.std.specs.Prelude.{List};
    ghost use Rattle.pesp_problem.specs.declared.row.SignedRow.{SignedRow};

    ghost Value = { List SignedRow };

    ghost view = { λ w. w.rows.items };
}

impl Walk {
    /// The walk along these rows.
    pub fn new(rows: Vec<SignedRow>) -> Walk
        ensures { result ≡ rows.items }
    {
        Walk { rows }
    }

    /// Its rows in order.
    pub fn rows(&self) -> &[SignedRow]
        ensures { result.now ≡ self.now }
    {
        &self.rows
    }
}
