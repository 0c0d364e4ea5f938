//! The list of a line, read from the line as often as is asked.

ghost use Rattle.pesp_cert_items.specs.Lent.{pairs_left_in, rows_in};

use pesp_cert_items::{LinePairs, SignedRows};
use pesp_judges::Elements;
use pesp_problem::{Pair, SignedRow};

/// The pairs of a leaf's line that are still to come.
#[derive(Clone, Copy)]
pub struct PairsLeft<'a>(pub LinePairs<'a>);

impl<'a> Elements<Pair> for PairsLeft<'a> {
    ghost elements = { λ pairs. pairs_left_in pairs.0 };

    #[inline]
    fn take_next(&mut self) -> Option<Pair> {
        self.0.next()
    }
}

/// The signed rows of a cycle's line that are still to come.
#[derive(Clone, Copy)]
pub struct RowsLeft<'a>(pub SignedRows<'a>);

impl<'a> Elements<SignedRow> for RowsLeft<'a> {
    ghost elements = { λ rows. rows_in rows.0 };

    #[inline]
    fn take_next(&mut self) -> Option<SignedRow> {
        self.0.next()
    }
}
