//! The signed rows of a cycle's line, read from the line.

ghost use Rattle.std.specs.Prelude.{◌≡◌, true};
ghost use Rattle.std.specs.Option.{option_copied};
ghost use Rattle.pesp_stream.specs.Words.{pieces_left};
ghost use Rattle.pesp_cert_lines.specs.Rows.{rows_of, rows_are_good};

use pesp_cert_lines::first_row;
use pesp_problem::SignedRow;

/// The signed rows of a cycle that are left in its line. They are read from the line itself, and nothing of it is copied.
#[derive(Clone, Copy)]
pub struct SignedRows<'a> {
    words: Option<&'a [u8]>,
    ghost good: { rows_are_good (rows_of (pieces_left 32 (option_copied words))) ≡ true },
}

impl<'a> SignedRows<'a> {
    ghost use Rattle.pesp_cert_items.specs.Lent.{rows_in};

    /// The rows that these words spell.
    pub(crate) fn new(words: Option<&'a [u8]>) -> SignedRows<'a>
        requires { rows_are_good (rows_of (pieces_left 32 (option_copied words))) ≡ true }
        ensures { result.words ≡ words.entry }
    {
        SignedRows { words }
    }

    /// The same rows again.
    pub fn again(&self) -> SignedRows<'a>
        ensures { rows_in result ≡ rows_in self.now }
    {
        SignedRows { words: self.words }
    }
}

impl<'a> Iterator for SignedRows<'a> {
    ghost use Rattle.std.specs.Iterator.{item_count, YieldsFirst};
    ghost use Rattle.pesp_cert_items.specs.Lent.{rows_in};

    type Item = SignedRow;

    ghost next_gives = { YieldsFirst rows_in };

    ghost remaining = { item_count rows_in };

    #[inline]
    #[tactic(auto, using(crate::proofs::Lists::no_rows))]
    fn next(&mut self) -> Option<SignedRow> {
        let words = self.words?;
        let (row, rest) = first_row(words);
        self.words = rest;
        Some(row)
    }
}
