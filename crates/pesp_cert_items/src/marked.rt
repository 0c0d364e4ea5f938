//! The marked rows of a walk's line, read from the line.

ghost use Rattle.std.specs.Prelude.{◌≡◌, true};
ghost use Rattle.std.specs.Option.{option_copied};
ghost use Rattle.pesp_stream.specs.Words.{pieces_left};
ghost use Rattle.pesp_cert_lines.specs.Marked.{marked_of, marked_are_good};

use pesp_cert_lines::first_marked;
use pesp_problem::MarkedRow;

/// The marked rows of a walk that are left in its line. They are read from the line itself, and nothing of it is copied.
#[derive(Clone, Copy)]
pub struct MarkedRows<'a> {
    words: Option<&'a [u8]>,
    ghost good: { marked_are_good (marked_of (pieces_left 32 (option_copied words))) ≡ true },
}

impl<'a> MarkedRows<'a> {
    /// The marked rows that these words spell.
    pub(crate) fn new(words: Option<&'a [u8]>) -> MarkedRows<'a>
        requires { marked_are_good (marked_of (pieces_left 32 (option_copied words))) ≡ true }
        ensures { result.words ≡ words.entry }
    {
        MarkedRows { words }
    }
}

impl<'a> Iterator for MarkedRows<'a> {
    ghost use Rattle.std.specs.Iterator.{item_count, YieldsFirst};
    ghost use Rattle.pesp_cert_items.specs.Lent.{marked_in};

    type Item = MarkedRow;

    ghost next_gives = { YieldsFirst marked_in };

    ghost remaining = { item_count marked_in };

    #[inline]
    #[tactic(auto, using(crate::proofs::Lists::no_marked))]
    fn next(&mut self) -> Option<MarkedRow> {
        let words = self.words?;
        let (row, rest) = first_marked(words);
        self.words = rest;
        Some(row)
    }
}
