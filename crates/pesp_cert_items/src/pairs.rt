//! The pairs of a leaf's line, read from the line.

ghost use Rattle.std.specs.Prelude.{◌≡◌, true};
ghost use Rattle.std.specs.Option.{option_copied};
ghost use Rattle.pesp_stream.specs.Words.{pieces_left};
ghost use Rattle.pesp_cert_lines.specs.Pairs.{pairs_from, pairs_are_good};

use pesp_cert_lines::first_pair;
use pesp_problem::Pair;

/// The pairs of a leaf that are left in its line. They are read from the line itself, and nothing of it is copied.
#[derive(Clone, Copy)]
pub struct LinePairs<'a> {
    words: Option<&'a [u8]>,
    least: u64,
    ghost good: { pairs_are_good (pairs_from least (pieces_left 32 (option_copied words))) ≡ true },
}

impl<'a> LinePairs<'a> {
    ghost use Rattle.pesp_cert_items.specs.Lent.{pairs_left_in};

    /// The pairs that these words spell.
    pub(crate) fn new(words: Option<&'a [u8]>) -> LinePairs<'a>
        requires { pairs_are_good (pairs_from 0 (pieces_left 32 (option_copied words))) ≡ true }
        ensures words { result.words ≡ words.entry }
        ensures least { result.least ≡ 0 }
    {
        LinePairs { words, least: 0 }
    }

    /// The same pairs again.
    pub fn again(&self) -> LinePairs<'a>
        ensures { pairs_left_in result ≡ pairs_left_in self.now }
    {
        LinePairs {
            words: self.words,
            least: self.least,
        }
    }
}

impl<'a> Iterator for LinePairs<'a> {
    ghost use Rattle.std.specs.Iterator.{item_count, YieldsFirst};
    ghost use Rattle.pesp_cert_items.specs.Lent.{pairs_left_in};

    type Item = Pair;

    ghost next_gives = { YieldsFirst pairs_left_in };

    ghost remaining = { item_count pairs_left_in };

    #[inline]
    #[tactic(auto, using(crate::proofs::Lists::no_pairs))]
    fn next(&mut self) -> Option<Pair> {
        let words = self.words?;
        let (pair, rest) = first_pair(words, self.least);
        self.words = rest;
        self.least = u64::from(pair.cycle) + 1;
        Some(pair)
    }
}
