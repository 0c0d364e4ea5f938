//! The words of a line, one after another.

ghost use Rattle.std.specs.Prelude.{◌≡◌};
ghost use Rattle.std.specs.Str.{bytes_eq};
ghost use Rattle.pesp_stream.specs.Words.{words_of, word_count};

use crate::split::split_at_byte;
use std::marker::Model;

/// The words of a line that are still to come. Single spaces stand between them, so a doubled space, and one at either
/// end of the line, gives an empty word; an empty line is one empty word.
#[derive(Drop)]
pub struct Words<'a> {
    rest: Option<&'a [u8]>,
}

impl<'a> Model for Words<'a> {
    ghost use Rattle.std.specs.Prelude.{List, ℕ};
    ghost use Rattle.std.specs.Option.{option_copied};
    ghost use Rattle.pesp_stream.specs.Words.{pieces_left};

    ghost Value = { List (List ℕ) };

    ghost view = { λ w. pieces_left 32 (option_copied w.rest) };
}

impl<'a> Words<'a> {
    /// The words of this line.
    pub fn new(line: &'a [u8]) -> Self
        ensures { result ≡ words_of line.now }
    {
        Words { rest: Some(line) }
    }

    /// The same words again.
    pub fn again(&self) -> Words<'a>
        ensures { result ≡ self.now }
    {
        Words { rest: self.rest }
    }
}

impl<'a> Iterator for Words<'a> {
    ghost use Rattle.std.specs.Iterator.{item_count, YieldsFirstRef};

    type Item = &'a [u8];

    ghost next_gives = { YieldsFirstRef (λ words. words) };

    ghost remaining = { item_count (λ words. words) };

    fn next(&mut self) -> Option<&'a [u8]> {
        let line = self.rest?;
        let (word, rest) = split_at_byte(b' ', line);
        self.rest = rest;
        Some(word)
    }
}

/// How many words a line has; None where one of them is empty.
pub fn count_words(line: &[u8]) -> Option<usize>
    ensures { result ≡ word_count (words_of line.now) }
{
    let mut number = 0usize;
    for word in Words::new(line) {
        if word.is_empty() {
            return None;
        }
        number += 1;
    }
    Some(number)
}

/// Whether a word is this one.
pub fn is_word(word: &[u8], name: &str) -> bool
    ensures { result ≡ bytes_eq word.now name.now }
{
    word == name.as_bytes()
}
