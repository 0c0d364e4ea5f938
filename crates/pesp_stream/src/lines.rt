//! The lines of a text, one after another.

ghost use Rattle.std.specs.Prelude.{◌≡◌, ◌∷◌, [], MatchOption};
ghost use Rattle.pesp_stream.specs.Words.{lines_of_text};

use crate::split::split_at_byte;
use std::marker::Model;

/// The lines of a text that are still to come, each without its LF. A last line without LF counts as a line.
#[derive(Drop)]
pub struct Lines<'a> {
    rest: &'a [u8],
}

impl<'a> Model for Lines<'a> {
    ghost use Rattle.std.specs.Prelude.{List, ℕ};
    ghost use Rattle.pesp_stream.specs.Words.{lines_of_text};

    ghost Value = { List (List ℕ) };

    ghost view = { λ l. lines_of_text l.rest.now };
}

impl<'a> Lines<'a> {
    /// The lines of this text.
    pub fn new(text: &'a [u8]) -> Self
        ensures { result ≡ lines_of_text text.now }
    {
        Lines { rest: text }
    }
}

impl<'a> Iterator for Lines<'a> {
    ghost use Rattle.std.specs.Iterator.{item_count, YieldsFirstRef};

    type Item = &'a [u8];

    ghost next_gives = { YieldsFirstRef (λ lines. lines) };

    ghost remaining = { item_count (λ lines. lines) };

    fn next(&mut self) -> Option<&'a [u8]> {
        let (line, rest) = split_line(self.rest)?;
        self.rest = rest;
        Some(line)
    }
}

/// The first line of a text, without its LF, and what stands behind it; None for an empty text.
fn split_line(text: &[u8]) -> Option<(&[u8], &[u8])>
    ensures { MatchOption result (lines_of_text text.now ≡ [])
        (λ r. lines_of_text text.now ≡ r.0.now ∷ lines_of_text r.1.now) }
{
    if text.is_empty() {
        return None;
    }
    let (line, rest) = split_at_byte(b'\n', text);
    Some((line, rest.unwrap_or(&[])))
}
