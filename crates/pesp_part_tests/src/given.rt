//! What the lines of a case give.

use crate::pieces::{add_piece, is_piece};
use crate::words::{numbers, split_word, words_of};
use std::alloc::Global;

/// The first words of lines that give something.
const GIVEN: [&str; 21] = [
    "instance", "base", "names", "input", "file", "device", "clock", "board", "period", "events",
    "row", "rows", "cycle", "cut", "times", "slacks", "forest", "offsets", "prices", "edge",
    "flow",
];

fn is_among(words: &[&str], word: &str) -> bool {
    for one in words {
        if *one == word {
            return true;
        }
    }
    false
}

/// Tells the name of a case, or what is asked with a colon. Whether something is asked.
pub fn begin_line(line: &str, told: &mut String) -> Option<bool> {
    let (word, _) = split_word(line);
    if is_piece(line) || is_among(&GIVEN, word) {
        return Some(false);
    }
    let is_asked = word != "case";
    write!(told, "{line}{}", if is_asked { ":" } else { "\n" }).ok()?;
    Some(is_asked)
}

/// A case, and one of its lines.
#[derive(Clone, Copy)]
pub struct Case<'a> {
    pub alloc: Global,
    /// The lines of the case.
    pub lines: &'a [&'a str],
    /// What stands behind the first word of the line that is played.
    pub rest: &'a str,
}

/// Whether a line is the head of a file of this name.
/// `instance`, `base`, `names` and `input` stand alone, others behind `file`.
fn is_head(line: &str, name: &str) -> bool {
    line == name || split_word(line) == ("file", name)
}

impl<'a> Case<'a> {
    /// The word at a place behind the first one of the line.
    pub fn word(self, place: usize) -> Option<&'a str> {
        words_of(self.alloc, self.rest)?.get(place).copied()
    }

    /// The number at such a place.
    pub fn number(self, place: usize) -> Option<u32> {
        self.word(place)?.parse().ok()
    }

    /// Whether the case has a file of this name.
    pub fn has_file(self, name: &str) -> bool {
        self.lines.iter().any(|line| is_head(line, name))
    }

    /// The text whose pieces stand behind the head of this name.
    pub fn text(self, name: &str) -> Option<Vec<u8>> {
        let mut bytes = Vec::new(self.alloc);
        let mut within = false;
        for line in self.lines {
            if !is_piece(line) {
                within = is_head(line, name);
            } else if within {
                add_piece(self.alloc, &mut bytes, line)?;
            }
        }
        Some(bytes)
    }

    /// What stands behind this word in the first line that begins with it.
    pub fn line(self, name: &str) -> Option<&'a str> {
        for line in self.lines {
            let (word, rest) = split_word(line);
            if word == name {
                return Some(rest);
            }
        }
        None
    }

    /// The words behind this one in each line that begins with it.
    pub fn all(self, name: &str) -> Option<Vec<Vec<&'a str>>> {
        let mut all = Vec::new(self.alloc);
        for line in self.lines {
            let (word, rest) = split_word(line);
            if word == name {
                all.push(words_of(self.alloc, rest)?).ok()?;
            }
        }
        Some(all)
    }

    /// The list behind a word and how often it is repeated.
    /// So `times 2 0 3` is 0 3 0 3.
    pub(crate) fn list(self, name: &str) -> Option<Vec<u32>> {
        numbers(self.alloc, &words_of(self.alloc, self.line(name)?)?)
    }

    /// The period of the line `period N`, or 10.
    pub(crate) fn period(self) -> Option<u32> {
        match self.line("period") {
            Some(rest) => rest.parse().ok(),
            None => Some(10),
        }
    }
}
