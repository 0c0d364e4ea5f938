//! The marked rows of a walk's line.

ghost use Rattle.std.specs.Prelude.{◌≡◌, ◌≤◌, IfOk, Some, true, length};
ghost use Rattle.std.specs.Option.{option_copied};
ghost use Rattle.pesp_stream.specs.Words.{words_of, pieces_left};
ghost use Rattle.pesp_cert_lines.specs.Rows.{spelt_row};
ghost use Rattle.pesp_cert_lines.specs.Marked.{is_starred, but_last, with_mark, marked_at, marked_of, marked_within, count_of_marked, marked_are_good, BeginsMarked};

use crate::fault::LineFault;
use crate::rows::{MOST_WORDS, is_name, spelt_row};
use pesp_problem::{MarkedRow, SignedRow};
use pesp_stream::{Words, split_at_byte};
use std::marker::Model;

/// The marked rows of a walk that are left in a line that was judged.
#[derive(Drop)]
pub struct MarkedRows<'a> {
    words: Words<'a>,
    count: u64,
}

impl<'a> Model for MarkedRows<'a> {
    ghost use Rattle.std.specs.Prelude.{List};
    ghost use Rattle.pesp_problem.specs.declared.marked.MarkedRow.{MarkedRow};

    ghost Value = { List MarkedRow };

    ghost use Rattle.pesp_cert_lines.specs.Marked.{marked_of, marked_left, MarkedAreGood};

    ghost view = { λ r. marked_left (marked_of r.words) };

    ghost invariant = { λ r. MarkedAreGood (marked_of r.words) r.count };
}

impl<'a> MarkedRows<'a> {
    /// The same rows again.
    pub fn again(&self) -> MarkedRows<'a>
        ensures { result ≡ self.now }
    {
        MarkedRows {
            words: self.words.again(),
            count: self.count,
        }
    }

    /// How many rows are left.
    pub fn left(&self) -> u64
        ensures count { result ≡ length self.now }
        ensures short { result ≤ MOST_WORDS }
    {
        self.count
    }
}

impl<'a> Iterator for MarkedRows<'a> {
    ghost use Rattle.std.specs.Iterator.{item_count, YieldsFirst};

    type Item = MarkedRow;

    ghost next_gives = { YieldsFirst (λ rows. rows) };

    ghost remaining = { item_count (λ rows. rows) };

    fn next(&mut self) -> Option<MarkedRow> {
        let row = take_marked(&mut self.words)?;
        self.count -= 1;
        Some(row)
    }
}

/// Whether the last byte is `*`.
fn is_starred(word: &[u8]) -> bool
    ensures { result ≡ is_starred word.now }
{
    !word.is_empty() && word[word.len() - 1] == b'*'
}

/// What stands before the last byte.
fn but_last(word: &[u8]) -> &[u8]
    ensures { result.now ≡ but_last word.now }
{
    if word.is_empty() {
        return word;
    }
    &word[..word.len() - 1]
}

fn with_mark(flipped: bool, word: &[u8]) -> Option<(u64, bool, bool)>
    ensures { result ≡ with_mark flipped (spelt_row word.now) }
{
    let (row, plus) = spelt_row(word)?;
    Some((row, plus, flipped))
}

/// A sign, a number and whether `*` stands behind them.
fn marked_at(word: &[u8]) -> Option<(u64, bool, bool)>
    ensures { result ≡ marked_at word.now }
{
    if is_starred(word) {
        with_mark(true, but_last(word))
    } else {
        with_mark(false, word)
    }
}

/// How many marked rows the words spell, or what is wrong with them.
fn count_marked(words: Words<'_>) -> Result<u64, LineFault>
    requires { length words ≤ MOST_WORDS }
    ensures exact { result ≡ count_of_marked (marked_of words.entry) }
    ensures short { IfOk result (λ n. n ≤ MOST_WORDS) }
{
    let mut words = words;
    let mut within = true;
    let mut number = 0u64;
    while let Some(word) = words.next() {
        let Some((row, _plus, _flipped)) = marked_at(word) else {
            return Err(LineFault::Number);
        };
        within &= is_name(row);
        number += 1;
    }
    if within {
        Ok(number)
    } else {
        Err(LineFault::Limit)
    }
}

/// The marked rows that the words spell, or what is wrong with them.
pub(crate) fn judge_marked(words: Words<'_>) -> Result<MarkedRows<'_>, LineFault>
    requires { length words ≤ MOST_WORDS }
    ensures { result ≡ marked_within (marked_of words.entry) }
{
    let count = count_marked(words.again())?;
    Ok(MarkedRows { words, count })
}

/// The first marked row of words that were judged, and what stands behind its word.
#[inline]
pub fn first_marked(words: &[u8]) -> (MarkedRow, Option<&[u8]>)
    requires { marked_are_good (marked_of (words_of words.now)) ≡ true }
    ensures { BeginsMarked (Some result.0) (marked_of (words_of words.now))
        (marked_of (pieces_left 32 (option_copied result.1))) }
{
    let (word, rest) = split_at_byte(b' ', words);
    let Some((row, plus, flipped)) = marked_at(word) else {
        unreachable!()
    };
    let row = MarkedRow {
        signed: SignedRow {
            row: row as u32,
            plus,
        },
        flipped,
    };
    (row, rest)
}

/// The next marked row of words that were judged.
fn take_marked(words: &mut Words<'_>) -> Option<MarkedRow>
    requires { marked_are_good (marked_of words.old) ≡ true }
    ensures { BeginsMarked result (marked_of words.old) (marked_of words.new) }
{
    let word = words.next()?;
    let (row, plus, flipped) = marked_at(word)?;
    Some(MarkedRow {
        signed: SignedRow {
            row: row as u32,
            plus,
        },
        flipped,
    })
}
