//! The signed rows of a cycle line.

ghost use Rattle.std.specs.Prelude.{◌≡◌, ◌≤◌, IfOk, Some, true, length, drop};
ghost use Rattle.std.specs.Option.{option_copied};
ghost use Rattle.pesp_stream.specs.Number.{natural_of};
ghost use Rattle.pesp_stream.specs.Words.{words_of, pieces_left};
ghost use Rattle.pesp_cert_lines.specs.Rows.{is_name, spelt_row, signed, rows_of, rows_within, count_of_rows, rows_are_good, BeginsRows};

use crate::fault::LineFault;
use pesp_problem::{MOST_ROWS, SignedRow};
use pesp_stream::{Words, natural, split_at_byte};
use std::marker::Model;

/// The most words of a line: it has at most 100,000,000 bytes.
pub(crate) const MOST_WORDS: usize = 100_000_001;

/// The signed rows of a walk that are left in a line that was judged.
#[derive(Drop)]
pub struct SignedRows<'a> {
    words: Words<'a>,
    count: u64,
}

impl<'a> Model for SignedRows<'a> {
    ghost use Rattle.std.specs.Prelude.{List};
    ghost use Rattle.pesp_problem.specs.declared.row.SignedRow.{SignedRow};

    ghost Value = { List SignedRow };

    ghost use Rattle.pesp_cert_lines.specs.Rows.{rows_of, rows_left, RowsAreGood};

    ghost view = { λ r. rows_left (rows_of r.words) };

    ghost invariant = { λ r. RowsAreGood (rows_of r.words) r.count };
}

impl<'a> SignedRows<'a> {
    /// The same rows again.
    pub fn again(&self) -> SignedRows<'a>
        ensures { result ≡ self.now }
    {
        SignedRows {
            words: self.words.again(),
            count: self.count,
        }
    }

    /// How many rows are left.
    pub fn left(&self) -> u64
        ensures count { result ≡ length self.now }
        ensures short { result ≤ MOST_WORDS }
    {
        self.count
    }
}

impl<'a> Iterator for SignedRows<'a> {
    ghost use Rattle.std.specs.Iterator.{item_count, YieldsFirst};

    type Item = SignedRow;

    ghost next_gives = { YieldsFirst (λ rows. rows) };

    ghost remaining = { item_count (λ rows. rows) };

    fn next(&mut self) -> Option<SignedRow> {
        let row = take_row(&mut self.words)?;
        self.count -= 1;
        Some(row)
    }
}

/// What stands behind the first byte.
#[inline]
fn behind_first(word: &[u8]) -> &[u8]
    ensures { result.now ≡ drop 1 word.now }
{
    match word {
        [] => word,
        [_, rest @ ..] => rest,
    }
}

#[inline]
fn with_sign(plus: bool, word: &[u8]) -> Option<(u64, bool)>
    ensures { result ≡ signed plus (natural_of (drop 1 word.now)) }
{
    let number = natural(behind_first(word))?;
    Some((number, plus))
}

/// A sign and a number.
#[inline(always)]
#[tactic(auto, unfolding(crate::specs::Rows::spelt_row))]
pub(crate) fn spelt_row(word: &[u8]) -> Option<(u64, bool)>
    ensures { result ≡ spelt_row word.now }
{
    if word.is_empty() {
        None
    } else if word[0] == b'+' {
        with_sign(true, word)
    } else if word[0] == b'-' {
        with_sign(false, word)
    } else {
        None
    }
}

/// Whether a number may name a row or a cycle.
pub(crate) fn is_name(number: u64) -> bool
    ensures { result ≡ is_name number }
{
    1 <= number && number <= MOST_ROWS as u64
}

/// How many rows the words spell, or what is wrong with them.
fn count_rows(words: Words<'_>) -> Result<u64, LineFault>
    requires { length words ≤ MOST_WORDS }
    ensures exact { result ≡ count_of_rows (rows_of words.entry) }
    ensures short { IfOk result (λ n. n ≤ MOST_WORDS) }
{
    let mut words = words;
    let mut within = true;
    let mut number = 0u64;
    while let Some(word) = words.next() {
        let Some((row, _plus)) = spelt_row(word) else {
            return Err(LineFault::Number);
        };
        within &= is_name(row);
        number += 1;
    }
    if within {
        Ok(number)
    } else {
        Err(LineFault::Limit)
    }
}

/// The rows that the words spell, or what is wrong with them.
pub(crate) fn judge_rows(words: Words<'_>) -> Result<SignedRows<'_>, LineFault>
    requires { length words ≤ MOST_WORDS }
    ensures { result ≡ rows_within (rows_of words.entry) }
{
    let count = count_rows(words.again())?;
    Ok(SignedRows { words, count })
}

/// The first row of words that were judged, and what stands behind its word.
#[inline]
pub fn first_row(words: &[u8]) -> (SignedRow, Option<&[u8]>)
    requires { rows_are_good (rows_of (words_of words.now)) ≡ true }
    ensures { BeginsRows (Some result.0) (rows_of (words_of words.now))
        (rows_of (pieces_left 32 (option_copied result.1))) }
{
    let (word, rest) = split_at_byte(b' ', words);
    let Some((row, plus)) = spelt_row(word) else {
        unreachable!()
    };
    let row = SignedRow {
        row: row as u32,
        plus,
    };
    (row, rest)
}

/// The next row of words that were judged.
fn take_row(words: &mut Words<'_>) -> Option<SignedRow>
    requires { rows_are_good (rows_of words.old) ≡ true }
    ensures { BeginsRows result (rows_of words.old) (rows_of words.new) }
{
    let word = words.next()?;
    let (row, plus) = spelt_row(word)?;
    Some(SignedRow {
        row: row as u32,
        plus,
    })
}
