//! Words of a line, and what they stand for.

use pesp_problem::{Cut, Pair, SignedRow};
use std::alloc::Global;

/// The first word of a line, and what stands behind the space after it.
pub fn split_word(line: &str) -> (&str, &str) {
    line.split_once(' ').unwrap_or((line, ""))
}

/// The words of a line, none where it is empty.
pub fn words_of<'a>(alloc: Global, line: &'a str) -> Option<Vec<&'a str>> {
    let mut words = Vec::new(alloc);
    for word in line.split(' ') {
        if !word.is_empty() {
            words.push(word).ok()?;
        }
    }
    Some(words)
}

/// What stands under a word in a table.
pub fn look_up<T: Copy>(table: &[(&str, T)], word: &str) -> Option<T> {
    for (name, found) in table {
        if *name == word {
            return Some(*found);
        }
    }
    None
}

/// The word at a place, as a number of 32 bits.
pub fn small(words: &[&str], place: usize) -> Option<u32> {
    words.get(place)?.parse().ok()
}

/// The word at a place, as a number with a sign.
pub(crate) fn whole(words: &[&str], place: usize) -> Option<i64> {
    words.get(place)?.parse().ok()
}

/// A count and a list that is repeated so often.
/// So `3 0 1` is 0 1 0 1 0 1.
pub(crate) fn numbers(alloc: Global, words: &[&str]) -> Option<Vec<u32>> {
    let mut once = Vec::new(alloc);
    for place in 1..words.len() {
        once.push(small(words, place)?).ok()?;
    }
    let mut all = Vec::new(alloc);
    for _ in 0..small(words, 0)? {
        all.extend_from_slice(&once).ok()?;
    }
    Some(all)
}

fn signed_row(word: &str) -> Option<SignedRow> {
    let (sign, number) = word.split_at_checked(1)?;
    let plus = sign == "+";
    if !plus && sign != "-" {
        return None;
    }
    Some(SignedRow {
        row: number.parse().ok()?,
        plus,
    })
}

/// Signed rows, as `+1 -2`.
pub(crate) fn signed_rows(alloc: Global, words: &[&str]) -> Option<Vec<SignedRow>> {
    let mut rows = Vec::new(alloc);
    for word in words {
        rows.push(signed_row(word)?).ok()?;
    }
    Some(rows)
}

/// Cycles with multipliers, as `1 -1 2 3`.
pub fn pairs_of(alloc: Global, words: &[&str]) -> Option<Vec<Pair>> {
    let mut pairs = Vec::new(alloc);
    for pair in words.chunks(2) {
        pairs
            .push(Pair {
                cycle: small(pair, 0)?,
                mult: whole(pair, 1)?,
            })
            .ok()?;
    }
    Some(pairs)
}

/// A cut: `s ROW K` or `o CYCLE K`.
pub fn cut_of(words: &[&str]) -> Option<Cut> {
    match *words.get(0)? {
        "s" => Some(Cut::Slack {
            row: small(words, 1)?,
            k: small(words, 2)?,
        }),
        "o" => Some(Cut::Offset {
            cycle: small(words, 1)?,
            k: whole(words, 2)?,
        }),
        _ => None,
    }
}
