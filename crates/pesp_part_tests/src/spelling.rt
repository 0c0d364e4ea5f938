//! Answers as words, each behind a space.

use pesp_problem::{Cut, Pair, SignedRow};
use std::alloc::Global;
use std::fmt::Display;

/// Tells numbers, as `5 2 0`.
pub(crate) fn tell_list<T: Display>(items: &[T], told: &mut String) -> Option<()> {
    for item in items {
        write!(told, " {item}").ok()?;
    }
    Some(())
}

/// Tells a number, or `none`.
pub fn tell_number<T: Display + Copy>(number: Option<T>, told: &mut String) -> Option<()> {
    match number {
        Some(number) => write!(told, " {number}").ok(),
        None => told.push_str(" none").ok(),
    }
}

/// Tells ranges, as `0..9 1..2`.
pub(crate) fn tell_ranges<T: Display>(ranges: &[(T, T)], told: &mut String) -> Option<()> {
    for (low, high) in ranges {
        write!(told, " {low}..{high}").ok()?;
    }
    Some(())
}

/// Tells cycles with multipliers, as `1 -1 2 3`.
pub fn tell_pairs(pairs: &[Pair], told: &mut String) -> Option<()> {
    for pair in pairs {
        let Pair { cycle, mult } = *pair;
        write!(told, " {cycle} {mult}").ok()?;
    }
    Some(())
}

/// Tells a row with a sign.
fn tell_row(row: u32, plus: bool, told: &mut String) -> Option<()> {
    let sign = if plus { "+" } else { "-" };
    write!(told, " {sign}{row}").ok()
}

/// Tells signed rows in their order, as `+1 -2`.
pub(crate) fn tell_rows(rows: &[SignedRow], told: &mut String) -> Option<()> {
    for row in rows {
        tell_row(row.row, row.plus, told)?;
    }
    Some(())
}

/// Tells the rows of a closed walk by rising numbers, the first with a plus.
/// It tells the same for each way round and each start.
pub(crate) fn tell_round(alloc: Global, rows: &[SignedRow], told: &mut String) -> Option<()> {
    let mut signs: Vec<(u32, bool)> = rows
        .iter()
        .map(|row| (row.row, row.plus))
        .collect(alloc)
        .ok()?;
    signs.sort_unstable();
    let forward = signs.first().is_some_and(|first| first.1);
    for (row, plus) in &signs {
        tell_row(*row, *plus == forward, told)?;
    }
    Some(())
}

/// Tells a cut, as a certificate's line of a branch.
pub fn tell_cut(cut: Cut, told: &mut String) -> Option<()> {
    match cut {
        Cut::Slack { row, k } => write!(told, " s {row} {k}").ok(),
        Cut::Offset { cycle, k } => write!(told, " o {cycle} {k}").ok(),
    }
}

/// Adds the lines of a text, each with a `/` for its end.
pub fn add_joined(bytes: &[u8], told: &mut String) -> Option<()> {
    for byte in bytes {
        let letter = if *byte == b'\n' {
            '/'
        } else {
            char::from(*byte)
        };
        told.push(letter).ok()?;
    }
    Some(())
}
