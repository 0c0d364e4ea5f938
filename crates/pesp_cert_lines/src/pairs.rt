//! The pairs of a leaf line.

ghost use Rattle.std.specs.Prelude.{◌≡◌, ◌≤◌, ◌<◌, IfOk, IfSome, Some, true, length};
ghost use Rattle.std.specs.Option.{option_copied};
ghost use Rattle.pesp_stream.specs.Number.{NATURALS};
ghost use Rattle.pesp_stream.specs.Words.{words_of, pieces_left};
ghost use Rattle.pesp_cert_lines.specs.Pairs.{pair_at, pairs_from, is_pair_within, pairs_within, count_of_pairs, pairs_are_good, BeginsPairs};

use crate::fault::LineFault;
use crate::rows::MOST_WORDS;
use pesp_problem::{MOST_CYCLES, MOST_MULTIPLIER, Pair};
use pesp_stream::{Words, natural, split_at_byte, whole};
use std::marker::Model;

/// The pairs of a leaf that are left in a line that was judged.
#[derive(Drop)]
pub struct LinePairs<'a> {
    words: Words<'a>,
    least: u64,
    count: u64,
}

impl<'a> Model for LinePairs<'a> {
    ghost use Rattle.std.specs.Prelude.{List};
    ghost use Rattle.pesp_problem.specs.declared.pair.Pair.{Pair};

    ghost Value = { List Pair };

    ghost use Rattle.pesp_cert_lines.specs.Pairs.{pairs_from, pairs_left, PairsAreGood};

    ghost view = { λ p. pairs_left (pairs_from p.least p.words) };

    ghost invariant = { λ p. PairsAreGood (pairs_from p.least p.words) p.count };
}

impl<'a> LinePairs<'a> {
    /// The same pairs again.
    pub fn again(&self) -> LinePairs<'a>
        ensures { result ≡ self.now }
    {
        LinePairs {
            words: self.words.again(),
            least: self.least,
            count: self.count,
        }
    }

    /// How many pairs are left.
    pub fn left(&self) -> u64
        ensures count { result ≡ length self.now }
        ensures short { result ≤ MOST_WORDS }
    {
        self.count
    }
}

impl<'a> Iterator for LinePairs<'a> {
    ghost use Rattle.std.specs.Iterator.{item_count, YieldsFirst};

    type Item = Pair;

    ghost next_gives = { YieldsFirst (λ pairs. pairs) };

    ghost remaining = { item_count (λ pairs. pairs) };

    fn next(&mut self) -> Option<Pair> {
        let pair = take_pair(&mut self.words, self.least)?;
        self.least = u64::from(pair.cycle) + 1;
        self.count -= 1;
        Some(pair)
    }
}

/// Two words as a cycle number of at least `least` and a multiplier.
#[inline(always)]
#[tactic(auto, unfolding(crate::specs::Pairs::pair_at))]
fn pair_at(least: u64, first: &[u8], second: &[u8]) -> Option<(u64, i64)>
    ensures exact { result ≡ pair_at least first.now second.now }
    ensures below { IfSome result (λ p. p.0 < NATURALS) }
{
    let cycle = natural(first)?;
    let mult = whole(second)?;
    if least <= cycle && mult != 0 {
        Some((cycle, mult))
    } else {
        None
    }
}

/// Whether a pair keeps its limits.
fn is_within(cycle: u64, mult: i64) -> bool
    ensures { result ≡ is_pair_within (record { cycle = cycle; mult = mult }) }
{
    1 <= cycle && cycle <= MOST_CYCLES as u64 && mult.unsigned_abs() <= MOST_MULTIPLIER
}

/// How many pairs the words spell, or what is wrong with them.
fn count_pairs(words: Words<'_>) -> Result<u64, LineFault>
    requires { length words ≤ MOST_WORDS }
    ensures exact { result ≡ count_of_pairs (pairs_from 0 words.entry) }
    ensures short { IfOk result (λ n. n ≤ MOST_WORDS) }
{
    let mut words = words;
    let mut least = 0u64;
    let mut within = true;
    let mut number = 0u64;
    while let Some(first) = words.next() {
        let Some(second) = words.next() else {
            return Err(LineFault::Number);
        };
        let Some((cycle, mult)) = pair_at(least, first, second) else {
            return Err(LineFault::Number);
        };
        within &= is_within(cycle, mult);
        least = cycle + 1;
        number += 1;
    }
    if within {
        Ok(number)
    } else {
        Err(LineFault::Limit)
    }
}

/// The pairs that the words spell, or what is wrong with them.
pub(crate) fn judge_pairs(words: Words<'_>) -> Result<LinePairs<'_>, LineFault>
    requires { length words ≤ MOST_WORDS }
    ensures { result ≡ pairs_within (pairs_from 0 words.entry) }
{
    let count = count_pairs(words.again())?;
    Ok(LinePairs {
        words,
        least: 0,
        count,
    })
}

/// The first pair of words that were judged, and what stands behind its words.
#[inline]
pub fn first_pair(words: &[u8], least: u64) -> (Pair, Option<&[u8]>)
    requires { pairs_are_good (pairs_from least (words_of words.now)) ≡ true }
    ensures { BeginsPairs (Some result.0) least (words_of words.now)
        (pieces_left 32 (option_copied result.1)) }
{
    let (first, behind) = split_at_byte(b' ', words);
    let Some(words) = behind else { unreachable!() };
    let (second, rest) = split_at_byte(b' ', words);
    let Some((cycle, mult)) = pair_at(least, first, second) else {
        unreachable!()
    };
    let pair = Pair {
        cycle: cycle as u32,
        mult,
    };
    (pair, rest)
}

/// The next pair of words that were judged.
fn take_pair(words: &mut Words<'_>, least: u64) -> Option<Pair>
    requires { pairs_are_good (pairs_from least words.old) ≡ true }
    ensures { BeginsPairs result least words.old words.new }
{
    let first = words.next()?;
    let second = words.next()?;
    let (cycle, mult) = pair_at(least, first, second)?;
    Some(Pair {
        cycle: cycle as u32,
        mult,
    })
}
