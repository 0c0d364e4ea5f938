//! The limits of a front's parts.

ghost use Rattle.std.specs.Prelude.{◌≡◌, nat_le};
ghost use Rattle.std.specs.List.{list_all};
ghost use Rattle.pesp_truth.specs.FrontLimits.{are_numbered, is_walk, total_rows, marks_keep_limits as marks_keep_limits};
ghost use Rattle.pesp_cert.specs.Limits.{is_lemma, is_shown_lemma, are_lemmas};

use crate::limits::{are_cycles, are_lines, are_pairs};
use crate::shown_lemma::ShownLemma;
use pesp_problem::{MOST_CYCLES, MOST_SIGNED_ROWS, MarkedRow, MarkedWalk, Pair};
use pesp_truth::{is_row_number, is_scale};

/// Least sums below this number have at most 18 digits.
const SUMS: u64 = 1_000_000_000_000_000_000;

fn are_numbered(walk: &[MarkedRow]) -> bool
    ensures { result ≡ are_numbered walk.now }
{
    walk.iter().all(|s| is_row_number(u64::from(s.signed.row)))
}

fn is_walk(walk: &MarkedWalk) -> bool
    ensures { result ≡ is_walk walk.now }
{
    1 <= walk.rows().len() && are_numbered(walk.rows())
}

fn each_is_walk(walks: &[MarkedWalk]) -> bool
    ensures { result ≡ list_all is_walk walks.now }
{
    walks.iter().all(|walk| is_walk(walk))
}

/// Whether the walks have at most 10,000,000 marked rows.
fn has_few_rows(walks: &[MarkedWalk]) -> bool
    ensures { result ≡ nat_le (total_rows walks.now) MOST_SIGNED_ROWS }
{
    let mut left = MOST_SIGNED_ROWS;
    for walk in walks {
        match left.checked_sub(walk.rows().len()) {
            None => return false,
            Some(others) => left = others,
        }
    }
    true
}

/// Whether a scale and marked walks keep the limits of a front.
fn keep_limits(scale: u32, walks: &[MarkedWalk]) -> bool
    ensures { result ≡ marks_keep_limits (record { scale = scale; walks = walks.now }) }
{
    is_scale(u64::from(scale))
        && (walks.len() <= MOST_CYCLES && has_few_rows(walks))
        && each_is_walk(walks)
}

/// Whether a lemma may say this: its rows rise, no weight is 0, and its least sum has at most 18 digits.
fn is_lemma(weights: &[Pair], least: i64) -> bool
    ensures { result ≡ is_lemma (record { weights = weights.now; least = least }) }
{
    are_pairs(weights) && least.unsigned_abs() < SUMS
}

#[tactic(auto, unfolding(crate::specs::Limits::is_shown_lemma))]
fn is_shown(lemma: &ShownLemma) -> bool
    ensures { result ≡ is_shown_lemma lemma.now }
{
    is_lemma(&lemma.weights, lemma.least)
        && keep_limits(lemma.scale, &lemma.walks)
        && are_cycles(&lemma.cycles)
        && are_lines(&lemma.tree)
}

fn each_is_shown(lemmas: &[ShownLemma]) -> bool
    ensures { result ≡ list_all is_shown_lemma lemmas.now }
{
    lemmas.iter().all(|lemma| is_shown(lemma))
}

/// Whether these may be the lemmas of a front.
pub(crate) fn are_lemmas(lemmas: &[ShownLemma]) -> bool
    ensures { result ≡ are_lemmas lemmas.now }
{
    lemmas.len() <= MOST_CYCLES && each_is_shown(lemmas)
}
