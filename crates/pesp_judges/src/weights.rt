//! The weights of a lemma, by row.

ghost use Rattle.std.specs.Prelude.{◌≡◌, ◌↔◌, ℕ, ◌*◌, ◌^◌, ◌<◌, ◌≤◌, ◌+ℤ◌, pos, true, length, unsigned_abs, IsTrue, All, IfOk};
ghost use Rattle.pesp_problem.specs.declared.limits.TheConstants.{MOST_MULTIPLIER};
ghost use Rattle.pesp_problem.specs.Walks.{Names};
ghost use Rattle.pesp_problem.specs.Terms.{number_at};
ghost use Rattle.pesp_truth.specs.Lemmas.{weight_at};
ghost use Rattle.pesp_truth.specs.Limits.{weights_keep_limits};
ghost use Rattle.pesp_leaves.specs.Taken.{AreSmallWeights};

use crate::leaf::names;
use pesp_problem::Pair;
use std::alloc::{AllocError, Global};

/// Whether the rows of pairs are among so many.
pub(crate) fn are_rows(rows: usize, weights: &[Pair]) -> bool
    ensures { IsTrue result ↔ All (λ pair. Names rows pair.cycle) weights.now }
{
    for pair in weights {
        if !names(rows, pair.cycle) {
            return false;
        }
    }
    true
}

/// As many weights of 0.
fn no_weights(alloc: Global, rows: usize) -> Result<Vec<i64>, AllocError>
    ensures long { IfOk result (λ own. length own.items ≡ rows) }
    ensures none { IfOk result (λ own. (i : ℕ) → i < rows → number_at own.items i ≡ pos 0) }
{
    vec![in alloc; 0; rows]
}

/// The sum of two weights.
fn sum(a: i64, b: i64) -> i64
    requires a { unsigned_abs a ≤ 2 * 10 ^ 12 }
    requires b { unsigned_abs b ≤ MOST_MULTIPLIER }
    ensures { result ≡ a +ℤ b }
{
    a + b
}

/// The weights of a lemma, one a row.
pub(crate) fn weights_by_row(
    alloc: Global,
    rows: usize,
    weights: &[Pair],
) -> Result<Vec<i64>, AllocError>
    requires rows { All (λ pair. Names rows pair.cycle) weights.now }
    requires limits { weights_keep_limits weights.now ≡ true }
    ensures long { IfOk result (λ own. length own.items ≡ rows) }
    ensures value { IfOk result (λ own. (i : ℕ) → i < rows
        → number_at own.items i ≡ weight_at weights.now i) }
    ensures small { IfOk result (λ own. AreSmallWeights own.items) }
{
    let mut own = no_weights(alloc, rows)?;
    for pair in weights {
        let at = pair.cycle as usize - 1;
        let next = sum(own[at], pair.mult);
        own[at] = next;
    }
    Ok(own)
}
