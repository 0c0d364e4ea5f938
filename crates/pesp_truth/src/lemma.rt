//! A lemma as a value.

ghost use Rattle.std.specs.Prelude.{◌≡◌, ◌+◌, true, IfOk, OnErr, drop};
ghost use Rattle.pesp_truth.specs.Limits.{rises_from, weights_keep_limits};

use pesp_problem::{MOST_MULTIPLIER, Pair};
use std::marker::Model;

/// What a sum of weight times slack is at least at every timetable. Each pair has the number of a row, from 1, and its
/// weight; the rows rise, and a weight is at most 1,000,000,000,000 by amount.
#[derive(Drop)]
pub struct Lemma {
    weights: Vec<Pair>,
    least: i64,
}

impl Model for Lemma {
    ghost use Rattle.std.specs.Prelude.{◌≡◌, true};
    ghost use Rattle.pesp_truth.specs.Lemmas.{Lemma as SpecLemma};
    ghost use Rattle.pesp_truth.specs.Limits.{weights_keep_limits};

    ghost Value = { SpecLemma };

    ghost view = { λ l. record { weights = l.weights.items; least = l.least } };

    ghost invariant = { λ l. weights_keep_limits l.weights.items ≡ true };
}

/// The pairs are no lemma's: a row is 0 or not above the one before it, or a weight is more than 1,000,000,000,000 by amount.
#[derive(Clone, Copy, PartialEq, Eq)]
pub struct NotLemma;

/// Whether the rows rise from 1 on, and no weight is too large.
fn keep_limits(weights: &[Pair]) -> bool
    ensures { result ≡ weights_keep_limits weights.now }
{
    let mut least = 1;
    for pair in weights {
        let row = u64::from(pair.cycle);
        if row < least || pair.mult.unsigned_abs() > MOST_MULTIPLIER {
            return false;
        }
        least = row + 1;
    }
    true
}

impl Lemma {
    /// The lemma with these weights and this least sum, where the weights keep the limits.
    pub fn new(weights: Vec<Pair>, least: i64) -> Result<Lemma, NotLemma>
        ensures parts { IfOk result (λ l. l ≡ record { weights = weights.items; least = least }) }
        ensures refused { OnErr result (¬ (weights_keep_limits weights.items ≡ true)) }
    {
        if !keep_limits(&weights) {
            return Err(NotLemma);
        }
        Ok(Lemma { weights, least })
    }

    /// The lemma with the same rows and weights and another least sum.
    pub fn with_least(self, least: i64) -> Lemma
        ensures { result ≡ record { weights = self.weights; least = least } }
    {
        let Lemma { weights, .. } = self;
        Lemma { weights, least }
    }

    /// The rows with their weights, in order.
    pub fn weights(&self) -> &[Pair]
        ensures value { result.now ≡ self.now.weights }
        ensures limits { weights_keep_limits result.now ≡ true }
    {
        &self.weights
    }

    /// What the sum is at least.
    pub fn least(&self) -> i64
        ensures { result ≡ self.now.least }
    {
        self.least
    }
}
