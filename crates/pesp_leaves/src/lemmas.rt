//! What the lemmas that a leaf names add to its flows and to its value.

ghost use Rattle.std.specs.Prelude.{◌≡◌, ℕ, ◌+◌, ◌*◌, ◌^◌, ◌<◌, ◌≤◌, [], ◌∷◌, length, ◌+ℤ◌, ◌*ℤ◌, unsigned_abs, All, true};
ghost use Rattle.pesp_problem.specs.declared.limits.TheConstants.{MOST_MULTIPLIER};
ghost use Rattle.pesp_problem.specs.Walks.{Names};
ghost use Rattle.pesp_problem.specs.Terms.{number_at, AreSmallFlows};
ghost use Rattle.pesp_truth.specs.Named.{IsNamed, AreNamed};
ghost use Rattle.pesp_leaves.specs.Flows.{ArePairLimits};
ghost use Rattle.pesp_truth.specs.Lemmas.{weight_at};
ghost use Rattle.pesp_truth.specs.Limits.{weights_keep_limits};
ghost use Rattle.pesp_leaves.specs.Taken.{AreFlowsWith, HaveRows, floor_of, taken_of};

use crate::elements::Elements;
use pesp_problem::Pair;
use pesp_problem::exact::{plus, times};
use pesp_truth::Lemma;

/// A multiplier times a weight.
fn product(mult: i64, weight: i64) -> i128
    requires mult { unsigned_abs mult ≤ MOST_MULTIPLIER }
    requires weight { unsigned_abs weight ≤ MOST_MULTIPLIER }
    ensures value { result ≡ mult *ℤ weight }
    ensures size { unsigned_abs result ≤ 10 ^ 24 }
{
    times(i128::from(mult), i128::from(weight))
}

/// A multiplier times a least sum.
fn floor(mult: i64, least: i64) -> i128
    requires mult { unsigned_abs mult ≤ MOST_MULTIPLIER }
    ensures value { result ≡ mult *ℤ least }
    ensures size { unsigned_abs result ≤ 10 ^ 31 }
{
    times(i128::from(mult), i128::from(least))
}

/// Adds a multiplier times each weight of a lemma to the flow of its row.
fn add_weights(weights: &[Pair], mult: i64, flows: &mut [i128])
    requires rows { All (λ pair. Names (length flows.old) pair.cycle) weights.now }
    requires limits { weights_keep_limits weights.now ≡ true }
    requires mult { unsigned_abs mult ≤ MOST_MULTIPLIER }
    requires small { AreFlowsWith 99999 flows.old }
    ensures sum { (i : ℕ) → i < length flows.old
        → number_at flows.new i ≡ number_at flows.old i +ℤ mult *ℤ weight_at weights.now i }
    ensures size { (i : ℕ) → i < length flows.old
        → unsigned_abs (number_at flows.new i) ≤ unsigned_abs (number_at flows.old i) + 10 ^ 24 }
{
    for pair in weights {
        let at = pair.cycle as usize - 1;
        let flow = plus(flows[at], product(mult, pair.mult));
        flows[at] = flow;
    }
}

/// Adds the lemma that a pair names to the flows, under the pair's multiplier. Gives what its sum is at least, times the
/// multiplier; nothing for a pair that names a cycle or a walk, of which there are so many.
fn add_lemma(others: usize, facts: &[Lemma], pair: Pair, flows: &mut [i128]) -> i128
    requires few { others ≤ 200000 }
    requires named { IsNamed others (length facts.now) pair }
    requires rows { HaveRows (length flows.old) facts.now }
    requires mult { unsigned_abs pair.mult ≤ MOST_MULTIPLIER }
    requires small { AreFlowsWith 99999 flows.old }
    ensures floor { result ≡ floor_of others facts.now (pair ∷ []) }
    ensures floor_size { unsigned_abs result ≤ 10 ^ 31 }
    ensures sum { (i : ℕ) → i < length flows.old
        → number_at flows.new i ≡ number_at flows.old i +ℤ taken_of others facts.now (pair ∷ []) i }
    ensures size { (i : ℕ) → i < length flows.old
        → unsigned_abs (number_at flows.new i) ≤ unsigned_abs (number_at flows.old i) + 10 ^ 24 }
{
    let number = pair.cycle as usize;
    if number <= others {
        return 0;
    }
    let fact = &facts[number - others - 1];
    add_weights(fact.weights(), pair.mult, flows);
    floor(pair.mult, fact.least())
}

/// Adds to the flows what the lemmas that pairs name take of each row. Gives what their sums are at least, each times its
/// multiplier.
pub fn add_lemmas<P: Elements<Pair>>(
    others: usize,
    facts: &[Lemma],
    pairs: P,
    flows: &mut [i128],
) -> i128
    requires few { others ≤ 200000 }
    requires named { AreNamed others (length facts.now) (P.elements pairs) }
    requires limits { ArePairLimits (P.elements pairs) }
    requires rows { HaveRows (length flows.old) facts.now }
    requires small { AreSmallFlows flows.old }
    ensures floor { result ≡ floor_of others facts.now (P.elements pairs) }
    ensures size { unsigned_abs result ≤ 10 ^ 36 }
    ensures sum { (i : ℕ) → i < length flows.old
        → number_at flows.new i ≡ number_at flows.old i +ℤ taken_of others facts.now (P.elements pairs) i }
    ensures small { AreFlowsWith 100000 flows.new }
{
    let mut left = pairs;
    let mut sum = 0;
    while let Some(pair) = left.take_next() {
        sum = plus(sum, add_lemma(others, facts, pair, flows));
    }
    sum
}
