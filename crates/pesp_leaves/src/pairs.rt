//! What the pairs of a leaf name.

ghost use Rattle.std.specs.Prelude.{◌≡◌, ◌↔◌, ◌≤◌, IsTrue, length, true, All};
ghost use Rattle.pesp_problem.specs.declared.limits.TheConstants.{MOST_CYCLES};
ghost use Rattle.pesp_problem.specs.Walks.{Names};
ghost use Rattle.pesp_leaves.specs.Claims.{NamesTold};
ghost use Rattle.pesp_truth.specs.Named as named;
ghost use Rattle.pesp_truth.specs.Named.{IsNamed, AreNamed};

use crate::checker::Claim;
use crate::elements::Elements;
use pesp_problem::Pair;

/// Whether some pair names more than one of so many cycles.
pub fn names_more<P: Elements<Pair>>(cycles: usize, pairs: P) -> bool
    ensures { result ≡ named.names_more cycles (P.elements pairs) }
{
    let mut left = pairs;
    while let Some(pair) = left.take_next() {
        if pair.cycle as usize > cycles {
            return true;
        }
    }
    false
}

/// Whether a pair names one of so many cycles, or one of so many other things under a multiplier above 0.
fn is_named(cycles: usize, others: usize, pair: Pair) -> bool
    ensures { IsTrue result ↔ IsNamed cycles others pair }
{
    let number = pair.cycle as usize;
    if number <= cycles {
        1 <= number
    } else {
        number - cycles <= others && 0 < pair.mult
    }
}

/// Whether each pair does.
fn are_named<P: Elements<Pair>>(cycles: usize, others: usize, pairs: P) -> bool
    ensures { IsTrue result ↔ AreNamed cycles others (P.elements pairs) }
{
    let mut left = pairs;
    while let Some(pair) = left.take_next() {
        if !is_named(cycles, others, pair) {
            return false;
        }
    }
    true
}

/// Whether a cycle of so many has this number, from 1.
fn is_cycle(cycles: usize, number: u32) -> bool
    ensures { IsTrue result ↔ Names cycles number }
{
    1 <= number && number as usize <= cycles
}

/// Whether the cycles of the pairs exist.
fn cycles_exist<P: Elements<Pair>>(cycles: usize, pairs: P) -> bool
    ensures { IsTrue result ↔ All (λ pair. Names cycles pair.cycle) (P.elements pairs) }
{
    let mut left = pairs;
    while let Some(pair) = left.take_next() {
        if !is_cycle(cycles, pair.cycle) {
            return false;
        }
    }
    true
}

/// Whether the pairs name what leaves of a tree may name.
pub fn pairs_exist<P: Elements<Pair>>(cycles: usize, claim: &Claim<'_>, pairs: P) -> bool
    requires { cycles ≤ MOST_CYCLES }
    ensures { IsTrue result ↔ NamesTold claim.now cycles (P.elements pairs) }
{
    match claim {
        Claim::Plain(_) => cycles_exist(cycles, pairs),
        Claim::Behind(shown) => {
            let walks = shown.marks.walks();
            are_named(cycles, walks.len() + shown.facts.len(), pairs)
        }
    }
}
