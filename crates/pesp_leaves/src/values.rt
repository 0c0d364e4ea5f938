//! What a leaf is worth at a node, for what its tree is to show.

ghost use Rattle.std.specs.Prelude.{◌≡◌, ℕ, ◌+◌, ◌*◌, ◌^◌, ◌<◌, ◌≤◌, List, length, ℤ, pos, unsigned_abs, true, false, if◌then◌else◌, IfSome, IsSomeAnd};
ghost use Rattle.pesp_problem.specs.declared.limits.TheConstants.{MOST_CYCLES};
ghost use Rattle.pesp_problem.specs.declared.row.SignedRow.{SignedRow};
ghost use Rattle.pesp_problem.specs.Arcs.{net_of};
ghost use Rattle.pesp_problem.specs.Nets.{AreZeros, AreNets};
ghost use Rattle.pesp_problem.specs.Terms.{number_at};
ghost use Rattle.pesp_truth.specs.Named.{AreNamed, names_more, scale_of};
ghost use Rattle.pesp_truth.specs.Trees.{Claim as SpecClaim, value_by, goal_of};
ghost use Rattle.pesp_leaves.specs.Flows.{ArePairLimits};
ghost use Rattle.pesp_leaves.specs.Ranges.{node_of, AreRanges};
ghost use Rattle.pesp_leaves.specs.Taken.{HaveRows, AreSmallWeights};
ghost use Rattle.pesp_leaves.specs.Claims.{FitsShown, TellsOf, NamesTold, HasRoom, scaled_by, scale_told};

use crate::checker::{Checker, Claim, Shown};
use crate::cycle_pairs::CyclePairs;
use crate::elements::Elements;
use crate::flows::add_flows;
use crate::gains::add_walks;
use crate::leaf::{leaf_value, offset_sum};
use crate::lemmas::add_lemmas;
use crate::ranges::Ranges;
use crate::terms::{lower_sum, rows_sum};
use pesp_problem::exact::{minus, plus};
use pesp_problem::{Pair, Rates, clear};

/// The value by its scale of a leaf that may name cycles, marked walks and lemmas, under the weights that are told; none where
/// a cycle of a pair has no offset left. The flows, one a row, are 0 before and after.
fn value_behind<P: Elements<Pair>>(
    checker: &Checker<'_>,
    shown: &Shown<'_>,
    ranges: &Ranges,
    pairs: P,
    weighted: bool,
    scale: u32,
    flows: &mut [i128],
    rates: &mut [Rates],
) -> Option<i128>
    requires fits { FitsShown checker.now.instance.now shown.now }
    requires ranges { AreRanges checker.now.instance.now ranges.now }
    requires cycles { length ranges.now.offsets.items ≡ length checker.now.table.now }
    requires named { AreNamed (length checker.now.table.now)
        (length shown.now.marks.now.walks + length shown.now.facts.now) (P.elements pairs) }
    requires limits { ArePairLimits (P.elements pairs) }
    requires scale { scale ≡ scale_of shown.now.marks.now
        (names_more (length checker.now.table.now) (P.elements pairs)) }
    requires most { scale ≤ 1000000 }
    requires long { length flows.old ≡ length checker.now.instance.now.rows }
    requires wide { length rates.old ≡ length checker.now.instance.now.rows }
    requires zeros { AreZeros flows.old }
    ensures value { (walks : List (List SignedRow)) (own : ℕ → ℤ)
        → AreNets (length checker.now.instance.now.rows) walks checker.now.table.now
        → ((i : ℕ) → i < length shown.now.weights.now → number_at shown.now.weights.now i ≡ own i)
        → result ≡ value_by shown.now.marks.now shown.now.facts.now (net_of checker.now.instance.now) walks
        (node_of ranges.now) (P.elements pairs) (λ i. if weighted then own i else pos 0) }
    ensures size { IfSome result (λ v. unsigned_abs v ≤ 14 * 10 ^ 37) }
    ensures zeros { AreZeros flows.new }
{
    let cycles = checker.table.len();
    let cycles_and_walks = cycles + shown.marks.walks().len();
    let others = CyclePairs {
        cycles: cycles_and_walks,
        pairs,
    };
    let of_cycles = CyclePairs {
        cycles,
        pairs: others,
    };
    let offsets = offset_sum(checker, ranges, of_cycles)?;
    add_flows(flows, checker.table, of_cycles);
    let lowers = lower_sum(shown.arcs, flows);
    clear(rates);
    let gains = add_walks(checker, shown, &ranges.slacks, others, rates);
    let floors = add_lemmas(cycles_and_walks, shown.facts, pairs, flows);
    let rows = rows_sum(&ranges.slacks, shown.weights, weighted, scale, flows, rates);
    flows.fill(0);
    Some(plus(plus(plus(minus(offsets, lowers), gains), floors), rows))
}

/// The scale of a leaf that names more than cycles, or of one that doesn't.
pub fn scale_of(claim: &Claim<'_>, more: bool) -> u32
    ensures value { result ≡ scale_told claim.now more }
    ensures some { 0 < result }
    ensures most { result ≤ 1000000 }
{
    match claim {
        Claim::Plain(_) => 1,
        Claim::Behind(shown) => {
            let scale = shown.marks.scale();
            if more { scale } else { 1 }
        }
    }
}

/// Whether a leaf behind a front is worth what it is without one: it names cycles alone, and the weights of the rows are their own,
/// or don't count.
fn is_plain(shown: &Shown<'_>, more: bool, weighted: bool) -> bool
    ensures cycles { result ≡ true → more ≡ false }
    ensures weights { result ≡ true → weighted ≡ true → shown.now.is_cost ≡ true }
{
    !more && (shown.is_cost || !weighted)
}

/// The value of a leaf by its scale, with the rows' weights or without. None where a cycle of a pair has no offset left. The
/// flows, one a row, are 0 before and after. Behind a front there are as many rates.
pub fn value_of<P: Elements<Pair>>(
    checker: &Checker<'_>,
    ranges: &Ranges,
    pairs: P,
    more: bool,
    weighted: bool,
    flows: &mut [i128],
    rates: &mut [Rates],
) -> Option<i128>
    requires ranges { AreRanges checker.now.instance.now ranges.now }
    requires cycles { length ranges.now.offsets.items ≡ length checker.now.table.now }
    requires named { NamesTold checker.now.claim (length checker.now.table.now) (P.elements pairs) }
    requires limits { ArePairLimits (P.elements pairs) }
    requires more { more ≡ names_more (length checker.now.table.now) (P.elements pairs) }
    requires long { length flows.old ≡ length checker.now.instance.now.rows }
    requires room { HasRoom checker.now.claim (length checker.now.instance.now.rows) (length rates.old) }
    requires zeros { AreZeros flows.old }
    ensures value { (walks : List (List SignedRow)) (claim : SpecClaim)
        → AreNets (length checker.now.instance.now.rows) walks checker.now.table.now
        → TellsOf checker.now.claim claim
        → result ≡ scaled_by claim (net_of checker.now.instance.now) walks (node_of ranges.now) (P.elements pairs) weighted }
    ensures size { IfSome result (λ v. unsigned_abs v ≤ 14 * 10 ^ 37) }
    ensures zeros { AreZeros flows.new }
{
    match &checker.claim {
        Claim::Plain(_) => leaf_value(checker, ranges, pairs, weighted, flows),
        Claim::Behind(shown) => {
            if is_plain(shown, more, weighted) {
                return leaf_value(checker, ranges, pairs, weighted, flows);
            }
            let scale = scale_of(&checker.claim, more);
            value_behind(checker, shown, ranges, pairs, weighted, scale, flows, rates)
        }
    }
}
