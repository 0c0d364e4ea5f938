//! Whether a leaf is sound at a node.

ghost use Rattle.std.specs.Prelude.{◌≡◌, ◌↔◌, ◌≤◌, ◌<ℤ◌, ◌^◌, IsTrue, List, length, pos, unsigned_abs, IfSome, IsSomeAnd};
ghost use Rattle.pesp_problem.specs.declared.row.SignedRow.{SignedRow};
ghost use Rattle.pesp_problem.specs.Arcs.{net_of};
ghost use Rattle.pesp_problem.specs.Walks.{Names};
ghost use Rattle.pesp_problem.specs.Nets.{AreZeros, AreNets};
ghost use Rattle.pesp_truth.specs.Trees as trees;
ghost use Rattle.pesp_leaves.specs.Claims.{TellsOf, HasRoom, least_told};
ghost use Rattle.pesp_leaves.specs.Flows.{ArePairLimits};
ghost use Rattle.pesp_leaves.specs.Ranges.{node_of, AreRanges};
ghost use Rattle.pesp_judges.specs.Lines.{IsLeafVerdict};
ghost use Rattle.pesp_judges.specs.LeafLines.{leaf_said, KeepsLeafLimits};

use crate::refusal::Refusal;
use pesp_leaves::{
    Checker, Claim, Elements, Ranges, names_more, offsets_left, pairs_exist, reaches, scale_of,
    value_of,
};
use pesp_problem::{Pair, Rates};

/// A leaf as a line says it: pairs for a bound, pairs that show that no timetable lies there, or a cycle with no offset left.
#[derive(Clone, Copy)]
pub enum LeafLine<P> {
    Bound(P),
    Nothing(P),
    Gap(u32),
}

/// Whether this is the number, from 1, of one of so many things.
pub fn names(count: usize, number: u32) -> bool
    ensures { IsTrue result ↔ Names count number }
{
    1 <= number && number as usize <= count
}

/// Whether there is a value and it is above 0.
fn is_positive(value: Option<i128>) -> bool
    ensures { IsTrue result ↔ IsSomeAnd value (λ v. pos 0 <ℤ v) }
{
    match value {
        Some(v) => 0 < v,
        None => false,
    }
}

/// What the sum is to be at least; none where the tree has to show that there is no timetable.
fn least_of(claim: &Claim<'_>) -> Option<i128>
    ensures value { result ≡ least_told claim.now }
    ensures size { IfSome result (λ least. unsigned_abs least ≤ 2 ^ 64) }
{
    match claim {
        Claim::Plain(Some(least)) => Some(i128::from(*least)),
        Claim::Plain(None) => None,
        Claim::Behind(shown) => match shown.least {
            Some(least) => Some(i128::from(least)),
            None => None,
        },
    }
}

/// What is wrong with a leaf that should show that the sum is large enough.
fn judge_bound<P: Elements<Pair>>(
    checker: &Checker<'_>,
    ranges: &Ranges,
    pairs: P,
    line: u64,
    flows: &mut [i128],
    rates: &mut [Rates],
) -> Option<Refusal>
    requires ranges { AreRanges checker.now.instance.now ranges.now }
    requires cycles { length ranges.now.offsets.items ≡ length checker.now.table.now }
    requires limits { ArePairLimits (P.elements pairs) }
    requires long { length flows.old ≡ length checker.now.instance.now.rows }
    requires room { HasRoom checker.now.claim (length checker.now.instance.now.rows) (length rates.old) }
    requires zeros { AreZeros flows.old }
    ensures verdict { (walks : List (List SignedRow)) (claim : trees.Claim)
        → AreNets (length checker.now.instance.now.rows) walks checker.now.table.now
        → TellsOf checker.now.claim claim
        → IsLeafVerdict claim (net_of checker.now.instance.now) walks (trees.Bound (P.elements pairs))
        (node_of ranges.now) line result }
    ensures zeros { AreZeros flows.new }
{
    let cycles = checker.table.len();
    if !pairs_exist(cycles, &checker.claim, pairs) {
        return Some(Refusal::NoSuch { line });
    }
    let Some(least) = least_of(&checker.claim) else {
        return Some(Refusal::BoundInInfeasible { line });
    };
    let more = names_more(cycles, pairs);
    let value = value_of(checker, ranges, pairs, more, true, flows, rates);
    if !reaches(value, scale_of(&checker.claim, more), least) {
        return Some(Refusal::LeafBelow { line });
    }
    None
}

/// What is wrong with a leaf that should show that no timetable lies in the node.
fn judge_nothing<P: Elements<Pair>>(
    checker: &Checker<'_>,
    ranges: &Ranges,
    pairs: P,
    line: u64,
    flows: &mut [i128],
    rates: &mut [Rates],
) -> Option<Refusal>
    requires ranges { AreRanges checker.now.instance.now ranges.now }
    requires cycles { length ranges.now.offsets.items ≡ length checker.now.table.now }
    requires limits { ArePairLimits (P.elements pairs) }
    requires long { length flows.old ≡ length checker.now.instance.now.rows }
    requires room { HasRoom checker.now.claim (length checker.now.instance.now.rows) (length rates.old) }
    requires zeros { AreZeros flows.old }
    ensures verdict { (walks : List (List SignedRow)) (claim : trees.Claim)
        → AreNets (length checker.now.instance.now.rows) walks checker.now.table.now
        → TellsOf checker.now.claim claim
        → IsLeafVerdict claim (net_of checker.now.instance.now) walks (trees.Nothing (P.elements pairs))
        (node_of ranges.now) line result }
    ensures zeros { AreZeros flows.new }
{
    let cycles = checker.table.len();
    if !pairs_exist(cycles, &checker.claim, pairs) {
        return Some(Refusal::NoSuch { line });
    }
    let more = names_more(cycles, pairs);
    let value = value_of(checker, ranges, pairs, more, false, flows, rates);
    if !is_positive(value) {
        return Some(Refusal::NotEmpty { line });
    }
    None
}

/// What is wrong with a leaf that should name a cycle with no offset left.
fn judge_gap(checker: &Checker<'_>, ranges: &Ranges, cycle: u32, line: u64) -> Option<Refusal>
    requires ranges { AreRanges checker.now.instance.now ranges.now }
    requires cycles { length ranges.now.offsets.items ≡ length checker.now.table.now }
    ensures { (walks : List (List SignedRow)) (claim : trees.Claim)
        → AreNets (length checker.now.instance.now.rows) walks checker.now.table.now
        → IsLeafVerdict claim (net_of checker.now.instance.now) walks (trees.Gap cycle)
        (node_of ranges.now) line result }
{
    if !names(checker.table.len(), cycle) {
        return Some(Refusal::NoSuch { line });
    }
    let place = cycle as usize - 1;
    let left = offsets_left(
        checker.instance,
        checker.table[place].counts(),
        &ranges.slacks,
        ranges.offsets[place],
    );
    if left.is_some() {
        return Some(Refusal::NotAGap { line });
    }
    None
}

/// What is wrong with a leaf at a node. The flows, one a row, are 0 before and after. Behind a front there are as many rates;
/// without one there may be none.
pub fn judge_leaf<P: Elements<Pair>>(
    checker: &Checker<'_>,
    ranges: &Ranges,
    leaf: LeafLine<P>,
    line: u64,
    flows: &mut [i128],
    rates: &mut [Rates],
) -> Option<Refusal>
    requires ranges { AreRanges checker.now.instance.now ranges.now }
    requires cycles { length ranges.now.offsets.items ≡ length checker.now.table.now }
    requires limits { KeepsLeafLimits P.elements leaf }
    requires long { length flows.old ≡ length checker.now.instance.now.rows }
    requires room { HasRoom checker.now.claim (length checker.now.instance.now.rows) (length rates.old) }
    requires zeros { AreZeros flows.old }
    ensures verdict { (walks : List (List SignedRow)) (claim : trees.Claim)
        → AreNets (length checker.now.instance.now.rows) walks checker.now.table.now
        → TellsOf checker.now.claim claim
        → IsLeafVerdict claim (net_of checker.now.instance.now) walks (leaf_said P.elements leaf)
        (node_of ranges.now) line result }
    ensures zeros { AreZeros flows.new }
{
    match leaf {
        LeafLine::Bound(pairs) => judge_bound(checker, ranges, pairs, line, flows, rates),
        LeafLine::Nothing(pairs) => judge_nothing(checker, ranges, pairs, line, flows, rates),
        LeafLine::Gap(cycle) => judge_gap(checker, ranges, cycle, line),
    }
}
