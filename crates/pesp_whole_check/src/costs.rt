//! What the lines of a valid certificate's tree show.

ghost use Rattle.std.specs.Prelude.{◌≡◌, ◌≢◌, ℕ, ◌<◌, ◌≤◌, List, [], ◌∷◌, length, drop, All, IfOk, OnOk, option_map};
ghost use Rattle.pesp_problem.specs.declared.row.SignedRow.{SignedRow};
ghost use Rattle.pesp_problem.specs.declared.limits.TheConstants.{MOST_CYCLES};
ghost use Rattle.pesp_problem.specs.Arcs.{arcs_of, net_of};
ghost use Rattle.pesp_problem.specs.Sums as sums;
ghost use Rattle.pesp_problem.specs.Walks.{IsWalk};
ghost use Rattle.pesp_problem.specs.Nodes.{Node};
ghost use Rattle.pesp_problem.specs.Nets.{AreZeros, AreNets};
ghost use Rattle.pesp_truth.specs.Trees as trees;
ghost use Rattle.pesp_truth.specs.Certificates.{IsValid, claim_of};
ghost use Rattle.pesp_truth.specs.Certificates as spec;
ghost use Rattle.pesp_leaves.specs.Ranges.{node_of, AreRanges};
ghost use Rattle.pesp_leaves.specs.Flows.{ArePairLimits};
ghost use Rattle.pesp_leaves.specs.Claims.{HasRoom, NamesTold, TellsOf};
ghost use Rattle.pesp_judges.specs.Lines.{after};
ghost use Rattle.pesp_judges.specs.SaidLines.{line_said, KeepsSaidLimits};
ghost use Rattle.pesp_judges.specs.LeafLines.{leaf_said, KeepsLeafLimits};
ghost use Rattle.pesp_whole_check.specs.Inner.{IsSoundTree};
ghost use Rattle.pesp_whole_check.specs.Costs as costs;
ghost use Rattle.pesp_whole_check.specs.Costs.{LeafIsNamed, LineIsNamed, line_shows, shown_at, shown_of};

use crate::lemma_check::facts_of;
use crate::room::{claim_over, room_for};
use crate::whole_check::marks_of;
use pesp_cert::{Certificate, Front, Fronted};
use pesp_judges::{
    Checker, Elements, LeafLine, Nets, NodeWalk, Ranges, SaidLine, judge_cycles, names_more, root,
    said_by, scale_of, value_of, zeros,
};
use pesp_problem::exact::ceil_div;
use pesp_problem::{Instance, Memory, Pair, Rates};
use pesp_truth::laws::lines_are_sound_as_tree;
use std::alloc::{AllocError, Global};

/// The greatest cost that is told.
const MOST_TOLD: i128 = 999_999_999_999_999_999;

/// Above this value, by whatever scale, the greatest cost is told.
const MOST_VALUE: i128 = 1_000_000_000_000_000_000_000_000;

/// A cost as it is told.
fn told(cost: i128) -> u64
    ensures { result ≡ costs.told cost }
{
    if cost < 0 {
        0
    } else if cost > MOST_TOLD {
        999_999_999_999_999_999
    } else {
        cost as u64
    }
}

/// A value by a scale, rounded up, as it is told.
fn told_by(value: i128, scale: u32) -> u64
    requires some { 0 < scale }
    requires most { scale ≤ 1000000 }
    ensures { result ≡ costs.told (sums.ceil_div value scale) }
{
    if value > MOST_VALUE {
        return 999_999_999_999_999_999;
    }
    if value < 0 {
        return 0;
    }
    told(ceil_div(value, scale))
}

/// What a value by a scale shows; none where there is no value.
fn shown_by(value: Option<i128>, scale: u32) -> Option<u64>
    requires some { 0 < scale }
    requires most { scale ≤ 1000000 }
    ensures { result ≡ option_map costs.told (option_map (λ v. sums.ceil_div v scale) value) }
{
    match value {
        Some(value) => Some(told_by(value, scale)),
        None => None,
    }
}

/// What a bound leaf with these pairs shows at a node; none where a cycle of a pair has no offset left.
fn cost_at<P: Elements<Pair>>(
    checker: &Checker<'_>,
    ranges: &Ranges,
    pairs: P,
    flows: &mut [i128],
    rates: &mut [Rates],
) -> Option<u64>
    requires ranges { AreRanges checker.now.instance.now ranges.now }
    requires cycles { length ranges.now.offsets.items ≡ length checker.now.table.now }
    requires named { NamesTold checker.now.claim (length checker.now.table.now) (P.elements pairs) }
    requires limits { ArePairLimits (P.elements pairs) }
    requires long { length flows.old ≡ length checker.now.instance.now.rows }
    requires room { HasRoom checker.now.claim (length checker.now.instance.now.rows) (length rates.old) }
    requires zeros { AreZeros flows.old }
    ensures shown { (walks : List (List SignedRow)) (claim : trees.Claim)
        → AreNets (length checker.now.instance.now.rows) walks checker.now.table.now
        → TellsOf checker.now.claim claim
        → result ≡ shown_at claim (net_of checker.now.instance.now) walks (trees.Bound (P.elements pairs)) (node_of ranges.now) }
    ensures zeros { AreZeros flows.new }
{
    let more = names_more(checker.table.len(), pairs);
    let value = value_of(checker, ranges, pairs, more, true, flows, rates);
    shown_by(value, scale_of(&checker.claim, more))
}

/// What a leaf shows at a node; none where it is no bound leaf.
fn leaf_cost<P: Elements<Pair>>(
    checker: &Checker<'_>,
    ranges: &Ranges,
    leaf: LeafLine<P>,
    flows: &mut [i128],
    rates: &mut [Rates],
) -> Option<u64>
    requires ranges { AreRanges checker.now.instance.now ranges.now }
    requires cycles { length ranges.now.offsets.items ≡ length checker.now.table.now }
    requires named { LeafIsNamed checker.now.claim (length checker.now.table.now) (leaf_said P.elements leaf) }
    requires limits { KeepsLeafLimits P.elements leaf }
    requires long { length flows.old ≡ length checker.now.instance.now.rows }
    requires room { HasRoom checker.now.claim (length checker.now.instance.now.rows) (length rates.old) }
    requires zeros { AreZeros flows.old }
    ensures shown { (walks : List (List SignedRow)) (claim : trees.Claim)
        → AreNets (length checker.now.instance.now.rows) walks checker.now.table.now
        → TellsOf checker.now.claim claim
        → result ≡ shown_at claim (net_of checker.now.instance.now) walks (leaf_said P.elements leaf) (node_of ranges.now) }
    ensures zeros { AreZeros flows.new }
{
    match leaf {
        LeafLine::Bound(pairs) => cost_at(checker, ranges, pairs, flows, rates),
        LeafLine::Nothing(_) | LeafLine::Gap(_) => None,
    }
}

/// Passes a leaf: what it shows at the first of the nodes that wait. The next one is the first then.
fn pass_leaf<P: Elements<Pair>>(
    checker: &Checker<'_>,
    walk: &mut NodeWalk<'_>,
    leaf: LeafLine<P>,
    flows: &mut [i128],
    rates: &mut [Rates],
) -> Option<u64>
    requires problem { walk.old.problem ≡ checker.now.instance.now }
    requires cycles { walk.old.cycles ≡ length checker.now.table.now }
    requires waits { walk.old.nodes ≢ [] }
    requires named { LeafIsNamed checker.now.claim (length checker.now.table.now) (leaf_said P.elements leaf) }
    requires limits { KeepsLeafLimits P.elements leaf }
    requires long { length flows.old ≡ length checker.now.instance.now.rows }
    requires room { HasRoom checker.now.claim (length checker.now.instance.now.rows) (length rates.old) }
    requires zeros { AreZeros flows.old }
    ensures problem { walk.new.problem ≡ checker.now.instance.now }
    ensures cycles { walk.new.cycles ≡ length checker.now.table.now }
    ensures shown { (walks : List (List SignedRow)) (claim : trees.Claim)
        → AreNets (length checker.now.instance.now.rows) walks checker.now.table.now
        → TellsOf checker.now.claim claim → (node : Node) × (rest : List Node) × (walk.old.nodes ≡ node ∷ rest)
        × (result ≡ shown_at claim (net_of checker.now.instance.now) walks
        (leaf_said P.elements leaf) node) }
    ensures nodes { walk.new.nodes ≡ drop 1 walk.old.nodes }
    ensures zeros { AreZeros flows.new }
{
    let shown = leaf_cost(checker, walk.ranges(), leaf, flows, rates);
    walk.leaf();
    shown
}

/// Passes a line of the tree: what it shows at the first of the nodes that wait. The next nodes wait then.
fn pass_line<P: Elements<Pair>>(
    checker: &Checker<'_>,
    walk: &mut NodeWalk<'_>,
    said: SaidLine<P>,
    flows: &mut [i128],
    rates: &mut [Rates],
) -> Result<Option<u64>, AllocError>
    requires problem { walk.old.problem ≡ checker.now.instance.now }
    requires cycles { walk.old.cycles ≡ length checker.now.table.now }
    requires waits { walk.old.nodes ≢ [] }
    requires named { LineIsNamed checker.now.claim (length checker.now.instance.now.rows) (length checker.now.table.now)
        (line_said P.elements said) }
    requires limits { KeepsSaidLimits P.elements said }
    requires long { length flows.old ≡ length checker.now.instance.now.rows }
    requires room { HasRoom checker.now.claim (length checker.now.instance.now.rows) (length rates.old) }
    requires zeros { AreZeros flows.old }
    ensures problem { walk.new.problem ≡ checker.now.instance.now }
    ensures cycles { walk.new.cycles ≡ length checker.now.table.now }
    ensures shown { IfOk result (λ shown. (walks : List (List SignedRow)) (claim : trees.Claim)
        → AreNets (length checker.now.instance.now.rows) walks checker.now.table.now
        → TellsOf checker.now.claim claim → (node : Node) × (rest : List Node) × (walk.old.nodes ≡ node ∷ rest)
        × (shown ≡ line_shows claim (net_of checker.now.instance.now) walks
        (line_said P.elements said) node)) }
    ensures nodes { OnOk result
        (walk.new.nodes ≡ after (line_said P.elements said) walk.old.nodes) }
    ensures zeros { AreZeros flows.new }
{
    match said {
        SaidLine::Leaf(leaf) => Ok(pass_leaf(checker, walk, leaf, flows, rates)),
        SaidLine::Branch(cut) => {
            walk.branch(cut)?;
            Ok(None)
        }
        SaidLine::Propagated => {
            walk.leaf();
            Ok(None)
        }
    }
}

/// What the lines of a certificate's sound tree show.
fn tree_costs(
    alloc: Global,
    checker: &Checker<'_>,
    front: &Option<Front>,
    certificate: &Certificate,
    flows: &mut [i128],
    rates: &mut [Rates],
) -> Result<Vec<Option<u64>>, AllocError>
    requires nets { AreNets (length checker.now.instance.now.rows) certificate.now.cycles
        checker.now.table.now }
    requires told { TellsOf checker.now.claim (claim_of front.now (net_of checker.now.instance.now) (spec.least_of certificate.now.answer)) }
    requires sound { IsSoundTree front.now checker.now.instance.now certificate.now }
    requires long { length flows.old ≡ length checker.now.instance.now.rows }
    requires room { HasRoom checker.now.claim (length checker.now.instance.now.rows) (length rates.old) }
    requires zeros { AreZeros flows.old }
    ensures { IfOk result (λ shown. shown.items
        ≡ shown_of checker.now.instance.now (record { front = front.now; content = certificate.now })) }
{
    let ranges = root(alloc, checker.instance, checker.table)?;
    let mut walk = NodeWalk::new(alloc, checker.instance, ranges);
    let mut shown = Vec::new(alloc);
    for line in certificate.tree() {
        let cost = pass_line(checker, &mut walk, said_by(line), flows, rates)?;
        shown.push(cost)?;
    }
    Ok(shown)
}

/// The net counts of the cycles of a valid certificate.
fn table_of(
    alloc: Global,
    instance: &Instance,
    certificate: &Certificate,
    working: &mut [i128],
) -> Result<Vec<Nets>, Memory>
    requires walks { All (IsWalk (arcs_of instance.now)) certificate.now.cycles }
    requires long { length working.old ≡ length instance.now.rows }
    requires zeros { AreZeros working.old }
    ensures nets { IfOk result
        (λ table. AreNets (length instance.now.rows) certificate.now.cycles table.items) }
    ensures few { IfOk result (λ table. length table.items ≤ MOST_CYCLES) }
    ensures zeros { OnOk result (AreZeros working.new) }
{
    match judge_cycles(alloc, instance, certificate.cycles(), 0, working)? {
        Ok(table) => Ok(table),
        Err(_) => unreachable!(),
    }
}

/// What each line of a valid certificate's tree shows: a bound leaf its value by its scale, rounded up to a whole cost, one above
/// 999999999999999999 told as that number; None for every other line. The one refusal is of memory.
pub fn costs_shown(
    alloc: Global,
    instance: &Instance,
    certificate: &Fronted,
) -> Result<Vec<Option<u64>>, Memory>
    requires { IsValid certificate.now.front instance.now certificate.now.content }
    ensures { IfOk result (λ shown. shown.items ≡ shown_of instance.now certificate.now) }
{
    lines_are_sound_as_tree();
    let front = &certificate.front;
    let own = &certificate.certificate;
    let mut working = zeros(alloc, instance.rows().len())?;
    let facts = facts_of(alloc, front)?;
    let table = table_of(alloc, instance, own, &mut working)?;
    let mut room = room_for(alloc, instance, front.is_some())?;
    let least = own.answer().least();
    let claim = claim_over(marks_of(front), &facts, &room.arcs, &room.weights, least);
    let checker = Checker::new(instance, &table, claim);
    let rates = &mut room.rates;
    let shown = tree_costs(alloc, &checker, front, own, &mut working, rates)?;
    Ok(shown)
}
