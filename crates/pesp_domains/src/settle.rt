//! Differences without partners are taken away until each that is left has one, or a set is empty.

ghost use Rattle.std.specs.Prelude.{◌≡◌, ℕ, ◌+◌, ◌-◌, ◌<◌, ◌≤◌, ◌≢◌, ◌⊎◌, length, true, false, All, Contains, [], IfOk, IfSome, IfNone, OnOk, Ok, Some, None, vec_len};
ghost use Rattle.pesp_problem.specs.declared.limits.TheConstants.{MOST_ROWS};
ghost use Rattle.pesp_problem.specs.Arcs.{arc_at, tail_of, head_of};
ghost use Rattle.pesp_domains.specs.Domains.{family_of, HaveSizes};
ghost use Rattle.pesp_network.specs.Chains.{AreChains};
ghost use Rattle.pesp_problem.specs.ArcLimits.{HaveEnds};
ghost use Rattle.pesp_domains.specs.declared.outcome.Outcome.{Outcome};
ghost use Rattle.pesp_domains.specs.Waiting.{waits_at, WaitingGrows, WaitingAreListed};
ghost use Rattle.pesp_domains.specs.Outcomes.{Shrinks, IsOutcome, LeavesSupported};
ghost use Rattle.pesp_domains.specs.Visits.{net_at, sets_at, RestIsSupported, VisitsRow, IsRowVisit, IsPass, IsEmptyAt};

use crate::domains::Domains;
use crate::outcome::Outcome;
use crate::waiting::Waiting;
use pesp_network::Chains;
use pesp_problem::{Arc, Memory};
use std::alloc::Global;
use std::mem;

/// Where the set of an event is another, the rows at it wait, but for the one that changed it; or the set is empty.
fn pass_on(
    domains: &Domains,
    arcs: &[Arc],
    chains: &Chains,
    waiting: &mut Waiting,
    changed: bool,
    event: u32,
    row: u32,
) -> Result<Option<u32>, Memory>
    requires event { event < domains.now.events }
    requires row { row < length arcs.now }
    requires count { length arcs.now ≤ MOST_ROWS }
    requires chains { AreChains arcs.now domains.now.events chains.now }
    requires long { vec_len waiting.old.flags ≡ length arcs.now }
    ensures empty { IfOk result
        (λ o. IfSome o (λ e. IsEmptyAt domains.now.period domains.now.events domains.now.words e)) }
    ensures grows { WaitingGrows waiting.old waiting.new }
    ensures woken { result ≡ Ok None → changed ≡ true → (k : ℕ) → 0 < k → k ≤ length arcs.now
        → (tail_of arcs.now k ≡ event) ⊎ (head_of arcs.now k ≡ event) → k ≢ row + 1
        → waits_at waiting.new (k - 1) ≡ true }
    ensures quiet { changed ≡ false → waiting.new.rows.items ≡ waiting.old.rows.items }
{
    if !changed {
        return Ok(None);
    }
    if domains.has_none(event) {
        return Ok(Some(event));
    }
    waiting.wake(arcs, chains, event, row + 1)?;
    Ok(None)
}

/// A row takes away what it does not support, and gives an event whose set is empty then.
fn visit(
    domains: &mut Domains,
    arcs: &[Arc],
    ranges: &[(u32, u32)],
    chains: &Chains,
    waiting: &mut Waiting,
    row: u32,
) -> Result<Option<u32>, Memory>
    requires row { row < length arcs.now }
    requires count { length arcs.now ≤ MOST_ROWS }
    requires ends { HaveEnds domains.old.events arcs.now }
    requires ranges { length ranges.now ≡ length arcs.now }
    requires chains { AreChains arcs.now domains.old.events chains.now }
    requires long { vec_len waiting.old.flags ≡ length arcs.now }
    ensures sizes { HaveSizes domains.old.period domains.old.events domains.new }
    ensures takes { VisitsRow domains.old.period arcs.now ranges.now row domains.old.words
        domains.new.words }
    ensures visit { IfOk result (IsRowVisit domains.old.period domains.old.events arcs.now row
        domains.old.words domains.new.words waiting.old waiting.new) }
{
    waiting.leave(row);
    let arc = arcs[row as usize];
    let range = ranges[row as usize];
    let changed = domains.revise(&arc, range);
    let at_tail = pass_on(domains, arcs, chains, waiting, changed.tail, arc.tail, row)?;
    if at_tail.is_some() {
        return Ok(at_tail);
    }
    pass_on(domains, arcs, chains, waiting, changed.head, arc.head, row)
}

/// The rows of a line are visited in order.
fn pass(
    domains: &mut Domains,
    arcs: &[Arc],
    ranges: &[(u32, u32)],
    chains: &Chains,
    waiting: &mut Waiting,
    line: &[u32],
) -> Result<Option<u32>, Memory>
    requires line { All (λ row. row < length arcs.now) line.now }
    requires count { length arcs.now ≤ MOST_ROWS }
    requires ends { HaveEnds domains.old.events arcs.now }
    requires ranges { length ranges.now ≡ length arcs.now }
    requires chains { AreChains arcs.now domains.old.events chains.now }
    requires long { vec_len waiting.old.flags ≡ length arcs.now }
    requires listed { (row : ℕ) → waits_at waiting.old row ≡ true → Contains line.now row }
    requires none { waiting.old.rows.items ≡ [] }
    ensures sizes { HaveSizes domains.old.period domains.old.events domains.new }
    ensures shrinks { Shrinks (net_at domains.old.period arcs.now) ranges.now
        (sets_at domains.old.period domains.old.words)
        (sets_at domains.old.period domains.new.words) }
    ensures pass { IfOk result (IsPass domains.old.period domains.old.events arcs.now ranges.now
        line.now domains.old.words domains.new.words waiting.old waiting.new) }
{
    for row in line {
        let empty = visit(domains, arcs, ranges, chains, waiting, *row)?;
        if empty.is_some() {
            return Ok(empty);
        }
    }
    Ok(None)
}

/// Whether some set is empty.
fn outcome_of(domains: &Domains) -> Outcome
    ensures { IsOutcome domains.now.events (family_of domains.now) result }
{
    for event in 0..domains.events() {
        if domains.has_none(event) {
            return Outcome::Empty { event };
        }
    }
    Outcome::Stable
}

/// Takes away differences without partners, row after row of those that wait, until no row waits or a visited row leaves a
/// set empty; gives that set's event.
pub fn visit_waiting(
    alloc: Global,
    domains: &mut Domains,
    arcs: &[Arc],
    ranges: &[(u32, u32)],
    chains: &Chains,
    mut waiting: Waiting,
) -> Result<Option<u32>, Memory>
    requires count { length arcs.now ≤ MOST_ROWS }
    requires ends { HaveEnds domains.old.events arcs.now }
    requires ranges { length ranges.now ≡ length arcs.now }
    requires chains { AreChains arcs.now domains.old.events chains.now }
    requires listed { WaitingAreListed (length arcs.now) waiting }
    ensures sizes { HaveSizes domains.old.period domains.old.events domains.new }
    ensures shrinks { Shrinks (net_at domains.old.period arcs.now) ranges.now
        (sets_at domains.old.period domains.old.words)
        (sets_at domains.old.period domains.new.words) }
    ensures empty { IfOk result
        (λ o. IfSome o (λ e. IsEmptyAt domains.old.period domains.old.events domains.new.words e)) }
    ensures supported { (outcome : Outcome) → RestIsSupported domains.old.period arcs.now ranges.now
        waiting domains.old.words → result ≡ Ok None
        → LeavesSupported (net_at domains.old.period arcs.now) ranges.now
        (sets_at domains.old.period domains.new.words) outcome }
{
    'passes: while !waiting.rows.is_empty() {
        let line = mem::replace(&mut waiting.rows, Vec::new(alloc));
        if let Some(event) = pass(domains, arcs, ranges, chains, &mut waiting, &line)? {
            return Ok(Some(event));
        }
    }
    Ok(None)
}

/// Takes away differences without partners, row after row of those that wait, until no row waits or a set is empty.
pub fn settle(
    alloc: Global,
    domains: &mut Domains,
    arcs: &[Arc],
    ranges: &[(u32, u32)],
    chains: &Chains,
    waiting: Waiting,
) -> Result<Outcome, Memory>
    requires count { length arcs.now ≤ MOST_ROWS }
    requires ends { HaveEnds domains.old.events arcs.now }
    requires ranges { length ranges.now ≡ length arcs.now }
    requires chains { AreChains arcs.now domains.old.events chains.now }
    requires listed { WaitingAreListed (length arcs.now) waiting }
    ensures sizes { HaveSizes domains.old.period domains.old.events domains.new }
    ensures shrinks { Shrinks (net_at domains.old.period arcs.now) ranges.now
        (sets_at domains.old.period domains.old.words)
        (sets_at domains.old.period domains.new.words) }
    ensures outcome { IfOk result
        (IsOutcome domains.old.events (sets_at domains.old.period domains.new.words)) }
    ensures supported { RestIsSupported domains.old.period arcs.now ranges.now waiting
        domains.old.words → IfOk result (LeavesSupported (net_at domains.old.period arcs.now)
        ranges.now (sets_at domains.old.period domains.new.words)) }
{
    match visit_waiting(alloc, domains, arcs, ranges, chains, waiting)? {
        Some(event) => Ok(Outcome::Empty { event }),
        None => Ok(outcome_of(domains)),
    }
}
