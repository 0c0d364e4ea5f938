//! A first timetable, by fixing one event after another.

ghost use Rattle.std.specs.Prelude.{◌≡◌, ℕ, ◌<◌, ◌≤◌, length, IfOk, IfSome};
ghost use Rattle.pesp_problem.specs.NetTimetables.{IsNetTimetable};
ghost use Rattle.pesp_network.specs.Networks.{net_of_network};
ghost use Rattle.pesp_domains.specs.Domains.{HaveSizes};
ghost use Rattle.pesp_domains.specs.Rows.{network_rows};

use crate::choice::Experience;
use pesp_domains::{Domains, Outcome, Rows};
use pesp_network::Network;
use pesp_problem::{Arc, Memory};
use std::alloc::Global;

/// How many values a try may find impossible before it gives up.
const MOST_FAILURES: u32 = 60;

/// By how many sixteenths chance may raise what a difference costs, from the second try on.
const MOST_CHANCE: u32 = 8;

/// How many events are fixed until the sets are saved again: where a value is impossible, all since then are fixed anew.
const MOST_UNSAVED: usize = 256;

/// The slack range of an arc from 0 to its span.
fn range_of(arc: &Arc) -> (u32, u32) {
    (0, arc.span)
}

/// The differences of an event with one each, as times: each component's first event is at time 0.
fn times_of(alloc: Global, domains: &Domains) -> Result<Vec<u32>, Memory> {
    let mut times = Vec::new(alloc);
    for event in 0..domains.events() {
        times.push(domains.least(event))?;
    }
    Ok(times)
}

/// An event that is fixed to a difference.
#[derive(Clone, Copy)]
struct Fixed {
    event: u32,
    difference: u32,
}

/// Notes what was fixed since the sets were saved, and saves them again after so many.
fn note_fixed(
    domains: &Domains,
    saved: &mut Domains,
    trail: &mut Vec<Fixed>,
    fixed: Fixed,
) -> Result<(), Memory>
    requires saved { HaveSizes domains.now.period domains.now.events saved.old }
    ensures saved { HaveSizes domains.now.period domains.now.events saved.new }
{
    trail.push(fixed)?;
    if trail.len() >= MOST_UNSAVED {
        saved.copy_from(domains);
        trail.clear();
    }
    Ok(())
}

/// Goes back to the saved sets, and fixes again what was fixed since then.
fn restore(
    alloc: Global,
    rows: &Rows,
    ranges: &[(u32, u32)],
    domains: &mut Domains,
    saved: &Domains,
    trail: &[Fixed],
) -> Result<(), Memory>
    requires sizes { HaveSizes rows.now.period rows.now.events domains.old }
    requires saved { HaveSizes rows.now.period rows.now.events saved.now }
    requires ranges { length ranges.now ≡ length rows.now.arcs }
    ensures sizes { HaveSizes rows.now.period rows.now.events domains.new }
{
    domains.copy_from(saved);
    for fixed in trail {
        if fixed.event < saved.events() {
            domains.keep_alone(fixed.event, fixed.difference);
            rows.settle_at(alloc, domains, ranges, fixed.event)?;
        }
    }
    Ok(())
}

/// Fixes an event to a value, or takes the value away where some set would be empty; tells whether it is fixed.
fn fix(
    alloc: Global,
    rows: &Rows,
    ranges: &[(u32, u32)],
    domains: &mut Domains,
    saved: &mut Domains,
    trail: &mut Vec<Fixed>,
    fixed: Fixed,
) -> Result<bool, Memory>
    requires sizes { HaveSizes rows.now.period rows.now.events domains.old }
    requires saved { HaveSizes rows.now.period rows.now.events saved.old }
    requires ranges { length ranges.now ≡ length rows.now.arcs }
    requires event { fixed.event < rows.now.events }
    ensures sizes { HaveSizes rows.now.period rows.now.events domains.new }
    ensures saved { HaveSizes rows.now.period rows.now.events saved.new }
{
    domains.keep_alone(fixed.event, fixed.difference);
    if rows.settle_at(alloc, domains, ranges, fixed.event)? == Outcome::Stable {
        note_fixed(domains, saved, trail, fixed)?;
        return Ok(true);
    }
    restore(alloc, rows, ranges, domains, saved, trail)?;
    domains.remove(fixed.event, fixed.difference);
    Ok(false)
}

/// Goes on from what is left behind a value that was impossible, and saves it; tells whether no set is empty.
fn go_on(
    alloc: Global,
    rows: &Rows,
    ranges: &[(u32, u32)],
    domains: &mut Domains,
    saved: &mut Domains,
    trail: &mut Vec<Fixed>,
    event: u32,
) -> Result<bool, Memory>
    requires sizes { HaveSizes rows.now.period rows.now.events domains.old }
    requires saved { HaveSizes rows.now.period rows.now.events saved.old }
    requires ranges { length ranges.now ≡ length rows.now.arcs }
    requires event { event < rows.now.events }
    ensures sizes { HaveSizes rows.now.period rows.now.events domains.new }
    ensures saved { HaveSizes rows.now.period rows.now.events saved.new }
{
    if rows.settle_at(alloc, domains, ranges, event)? != Outcome::Stable {
        return Ok(false);
    }
    saved.copy_from(domains);
    trail.clear();
    Ok(true)
}

/// One event after another is fixed: a timetable, or None where too many values were impossible.
fn fix_all(
    alloc: Global,
    rows: &Rows,
    ranges: &[(u32, u32)],
    domains: &mut Domains,
    saved: &mut Domains,
    trail: &mut Vec<Fixed>,
    experience: &mut Experience,
) -> Result<Option<Vec<u32>>, Memory>
    requires sizes { HaveSizes rows.now.period rows.now.events domains.old }
    requires saved { HaveSizes rows.now.period rows.now.events saved.old }
    requires ranges { length ranges.now ≡ length rows.now.arcs }
{
    let mut failed = 0u32;
    'turns: for _ in 0..domains.events().saturating_add(MOST_FAILURES) {
        let Some(event) = experience.choose_event(domains) else {
            return Ok(Some(times_of(alloc, domains)?));
        };
        let difference = experience.choose_difference(domains, rows, event);
        let fixed = Fixed { event, difference };
        if fix(alloc, rows, ranges, domains, saved, trail, fixed)? {
            continue;
        }
        experience.note_failure(event);
        failed = failed.saturating_add(1);
        let goes_on = go_on(alloc, rows, ranges, domains, saved, trail, event)?;
        if failed > MOST_FAILURES || !goes_on {
            return Ok(None);
        }
    }
    Ok(None)
}

/// One try: a timetable, or None where too many values were impossible.
fn descend(
    alloc: Global,
    rows: &Rows,
    ranges: &[(u32, u32)],
    start: &Domains,
    experience: &mut Experience,
) -> Result<Option<Vec<u32>>, Memory>
    requires start { HaveSizes rows.now.period rows.now.events start.now }
    requires ranges { length ranges.now ≡ length rows.now.arcs }
{
    let mut domains = start.copy(alloc)?;
    let mut saved = start.copy(alloc)?;
    let mut trail = Vec::new(alloc);
    fix_all(
        alloc,
        rows,
        ranges,
        &mut domains,
        &mut saved,
        &mut trail,
        experience,
    )
}

/// What a try found, where it is a timetable.
fn tested(network: &Network, found: Option<Vec<u32>>) -> Option<Vec<u32>>
    ensures { IfSome result
        (λ times. IsNetTimetable (net_of_network network.now) network.now.events times.items) }
{
    let times = found?;
    if network.is_timetable(&times) {
        Some(times)
    } else {
        None
    }
}

/// So many tries, each from what all rows support.
fn try_from(
    alloc: Global,
    network: &Network,
    rows: &Rows,
    ranges: &[(u32, u32)],
    start: &mut Domains,
    experience: &mut Experience,
    tries: u32,
) -> Result<Option<Vec<u32>>, Memory>
    requires start { HaveSizes rows.now.period rows.now.events start.old }
    requires ranges { length ranges.now ≡ length rows.now.arcs }
    ensures { IfOk result (λ found. IfSome found
        (λ times. IsNetTimetable (net_of_network network.now) network.now.events times.items)) }
{
    if rows.settle_all(alloc, start, ranges)? != Outcome::Stable {
        return Ok(None);
    }
    for attempt in 0..tries {
        experience.allow_chance(if attempt == 0 { 0 } else { MOST_CHANCE });
        let found = descend(alloc, rows, ranges, start, experience)?;
        let timetable = tested(network, found);
        if timetable.is_some() {
            return Ok(timetable);
        }
    }
    Ok(None)
}

/// So many tries with the rows of a network.
fn try_rows(
    alloc: Global,
    network: &Network,
    rows: &Rows,
    experience: &mut Experience,
    tries: u32,
) -> Result<Option<Vec<u32>>, Memory>
    requires { rows.now ≡ network_rows network.now }
    ensures { IfOk result (λ found. IfSome found
        (λ times. IsNetTimetable (net_of_network network.now) network.now.events times.items)) }
{
    let ranges: Vec<(u32, u32)> = rows.arcs().iter().map(range_of).collect(alloc)?;
    let mut start = Domains::full(alloc, network)?;
    try_from(alloc, network, rows, &ranges, &mut start, experience, tries)
}

/// So many tries with some experience.
fn try_again(
    alloc: Global,
    network: &Network,
    tries: u32,
    targets: Vec<u32>,
) -> Result<Option<Vec<u32>>, Memory>
    ensures { IfOk result (λ found. IfSome found
        (λ times. IsNetTimetable (net_of_network network.now) network.now.events times.items)) }
{
    let mut experience = Experience::new(alloc, network.events(), network.period(), targets)?;
    let rows = Rows::of(alloc, network)?;
    try_rows(alloc, network, &rows, &mut experience, tries)
}

/// The differences to the first event of their component that prices give, at the period.
fn targets_of(alloc: Global, network: &Network, prices: &[i64]) -> Result<Vec<u32>, Memory> {
    let period = i64::from(network.period());
    let mut targets = Vec::new(alloc);
    for event in 0..network.events() {
        let first = network.first_of(event);
        let price = prices.get(event as usize).copied().unwrap_or(0);
        let least = prices.get(first as usize).copied().unwrap_or(0);
        let target = price
            .saturating_sub(least)
            .checked_rem_euclid(period)
            .unwrap_or(0);
        targets.push(u32::try_from(target).unwrap_or(0))?;
    }
    Ok(targets)
}

/// Looks for a timetable, in so many tries at most: one time for each event at which each row's slack is at most its span.
/// None says nothing. Every call gives the same.
///
/// A try fixes the event with the fewest differences left to the one that costs least by what is left of its neighbours,
/// propagates from there, and takes a value away that turns out to be impossible.
pub fn dive(alloc: Global, network: &Network, tries: u32) -> Result<Option<Vec<u32>>, Memory>
    ensures { IfOk result (λ found. IfSome found
        (λ times. IsNetTimetable (net_of_network network.now) network.now.events times.items)) }
{
    try_again(alloc, network, tries, Vec::new(alloc))
}

/// Looks for a timetable near to prices, one for each event, as `dive` does but that a try fixes an event to the difference
/// nearest to that of the prices at the period. An event without a price has the price 0.
pub fn dive_to(
    alloc: Global,
    network: &Network,
    prices: &[i64],
    tries: u32,
) -> Result<Option<Vec<u32>>, Memory>
    ensures { IfOk result (λ found. IfSome found
        (λ times. IsNetTimetable (net_of_network network.now) network.now.events times.items)) }
{
    let targets = targets_of(alloc, network, prices)?;
    try_again(alloc, network, tries, targets)
}
