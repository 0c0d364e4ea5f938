//! Times and a forest that were found are judged.

ghost use Rattle.std.specs.Prelude.{◌≡◌, ℕ, ◌<◌, ◌≤◌, ◌↔◌, List, IsTrue, IfOk, IfSome, IfErr, length, vec_len};
ghost use Rattle.pesp_problem.specs.declared.limits.TheConstants.{MOST_ROWS};
ghost use Rattle.pesp_problem.specs.Forests.{IsSpanningForest};
ghost use Rattle.pesp_problem.specs.ArcLimits.{KeepArcLimits};
ghost use Rattle.pesp_problem.specs.NetTimetables.{IsNetTimetable, net_cost};
ghost use Rattle.pesp_problem.specs.Roots.{AreRoots, AreTreeRows};
ghost use Rattle.pesp_propagate.specs.Rooted.{roots_of, IsFor};
ghost use Rattle.pesp_propagate.specs.Lists.{AreListed};
ghost use Rattle.pesp_propagate.specs.Local.{IsLocal};
ghost use Rattle.pesp_simplex.specs.Improvements.{IsImproved};

use crate::improved::{Improved, Stop};
use pesp_descent::{Descent, Low, count_rows, empty_lists, numbers_for};
use pesp_problem::net_times::{cost_of, is_timetable};
use pesp_problem::{Arc, Memory};
use pesp_propagate::{
    Cuts, MOST_ENTRIES, Rooted, are_cuts_best, is_rooted, lay_out, list_rows, slacks_of, tree_rows,
};
use std::alloc::Global;

/// Lists the rows of all cuts of a rooted forest, of which so many cross each; false where the lists have too little room.
fn list_cuts(arcs: &[Arc], rooted: &Rooted, counts: &[u32], cuts: &mut Cuts) -> bool
    requires lists { IsFor (vec_len rooted.now.by) rooted.now }
    requires trees { AreRoots (vec_len rooted.now.by) arcs.now (roots_of rooted.now) }
    requires few { length arcs.now ≤ MOST_ROWS }
    requires counts { length counts.now ≡ vec_len rooted.now.by }
    ensures { IsTrue result → AreListed (vec_len rooted.now.by) arcs.now (roots_of rooted.now)
        (length arcs.now) cuts.new }
{
    lay_out(cuts, counts) && list_rows(arcs, rooted, cuts)
}

/// The lists of all cuts of a rooted forest; None where they have more than `MOST_ENTRIES` entries.
fn cuts_of(
    alloc: Global,
    events: u32,
    arcs: &[Arc],
    rooted: &Rooted,
) -> Result<Option<Cuts>, Memory>
    requires lists { IsFor events rooted.now }
    requires trees { AreRoots events arcs.now (roots_of rooted.now) }
    requires few { length arcs.now ≤ MOST_ROWS }
    ensures { IfOk result
        (λ o. IfSome o (AreListed events arcs.now (roots_of rooted.now) (length arcs.now))) }
{
    let mut counts = vec![in alloc; 0u32; events as usize]?;
    let all = Low {
        heights: &[],
        most: u32::MAX,
    };
    let Some(total) = count_rows(rooted, &all, &mut counts, arcs, MOST_ENTRIES) else {
        return Ok(None);
    };
    let mut cuts = empty_lists(alloc, events as usize, total)?;
    if !list_cuts(arcs, rooted, &counts, &mut cuts) {
        return Ok(None);
    }
    Ok(Some(cuts))
}

/// Whether no shift of one side of a fundamental cut of the forest is cheaper; false also where the lists of the cuts
/// would be too long.
fn is_local(
    alloc: Global,
    period: u32,
    events: u32,
    arcs: &[Arc],
    times: &[u32],
    rooted: &Rooted,
) -> Result<bool, Memory>
    requires limits { KeepArcLimits period events arcs.now }
    requires count { length times.now ≡ events }
    requires lists { IsFor events rooted.now }
    requires trees { AreRoots events arcs.now (roots_of rooted.now) }
    ensures { IfOk result (λ yes. IsTrue yes → (forest : List ℕ)
        → AreTreeRows events (roots_of rooted.now) forest
        → IsLocal (record { period = period; arcs = arcs.now }) events forest times.now) }
{
    let slacks = slacks_of(alloc, period, arcs, times)?;
    let Some(cuts) = cuts_of(alloc, events, arcs, rooted)? else {
        return Ok(false);
    };
    let mut numbers = numbers_for(alloc, period)?;
    Ok(are_cuts_best(period, arcs, &slacks, rooted, &cuts, &mut numbers))
}

/// Why an improvement ended whose times were judged.
fn stop_of(local: bool) -> Stop
    ensures { (result ≡ Stop.Local) ↔ IsTrue local }
{
    if local { Stop::Local } else { Stop::Rounds }
}

/// Takes times and a rooted forest as found, judged; another forest stands in where these aren't trees that join all.
pub(crate) fn settle(
    alloc: Global,
    period: u32,
    events: u32,
    arcs: &[Arc],
    times: Vec<u32>,
    rooted: &Rooted,
    other: Vec<u32>,
) -> Result<Improved, Memory>
    requires limits { KeepArcLimits period events arcs.now }
    requires times { IsNetTimetable (record { period = period; arcs = arcs.now }) events
        times.items }
    requires other { IsSpanningForest arcs.now other.items }
    ensures { IfOk result
        (IsImproved (record { period = period; arcs = arcs.now }) events times.items) }
{
    let cost = cost_of(period, events, arcs, &times);
    if !is_rooted(events, arcs, rooted) {
        return Ok(Improved {
            times,
            cost,
            forest: other,
            stop: Stop::Rounds,
        });
    }
    let forest = tree_rows(alloc, arcs, rooted)?;
    let local = is_local(alloc, period, events, arcs, &times, rooted)?;
    Ok(Improved {
        times,
        cost,
        forest,
        stop: stop_of(local),
    })
}

/// The cheaper of two lists of times: the first where it is a timetable that is no dearer, else the second.
pub(crate) fn cheaper(
    alloc: Global,
    period: u32,
    events: u32,
    arcs: &[Arc],
    found: Vec<u32>,
    times: &[u32],
) -> Result<Vec<u32>, Memory>
    requires limits { KeepArcLimits period events arcs.now }
    requires times { IsNetTimetable (record { period = period; arcs = arcs.now }) events times.now }
    ensures timetable { IfOk result
        (λ v. IsNetTimetable (record { period = period; arcs = arcs.now }) events v.items) }
    ensures no_dearer { IfOk result (λ v. net_cost (record { period = period; arcs = arcs.now })
        v.items ≤ net_cost (record { period = period; arcs = arcs.now }) times.now) }
{
    if is_timetable(period, events, arcs, &found)
        && cost_of(period, events, arcs, &found) <= cost_of(period, events, arcs, times)
    {
        return Ok(found);
    }
    Ok(Vec::from_slice(alloc, times)?)
}

/// A descent from times.
fn descent_from(
    alloc: Global,
    period: u32,
    events: u32,
    arcs: &[Arc],
    times: &[u32],
    rounds: u32,
) -> Result<Descent, Memory>
    requires limits { KeepArcLimits period events arcs.now }
    requires times { IsNetTimetable (record { period = period; arcs = arcs.now }) events times.now }
{
    let slacks = slacks_of(alloc, period, arcs, times)?;
    let cost = i64::try_from(cost_of(period, events, arcs, times)).unwrap_or(i64::MAX);
    Descent::new(alloc, period, events, arcs, slacks, cost, rounds)
}

/// Runs a descent from times, and judges what it found.
fn improve_by(
    descent: &mut Descent,
    alloc: Global,
    period: u32,
    events: u32,
    arcs: &[Arc],
    times: &[u32],
    other: Vec<u32>,
) -> Result<Improved, Memory>
    requires limits { KeepArcLimits period events arcs.now }
    requires times { IsNetTimetable (record { period = period; arcs = arcs.now }) events times.now }
    requires other { IsSpanningForest arcs.now other.items }
    ensures { IfOk result
        (IsImproved (record { period = period; arcs = arcs.now }) events times.now) }
{
    descent.run(arcs)?;
    let found = descent.times(alloc, arcs)?.unwrap_or(Vec::new(alloc));
    let best = cheaper(alloc, period, events, arcs, found, times)?;
    settle(alloc, period, events, arcs, best, descent.rooted(), other)
}

/// Makes times cheaper in so many rounds, and judges what was found.
pub(crate) fn improve_times(
    alloc: Global,
    period: u32,
    events: u32,
    arcs: &[Arc],
    times: &[u32],
    other: Vec<u32>,
    rounds: u32,
) -> Result<Improved, Memory>
    requires limits { KeepArcLimits period events arcs.now }
    requires times { IsNetTimetable (record { period = period; arcs = arcs.now }) events times.now }
    requires other { IsSpanningForest arcs.now other.items }
    ensures { IfOk result
        (IsImproved (record { period = period; arcs = arcs.now }) events times.now) }
{
    let mut descent = descent_from(alloc, period, events, arcs, times, rounds)?;
    improve_by(&mut descent, alloc, period, events, arcs, times, other)
}
