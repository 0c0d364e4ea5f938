//! Times of a net's events: slacks, timetables and costs. The arcs keep the limits that every network keeps.

ghost use Rattle.std.specs.Prelude.{◌≡◌, ◌<◌, ◌≤◌, ◌↔◌, ◌-ℤ◌, IsTrue, All, length, unsigned_abs};
ghost use Rattle.pesp_problem.specs.declared.limits.TheConstants.{MOST_LOWER};
ghost use Rattle.pesp_problem.specs.Arcs as spec;
ghost use Rattle.pesp_problem.specs.ArcLimits.{KeepArcLimits};
ghost use Rattle.pesp_problem.specs.NetTimetables.{IsNetTimetable, net_cost};
ghost use Rattle.pesp_problem.specs.Timetables.{difference, remainder};

use crate::arc::Arc;

/// The remainder by the period of what the difference of two events' times exceeds a lower bound by.
pub(crate) fn slack_between(period: u32, times: &[u32], tail: u32, head: u32, lower: i64) -> u32
    requires some { 0 < period }
    requires tail { tail < length times.now }
    requires head { head < length times.now }
    requires lower { unsigned_abs lower ≤ MOST_LOWER }
    ensures value { result ≡ remainder period (difference times.now tail head -ℤ lower) }
    ensures below { result < period }
{
    let tail = i64::from(times[tail as usize]);
    let head = i64::from(times[head as usize]);
    let rest = (head - tail - lower).rem_euclid(i64::from(period));
    rest as u32
}

/// The slack of an arc, in the instance's own unit: the remainder by the period of what the difference of its events'
/// times exceeds its lower bound by.
pub fn arc_slack(period: u32, times: &[u32], arc: &Arc) -> u32
    requires some { 0 < period }
    requires tail { arc.now.tail < length times.now }
    requires head { arc.now.head < length times.now }
    requires lower { unsigned_abs arc.now.lower ≤ MOST_LOWER }
    ensures value { result ≡ spec.arc_slack period times.now arc.now }
    ensures below { result < period }
{
    slack_between(period, times, arc.tail, arc.head, arc.lower)
}

/// Whether all times are below the period.
pub fn are_below(period: u32, times: &[u32]) -> bool
    ensures { IsTrue result ↔ All (λ t. t < period) times.now }
{
    times.iter().all(|time| *time < period)
}

/// Whether the slack of each arc is at most its span.
fn are_satisfied(period: u32, events: u32, arcs: &[Arc], times: &[u32]) -> bool
    requires limits { KeepArcLimits period events arcs.now }
    requires count { length times.now ≡ events }
    ensures { IsTrue result ↔ All (λ arc. spec.arc_slack period times.now arc ≤ arc.span) arcs.now }
{
    for arc in arcs {
        if arc_slack(period, times, arc) > arc.span {
            return false;
        }
    }
    true
}

/// Whether there is a time below the period for each of so many events, and the slack of each arc is at most its span.
pub fn is_timetable(period: u32, events: u32, arcs: &[Arc], times: &[u32]) -> bool
    requires limits { KeepArcLimits period events arcs.now }
    ensures { IsTrue result
        ↔ IsNetTimetable (record { period = period; arcs = arcs.now }) events times.now }
{
    times.len() == events as usize
        && are_below(period, times)
        && are_satisfied(period, events, arcs, times)
}

/// The cost of times, one for each event: the sum of weight times slack.
pub fn cost_of(period: u32, events: u32, arcs: &[Arc], times: &[u32]) -> u64
    requires limits { KeepArcLimits period events arcs.now }
    requires count { length times.now ≡ events }
    ensures { result ≡ net_cost (record { period = period; arcs = arcs.now }) times.now }
{
    let mut cost: u64 = 0;
    for arc in arcs {
        cost += arc.weight * u64::from(arc_slack(period, times, arc));
    }
    cost
}
