//! What times are worth.

ghost use Rattle.std.specs.Prelude.{◌≡◌, ℕ, ◌≤◌, ◌<◌, ◌≤ℤ◌, ◌↔◌, IsTrue, pos, neg_ℤ, ◌-ℤ◌, length};
ghost use Rattle.pesp_problem.specs.declared.limits.TheConstants.{MOST_BOUND};
ghost use Rattle.pesp_problem.specs.Timetables.{slack, AreTimes, IsTimetableOfCost};
ghost use Rattle.pesp_problem.specs.Scores.{IsScore};

use crate::grade::Score;
use crate::instance::Instance;
use crate::net_times::{are_below, slack_between};
use crate::row::Row;

/// The slack of a row at these times, in the instance's own unit: the remainder by the period of what the difference of
/// its events' times exceeds its lower bound by.
pub fn slack_of(period: u32, times: &[u32], row: &Row) -> u32
    requires some_period { 1 ≤ period }
    requires tail { row.now.tail < length times.now }
    requires head { row.now.head < length times.now }
    requires lower { neg_ℤ (pos MOST_BOUND) ≤ℤ row.now.lower }
    requires upper { row.now.lower ≤ℤ pos MOST_BOUND }
    ensures value { result ≡ slack period times.now row.now }
    ensures below { result < period }
{
    slack_between(period, times, row.tail, row.head, row.lower)
}

/// Whether a row with this slack is satisfied.
fn is_satisfied(slack: u32, row: &Row) -> bool
    requires lower { neg_ℤ (pos MOST_BOUND) ≤ℤ row.now.lower }
    requires bounds { row.now.lower ≤ℤ row.now.upper }
    requires upper { row.now.upper ≤ℤ pos MOST_BOUND }
    ensures { IsTrue result ↔ (pos slack ≤ℤ (row.now.upper -ℤ row.now.lower)) }
{
    i64::from(slack) <= row.upper - row.lower
}

/// Whether there is a time below the period for each event.
fn are_times(instance: &Instance, times: &[u32]) -> bool
    ensures { IsTrue result ↔ AreTimes instance.now times.now }
{
    times.len() == instance.events().len() && are_below(instance.period(), times)
}

/// Judges times: `NotTimes` where their number isn't that of the events or one isn't below the period; else the first row
/// that isn't satisfied, numbered from 1, with its slack; else the cost, the sum of weight times slack over all rows.
pub fn score(instance: &Instance, times: &[u32]) -> Score
    ensures score { IsScore instance.now times.now result }
    ensures feasible { (c : ℕ)
        → (result ≡ Score.Feasible c) ↔ IsTimetableOfCost instance.now times.now c }
{
    if !are_times(instance, times) {
        return Score::NotTimes;
    }
    let period = instance.period();
    let mut cost: u64 = 0;
    for (place, row) in instance.rows().iter().enumerate() {
        let slack = slack_of(period, times, row);
        if !is_satisfied(slack, row) {
            let row = place as u32 + 1;
            return Score::Violates { row, slack };
        }
        cost += row.weight * u64::from(slack);
    }
    Score::Feasible { cost }
}
