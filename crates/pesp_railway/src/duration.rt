//! How long activities last.

use pesp_problem::{Instance, Row};

/// The least duration between two times that is no less than a lower bound.
fn duration_above(period: u32, from: i64, to: i64, lower: i64) -> i64 {
    let length = i64::from(period.max(1));
    let above = to.saturating_sub(from).saturating_sub(lower);
    lower.saturating_add(above.rem_euclid(length))
}

/// How long an activity lasts at these times; None where one of its events has no time.
pub fn duration_of(instance: &Instance, times: &[u32], row: &Row) -> Option<i64> {
    let from = i64::from(times.get(row.tail as usize).copied()?);
    let to = i64::from(times.get(row.head as usize).copied()?);
    Some(duration_above(instance.period(), from, to, row.lower))
}

/// Whether every slack is allowed to an activity.
pub(crate) fn is_free(period: u32, row: &Row) -> bool {
    let allowed = row.upper.saturating_sub(row.lower);
    allowed.saturating_add(1) >= i64::from(period)
}
