//! What a tree shows beside times.

use pesp_problem::Memory;
use pesp_truth::Answer;
use std::alloc::Global;

/// The greatest bound that a certificate tells.
const MOST_BOUND: u64 = 999_999_999_999_999_999;

/// The lesser of two costs; none is above every cost.
pub(crate) fn lesser(a: Option<u64>, b: Option<u64>) -> Option<u64> {
    match (a, b) {
        (Some(a), Some(b)) => Some(a.min(b)),
        (a, b) => a.or(b),
    }
}

/// The answer of a tree whose bound leaves show so much, `u64::MAX` where there is none, beside times of a cost.
pub(crate) fn answer_of(bound: u64, cost: Option<u64>) -> Answer {
    match cost {
        None if bound == u64::MAX => Answer::Infeasible,
        Some(cost) if bound >= cost => Answer::Optimal(cost),
        _ => Answer::Bounded {
            least: bound.min(MOST_BOUND),
            cost,
        },
    }
}

/// A copy of times.
pub(crate) fn copied_times(alloc: Global, times: &[(i64, u32)]) -> Result<Vec<(i64, u32)>, Memory> {
    Ok(Vec::from_slice(alloc, times)?)
}
