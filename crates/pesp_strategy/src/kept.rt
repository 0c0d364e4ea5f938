//! The best timetable that is met with.

use crate::rounded::{rounded_cost, rounded_times};
use pesp_forest::Frame;
use pesp_relaxation::Basis;
use std::alloc::{AllocError, Global};

/// What a timetable must cost less than, times that do, where some were met with, and a row at which prices were no times.
#[derive(Drop)]
pub(crate) struct Incumbent {
    pub(crate) limit: i128,
    pub(crate) is_known: bool,
    pub(crate) times: Option<Vec<u32>>,
    broken: u32,
}

/// What no timetable costs: all weights times spans, and 1.
fn no_cost(frame: &Frame) -> i128 {
    let mut sum = 1i128;
    for row in frame.rows() {
        let most = u128::from(row.weight).saturating_mul(u128::from(row.span));
        sum = sum.saturating_add(i128::try_from(most).unwrap_or(i128::MAX));
    }
    sum
}

impl Incumbent {
    /// No times below what the best timetable costs, where one is known.
    pub(crate) fn new(frame: &Frame, best: Option<i128>) -> Incumbent {
        let limit = match best {
            Some(cost) => cost,
            None => no_cost(frame),
        };
        Incumbent {
            limit,
            is_known: best.is_some(),
            times: None,
            broken: 0,
        }
    }

    /// Keeps the prices as times where they are a timetable that costs less.
    pub(crate) fn offer(
        &mut self,
        alloc: Global,
        frame: &Frame,
        basis: &Basis,
    ) -> Result<(), AllocError> {
        if let Some(cost) = rounded_cost(frame, basis, self.limit, &mut self.broken) {
            self.limit = cost;
            self.is_known = true;
            self.times = Some(rounded_times(alloc, frame, basis)?);
        }
        Ok(())
    }

    /// Whether a leaf of this value has no timetable that costs less.
    pub(crate) fn closes(&self, value: i128) -> bool {
        self.is_known && value >= self.limit
    }

    /// By how much a value has to rise until its leaf closes; more than it can where no timetable is known.
    pub(crate) fn rise_to_close(&self, value: i128) -> i128 {
        if !self.is_known {
            return i128::MAX;
        }
        self.limit.saturating_sub(value)
    }

    /// By how much a value may rise until its leaf closes, at least 1.
    pub(crate) fn cap(&self, value: i128) -> u128 {
        u128::try_from(self.limit.saturating_sub(value))
            .unwrap_or(1)
            .max(1)
    }
}
