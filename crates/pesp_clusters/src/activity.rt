//! Rows with their slacks.

use pesp_network::NetRow;

/// A row with its slack.
#[derive(Clone, Copy)]
pub struct Activity {
    pub tail: u32,
    pub head: u32,
    pub span: u32,
    pub slack: u32,
    pub weight: i64,
}

/// A row that crosses between a set of events and the rest: its slack grows or falls as the set is shifted.
#[derive(Clone, Copy)]
pub struct SlackCrossing {
    pub row: u32,
    pub grows: bool,
}

/// A sum of two numbers below a period, less the period where it is not below it.
pub fn sum_within(period: u32, one: u32, other: u32) -> u32 {
    let sum = one.wrapping_add(other);
    if sum >= period {
        sum.wrapping_sub(period)
    } else {
        sum
    }
}

/// A difference of two numbers below a period, with the period where it is below 0.
pub fn difference_within(period: u32, one: u32, other: u32) -> u32 {
    if one >= other {
        one.wrapping_sub(other)
    } else {
        one.wrapping_add(period).wrapping_sub(other)
    }
}

impl Activity {
    /// A row of a network with its slack.
    pub fn of(row: &NetRow, slack: u32) -> Activity {
        Activity {
            tail: row.tail,
            head: row.head,
            span: row.span,
            slack,
            weight: i64::try_from(row.weight).unwrap_or(i64::MAX),
        }
    }

    /// What the slack costs.
    pub fn cost(&self) -> i64 {
        self.weight.wrapping_mul(i64::from(self.slack))
    }

    /// Whether no slack would break it.
    pub fn is_wide(&self, period: u32) -> bool {
        self.span.wrapping_add(1) >= period
    }

    /// The slack after a shift.
    pub fn shifted(&self, period: u32, amount: u32, grows: bool) -> u32 {
        if grows {
            sum_within(period, self.slack, amount)
        } else {
            difference_within(period, self.slack, amount)
        }
    }

    /// The event at the other end, seen from one of a set that the row crosses.
    pub fn beyond(&self, grows: bool) -> u32 {
        if grows { self.tail } else { self.head }
    }
}
