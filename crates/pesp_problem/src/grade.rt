//! What times may be for an instance.

/// No times at all; times that leave a row unsatisfied, the first one and its slack; or a timetable with its cost.
#[derive(Clone, Copy, PartialEq, Eq)]
pub enum Score {
    NotTimes,
    Violates { row: u32, slack: u32 },
    Feasible { cost: u64 },
}
