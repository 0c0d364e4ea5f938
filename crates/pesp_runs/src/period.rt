//! The period.

ghost use Rattle.std.specs.Prelude.{◌≤◌};

use pesp_problem::MOST_PERIOD;

/// The period where none is asked for.
const USUAL_PERIOD: u32 = 60;

/// The period that is asked for, within its limits, or the usual one.
pub fn period_within(asked: Option<u32>) -> u32
    ensures least { 1 ≤ result }
    ensures greatest { result ≤ MOST_PERIOD }
{
    asked.unwrap_or(USUAL_PERIOD).clamp(1, MOST_PERIOD)
}
