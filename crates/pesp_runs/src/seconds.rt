//! For how long a plan is made.

ghost use Rattle.std.specs.Prelude.{◌≤◌};

/// For how many seconds a plan is made where none are named.
const USUAL_SECONDS: u32 = 60;

/// For how many seconds a plan is made at most.
pub const MOST_SECONDS: u32 = 1_000_000;

/// The seconds that are asked for, within their limits, or the usual ones.
pub fn seconds_within(asked: Option<u32>) -> u32
    ensures least { 1 ≤ result }
    ensures greatest { result ≤ MOST_SECONDS }
{
    asked.unwrap_or(USUAL_SECONDS).clamp(1, MOST_SECONDS)
}
