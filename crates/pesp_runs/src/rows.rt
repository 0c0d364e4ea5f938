//! How many activities are drawn.

ghost use Rattle.std.specs.Prelude.{◌≤◌};

/// How many activities are drawn where nothing is asked for.
const USUAL_ROWS: u32 = 100;

/// How many activities are asked for, within their limits, or the usual number.
pub fn rows_within(asked: Option<u32>) -> u32
    ensures least { 1 ≤ result }
    ensures greatest { result ≤ 1000 }
{
    asked.unwrap_or(USUAL_ROWS).clamp(1, 1000)
}
