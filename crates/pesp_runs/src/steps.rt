//! How many leaves of a search are split.

ghost use Rattle.std.specs.Prelude.{◌≤◌};

use pesp_problem::MOST_STEPS;

/// The steps that are asked for, within their limit, or so many as are usual.
pub fn steps_within(asked: Option<u32>, usual: u32) -> u32
    ensures { result ≤ MOST_STEPS }
{
    asked.unwrap_or(usual).min(MOST_STEPS)
}
