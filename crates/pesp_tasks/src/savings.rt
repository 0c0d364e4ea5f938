//! What might still be saved.

ghost use Rattle.std.specs.Prelude.{◌≡◌};
ghost use Rattle.pesp_tasks.specs.Gaps.{gap_of};

/// What might still be saved, the cost less the bound, in hundredths of a per cent of the cost, rounded up; 0 where the cost is
/// 0, or isn't above the bound.
pub(crate) fn gap(bound: u64, cost: u64) -> u64
    ensures { result ≡ gap_of bound cost }
{
    if cost == 0 {
        return 0;
    }
    let saved = u128::from(cost.saturating_sub(bound)) * 10_000;
    let whole = u128::from(cost);
    ((saved + (whole - 1)) / whole) as u64
}
