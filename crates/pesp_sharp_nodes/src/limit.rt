//! What leaves are worth, and what closes them.

/// How many units of a slack and of a fraction make up one.
pub const UNIT: i64 = 1 << 16;

/// By how much less than a cost a value is enough that shows it, in 1/2^20: half of a unit is left to what rounding loses.
const ENOUGH: i128 = 1 << 19;

/// What closes a leaf: a cost, and a value in 1/2^20 that is enough to show it.
#[derive(Clone, Copy)]
pub struct Limit {
    pub cost: u64,
    pub value: i128,
}

impl Limit {
    /// The limit of a cost.
    pub(crate) fn at(cost: u64) -> Limit {
        Limit {
            cost,
            value: i128::from(cost).wrapping_mul(1 << 20).wrapping_sub(ENOUGH),
        }
    }
}

/// The whole cost that a value in units of a scale shows.
pub fn cost_shown(value: i128, scale: u32) -> u64 {
    let unit = i128::from(scale).max(1);
    let raised = value.saturating_add(unit.wrapping_sub(1)).max(0);
    u64::try_from(raised / unit).unwrap_or(u64::MAX)
}
