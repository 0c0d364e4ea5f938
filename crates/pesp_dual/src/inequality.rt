//! Inequalities and their multipliers.

/// The greatest multiplier that is told, in units of the scale.
const MOST_TOLD: i64 = 1_000_000_000_000;

/// The greatest product of a multiplier, in 1/2^20, and a coefficient.
const MOST_PRODUCT: i64 = 1 << 62;

/// The coefficient of a row's slack in an inequality; the row is named by its place from 0.
#[derive(Clone, Copy, PartialEq, Eq)]
pub struct Term {
    pub row: u32,
    pub coefficient: i32,
}

/// What is known of the multiplier of an inequality: the one in use and that of the best multipliers, in 1/2^20.
#[derive(Clone, Copy, PartialEq, Eq)]
pub struct Multiplier {
    pub current: i64,
    pub best: i64,
}

/// The greatest multiplier that is sought, in 1/2^20, of an inequality whose greatest coefficient has this amount.
pub(crate) fn most_multiplier(scale: u32, greatest: u32) -> i64 {
    let told = i128::from(MOST_TOLD) << 20;
    let by_scale = told / i128::from(scale).max(1);
    let by_terms = i128::from(MOST_PRODUCT) / i128::from(greatest).max(1);
    i64::try_from(by_scale.min(by_terms)).unwrap_or(0)
}

/// Where the terms of an inequality stand, the least that their sum may be, in whole units, and the inequality's multiplier
/// among the best ones.
#[derive(Clone, Copy)]
pub(crate) struct InequalityTerms {
    pub(crate) start: usize,
    pub(crate) end: usize,
    pub(crate) least: i64,
    pub(crate) best: i64,
}

impl InequalityTerms {
    /// The terms among those of all inequalities.
    pub(crate) fn terms<'a>(&self, all: &'a [Term]) -> &'a [Term] {
        all.get(self.start..self.end).unwrap_or(&[])
    }

    /// The best multiplier in units of a scale, rounded.
    pub(crate) fn rounded(&self, scale: u32) -> i64 {
        let scaled = i128::from(self.best).wrapping_mul(i128::from(scale));
        i64::try_from(scaled.wrapping_add(1 << 19) >> 20).unwrap_or(0)
    }
}
