//! The rows of a linear program.

use pesp_network::NetRow;

/// A row: what a unit of its slack costs, the greatest slack, and the root of that in 1/16, by which slacks are scaled.
#[derive(Clone, Copy)]
pub(crate) struct ProgramRow {
    pub(crate) weight: i64,
    pub(crate) span: i64,
    pub(crate) root: u64,
}

impl ProgramRow {
    /// The row of a network's row.
    pub(crate) fn of(row: &NetRow) -> ProgramRow {
        ProgramRow {
            weight: i64::try_from(row.weight).unwrap_or(i64::MAX),
            span: i64::from(row.span),
            root: (u64::from(row.span) << 8).isqrt().max(4),
        }
    }
}

/// The balance of the two sides that steps begin with, in 1/65536: half of all weights against the roots of all spans, which
/// is near the one at which steps end up.
pub(crate) fn first_balance(rows: &[ProgramRow]) -> i64 {
    let mut weights = 0u128;
    let mut roots = 0u128;
    for row in rows {
        weights = weights.wrapping_add(u128::from(row.weight.unsigned_abs()));
        roots = roots.wrapping_add(u128::from(row.root));
    }
    let balance = weights.wrapping_shl(19) / roots.max(1);
    i64::try_from(balance).unwrap_or(i64::MAX)
}
