//! Rows that walks pass.

use pesp_network::NetRow;

/// A row that a walk passes, by its place from 0: forwards, from tail to head, or backwards; and whether it is flipped, so
/// that its slack is measured from the high end of its range.
#[derive(Clone, Copy, PartialEq, Eq)]
pub struct Pass {
    pub row: u32,
    pub forwards: bool,
    pub flipped: bool,
}

impl Pass {
    /// A pass that isn't flipped.
    pub(crate) fn plain(row: u32, forwards: bool) -> Pass {
        Pass {
            row,
            forwards,
            flipped: false,
        }
    }

    /// Whether its direction is plus: it goes forwards where it is plain, and backwards where it is flipped.
    pub(crate) fn rises(self) -> bool {
        self.forwards != self.flipped
    }

    /// The row's duration at the end from which its slack is measured, signed by the way it is passed.
    pub(crate) fn base(self, row: &NetRow) -> i64 {
        let end = if self.flipped { row.span } else { 0 };
        let duration = row.lower.wrapping_add(i64::from(end));
        if self.forwards {
            duration
        } else {
            duration.wrapping_neg()
        }
    }
}
