//! What one line of a certificate's text says, lent from the buffer.

use crate::pairs::LinePairs;
use crate::rows::SignedRows;
use pesp_truth::Answer;

/// What one line says. It is lent until the next one is read: its lists are read from the line itself.
///
/// `Version` comes first. `Time` has an event's label and its time. `Slack` and `Offset` are branches of the tree, with the
/// part of 'at most `k`' first; `Bound`, `Nothing`, `Gap` and `Propagated` are its leaves.
#[derive(Clone, Copy)]
pub enum Item<'a> {
    Version(u32),
    Period(u32),
    Answer(Answer),
    Time(i64, u32),
    Cycle(SignedRows<'a>),
    Slack { row: u32, k: u32 },
    Offset { cycle: u32, k: i64 },
    Bound(LinePairs<'a>),
    Nothing(LinePairs<'a>),
    Gap(u32),
    Propagated,
}
