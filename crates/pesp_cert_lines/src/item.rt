//! What one line says.

use crate::marked::MarkedRows;
use crate::pairs::LinePairs;
use crate::rows::SignedRows;
use pesp_truth::Answer;

/// What one line says. The lists are read from the line itself.
///
/// `Front` is the first line of version 3; `Scale` and `Walk` are the lines of its front. `Lemma` has the rows of a lemma with
/// their weights, and `Least` what its sum is at least; the lines behind them show it. `Version` is the first line's of what
/// stands behind it, or of the text. `Time` has an event's label and its time. `Slack` and `Offset` are branches of the tree,
/// with the part of 'at most `k`' first; `Bound`, `Nothing`, `Gap` and `Propagated` are its leaves.
#[derive(Drop)]
pub enum Item<'a> {
    Front,
    Scale(u32),
    Walk(MarkedRows<'a>),
    Lemma(LinePairs<'a>),
    Least(i64),
    Version(u32),
    Period(u32),
    Answer(Answer),
    Time(i64, u32),
    Cycle(SignedRows<'a>),
    Slack { row: u32, k: u32 },
    Offset { cycle: u32, k: i64 },
    Bound(LinePairs<'a>),
    Nothing(LinePairs<'a>),
    Gap(u32),
    Propagated,
    End,
}
