//! What one line of a text says, a front's line or an item, lent from the buffer.

use crate::item::Item;
use crate::marked::MarkedRows;
use crate::pairs::LinePairs;

/// What one line of a text says. It is lent until the next one is read.
///
/// `Front` is the first line of version 3, `Scale` and `Walk` are lines of its front. `Lemma` has the rows of a lemma with their
/// weights, and `Least` what its sum is at least. `Own` is a line of the certificate behind a front, or of a text without one,
/// or a cycle or a line of the tree of a lemma.
#[derive(Clone, Copy)]
pub enum TextLine<'a> {
    Front,
    Scale(u32),
    Walk(MarkedRows<'a>),
    Lemma(LinePairs<'a>),
    Least(i64),
    Own(Item<'a>),
}
