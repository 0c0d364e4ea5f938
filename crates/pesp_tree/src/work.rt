//! What comes back for a leaf.

use pesp_problem::{Cut, Pairs};
use pesp_truth::TreeLine;

/// What is given for a leaf that was lent.
///
/// `Leaf`: pairs for its bound; the leaf keeps the pairs of the greater value, and its old ones where both are equal.
/// `Nothing`: pairs that show that no timetable lies there. `Gap`: a cycle, numbered from 1, that has no offset left there.
/// `Propagated`: no family of time differences is supported there (`pesp_propagate::propagate` tells so).
/// `Split`: a cut that makes two leaves of it, which keep its pairs, or are gaps where one of their cycles has no offset left.
/// `Tree`: the lines of a whole tree that takes the leaf's place; its bound leaves have at least the value of that leaf.
#[derive(Drop)]
pub enum Work {
    Leaf(Pairs),
    Nothing(Pairs),
    Gap(u32),
    Propagated,
    Split(Cut),
    Tree(Vec<TreeLine>),
}
