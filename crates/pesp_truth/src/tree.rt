//! The lines of a certificate's tree.

use pesp_problem::Pairs;

/// A line of a tree in preorder: the part of 'at most `k`' comes first, rows and cycles are numbered from 1.
///
/// `Slack` and `Offset` cut the range of a row's slack or of a cycle's offset in two. The others are leaves: `Bound` shows
/// by its pairs that each timetable there costs enough, `Nothing` that none lies there, `Gap` names a cycle that has no
/// offset left, and `Propagated` says that propagation of the slack ranges finds no possible time differences. `Propagated`
/// stands in certificates of version 2 alone.
#[derive(Drop)]
pub enum TreeLine {
    Slack { row: u32, k: u32 },
    Offset { cycle: u32, k: i64 },
    Bound(Pairs),
    Nothing(Pairs),
    Gap(u32),
    Propagated,
}
