//! What is told of a tree.

use pesp_inequalities::Pass;

/// Multipliers of a leaf, in units of the scale: of cycles, above 0 for offsets that are at least so great, below 0 for offsets that are
/// at most so great; and of walks, each 1 at least. Cycles and walks are numbered from 0, and their numbers rise.
#[derive(Drop)]
pub struct LeafMultipliers {
    pub pairs: Vec<(u32, i64)>,
    pub walks: Vec<(u32, i64)>,
}

/// A line of a tree. A branch cuts the offsets of a cycle, numbered from 0, into those up to `most` and those above; a
/// bound leaf shows a cost; a nothing leaf shows, with the weights taken as 0, that no timetable is there; and at a gap a
/// cycle has no offset. Lines that were given and aren't looked into are kept: so many from this one on, whose leaves show this
/// cost at least, `u64::MAX` where they show that no timetable is there.
#[derive(Drop)]
pub enum SharpLine {
    Branch { cycle: u32, most: i64 },
    Bound(LeafMultipliers),
    Nothing(LeafMultipliers),
    Gap { cycle: u32 },
    Kept { first: u32, count: u32, bound: u64 },
}

/// What was found: what each bound leaf shows at least, `u64::MAX` where there is none; the cycles that are branched on, as
/// plain walks of the network's rows, and the walks of inequalities; the tree in preorder; and how many steps were made. Cycles
/// that were given stand first, each of them, and one that isn't a walk of these rows passes none.
#[derive(Drop)]
pub struct Sharpened {
    pub bound: u64,
    pub cycles: Vec<Vec<Pass>>,
    pub walks: Vec<Vec<Pass>>,
    pub lines: Vec<SharpLine>,
    pub steps_used: u32,
}
