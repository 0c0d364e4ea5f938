//! Leaves.

use pesp_problem::Pairs;

/// What is shown of a node: that a cycle, numbered from 1, has no offset left; that its pairs have a value above 0 with all
/// weights 0; or the value of its pairs with the rows' weights. The first two show that no timetable lies in the node, the
/// third that each one costs at least the value.
#[derive(Drop)]
pub enum Leaf {
    Gap { cycle: u32 },
    Nothing { pairs: Pairs },
    Bound { pairs: Pairs, value: i128 },
}
