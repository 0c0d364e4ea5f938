//! Work on a leaf.

use pesp_problem::{Cut, Side};

/// An open leaf that is lent: its number, which no other job ever has, and the path to it from the root of the tree, one
/// branch after the other with the side that is taken.
#[derive(Drop)]
pub struct Job {
    pub number: u64,
    pub path: Vec<(Cut, Side)>,
}
