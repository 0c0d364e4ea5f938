//! What is handed back for a job.

use pesp_truth::TreeLine;
use std::marker::Model;

/// Work on the leaf that was lent under the number `job`, at most 999999 in a text: labels of events with times in the
/// instance's unit, which may be a timetable, and the lines of a tree in preorder that is to stand in the leaf's place.
#[derive(Drop)]
pub struct WorkText {
    pub job: u64,
    pub times: Vec<(i64, u32)>,
    pub tree: Vec<TreeLine>,
}

impl Model for WorkText {
    ghost use Rattle.pesp_cert_items.specs.Works.{WorkValue};

    ghost Value = { WorkValue };

    ghost view = { λ w. record { job = w.job; times = w.times.items; tree = w.tree.items } };
}
