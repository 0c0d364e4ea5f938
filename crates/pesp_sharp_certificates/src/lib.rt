//! Certificates of what a search that sharpens has found: its tree, or what regions show, beside the best timetable (Nachtigall
//! 1998; Lindner and others 2020). Nothing is promised of them but that they are made safely: others judge them.
#![tactic(auto)]

mod answers;
mod best;
mod regions;
mod timed;
mod tree;

pub use best::{Best, is_open, offer, shown_by};
pub use regions::told_fronted;
pub use timed::timed_of;
pub use tree::TreeParts;
