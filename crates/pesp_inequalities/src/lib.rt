//! Cycle inequalities on the slacks of a network's rows, and a search for those that are violated. Nothing is promised but
//! that all is found safely.
#![tactic(auto)]

mod efficacy;
mod finds;
mod inequality;
mod keys;
mod marking;
mod pass;
mod seen;
mod separator;
mod spanning;
mod ways;

pub use inequality::Inequality;
pub use pass::Pass;
pub use seen::Seen;
pub use separator::Separator;
pub use spanning::forest_by;
pub use ways::walks_by;
