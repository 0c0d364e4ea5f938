//! Who looks on while a search or a plan is made: which of the looks are told, and when the time of a search is over. Nobody who
//! looks on changes what is found, but by ending a search.
#![tactic(auto)]

mod milestones;
mod overseer;
mod time_limit;

pub use milestones::Milestones;
pub use overseer::Overseer;
pub use time_limit::are_over;
