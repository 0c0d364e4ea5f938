//! The search for cheap timetables by anneals in which spans may be broken: individuals that are merged, and reheats of the best
//! one. Networks in which several events are moved as one, so that a part is searched anew or what timetables have in common stays;
//! and the cheapest timetable under the offsets of another. Nothing is promised but that all is found safely, in so many steps, and
//! the same in each run.
#![tactic(auto)]

mod ball;
mod clusters;
mod contraction;
mod course;
mod effort;
mod fixed_offsets;
mod kinds;
mod merge;
mod plans;
mod soft_search;

pub use ball::ball_around;
pub use clusters::EventClusters;
pub use contraction::ClusterContraction;
pub use effort::{MANY_ROWS, SoftEffort, is_dense, may_merge};
pub use fixed_offsets::{MOST_REOPTIMISED, reoptimised};
pub use kinds::{Kinds, Start};
pub use merge::Merge;
pub use soft_search::SoftSearch;
