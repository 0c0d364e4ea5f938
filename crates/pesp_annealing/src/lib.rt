//! Makes the slacks of a timetable cheaper by annealing: by shifts of one side of the cuts of random spanning forests, and by
//! shifts that are drawn for all clusters of an induced forest at once. Nothing is promised of what it finds but that it is
//! found safely.
#![tactic(auto)]

mod annealer;
mod choices;
mod heat;
mod messages;
mod node;
mod places;
mod rounds;
mod slacks;
mod steps;
mod trees;

pub use annealer::Annealer;
pub use choices::Choices;
pub use heat::{Heat, halved};
pub use steps::Steps;
