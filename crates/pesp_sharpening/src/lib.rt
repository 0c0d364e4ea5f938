//! A tree over the offsets of a network's cycles, whose leaves bound what timetables cost by multipliers of cycle inequalities
//! and of bounds on offsets. Nothing is promised of it but that all is found safely, and the same in each run: what is told is
//! judged by others.
#![tactic(auto)]

mod given;
mod opens;
mod sharpening;
mod warm;

pub use sharpening::{Sharpening, Step};
