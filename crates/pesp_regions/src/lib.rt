//! Regions: parts of a network whose timetables are bounded each by itself. Inequalities that cross regions take a part of the
//! weights of rows, by the multipliers of a root. Each region has a tree of its own over what is left of its weights. Bounds of
//! regions add up. Whose turn it is: that of what bounds, or that of what looks for times. Nothing is promised of them but that all
//! is found safely, and the same in each run. What is told is judged by others.
#![tactic(auto)]

mod nested;
mod patching;
mod region_search;
mod regions;
mod selection;
mod sharing;
mod turns;

pub use regions::Regions;
pub use turns::{NextTurn, Turns};
