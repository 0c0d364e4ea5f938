//! What the search for a timetable tries next: the cut of a leaf, and multipliers for both its parts. All that is
//! proposed is judged by others; here it is found safely and in so many steps, the same in each run.
#![tactic(auto)]

mod branchings;
mod candidates;
mod experience;
mod kept;
mod looks;
mod rounded;
mod settings;
mod strategy;
mod weights;

pub use strategy::{Advice, PartPairs, Split, Strategy};
