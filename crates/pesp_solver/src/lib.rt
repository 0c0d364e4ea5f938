//! The calls that look for timetables by a search of their own: nobody has to hand in what finds them.
//!
//! The search for cheap timetables of a network: times from dives of the relaxation, annealed, and merged by contracting what
//! they have in common; and beside it the search in which spans may be broken. Nothing is promised but that all is found safely,
//! in so many steps, and the same in each run: what is found is judged by others.
#![tactic(auto)]

mod balls;
mod batch_work;
mod batches;
mod individuals;
mod looking;
mod merges;
mod open_work;
mod pieces;
mod runs;
mod search;
mod solution;
mod times_search;

pub use open_work::work;
pub use pesp_search::{SolveRefusal, Solved};
pub use runs::{run_solve, run_work};
pub use solution::solve;
pub use times_search::TimesSearch;
