//! The program over any runtime: a command line's request is answered by its run.
#![tactic(auto)]

mod answers;
mod output;
mod plans;
mod program;
mod telling;

pub use program::{exit_of_program, status_of_words};
