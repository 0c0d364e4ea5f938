//! The checker alone over any runtime: an instance from a file and a certificate from standard input, the verdict on standard
//! output. It stands on nothing of the solver.
#![tactic(auto)]

mod program;
mod request;
mod telling;

pub use program::{exit_of_program, status_of_words};
