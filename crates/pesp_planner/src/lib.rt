//! What is told on standard error while a search or a plan goes on, in words: how far it is, and what became of old times. Who
//! looks on until the time is over, and ends it then.
//!
//! Nothing of it changes what is found, but by ending a search. Nothing is promised of what is told but safety and an end.
#![tactic(auto)]

mod hearer;
mod plan_words;
mod planner;
mod progress;
mod shell_word;
mod watch;

pub use hearer::Hearer;
pub use plan_words::Again;
pub use planner::Planner;
pub use progress::{SearchProgress, Teller};
pub use watch::Watch;
