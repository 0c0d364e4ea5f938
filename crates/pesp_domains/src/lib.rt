//! Sets of time differences to the first event of a component, and what the rows of a network take from them.
#![tactic(auto)]

mod counts;
mod domains;
mod lanes;
pub mod laws;
mod outcome;
mod revise;
mod rows;
mod settle;
pub mod step;
mod waiting;

pub use counts::BLOCK;
pub use domains::Domains;
pub use outcome::Outcome;
pub use rows::Rows;
