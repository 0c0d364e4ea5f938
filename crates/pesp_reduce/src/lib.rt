//! Reduction of an instance: what can be decided without searching is decided, and every result comes back at equal cost.
#![tactic(auto)]

mod contraction;
mod fate;
mod fates;
mod parts;
mod reduction;
mod rows;
mod times;
mod walks;

pub use fate::Fate;
pub use reduction::{Reduced, reduce};
