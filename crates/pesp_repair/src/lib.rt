//! Proposes times near to others that keep the activities of an instance.
//!
//! Events without a time get one by their neighbours. Events are moved with those that they drag along, else a dive is taken. What
//! can be is moved back then. All is found safely, in so many steps, and the same in each run. Nothing else is promised: whoever
//! takes the times judges them.
#![tactic(auto)]

mod dived;
mod fill;
mod links;
mod mover;
mod near;
mod push;

pub use near::near_times;
