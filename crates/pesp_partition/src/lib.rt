//! Parts of a network by the inequalities of a root: divisions of its rows into regions, the multipliers by which less crosses them,
//! what these leave of weights, and each region as a network of its own. Nothing is promised of them but that all is found safely,
//! and the same in each run.
#![tactic(auto)]

mod division;
mod joining;
mod levels;
mod multiplied;
mod partition;
mod region;
mod shifting;
mod told;
mod weights;

pub use division::Division;
pub use levels::divisions_of;
pub use multiplied::{Multiplied, inequalities_of};
pub use region::{Region, WholeNetwork};
pub use shifting::shift_multipliers;
pub use told::{Crossing, ToldRegion, ToldRegions};
pub use weights::{Units, Weights, units_for};
