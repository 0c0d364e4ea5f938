//! A tree over the offsets that are left to cycles: its knots, the cuts that there are at a point, what cuts have gained so far,
//! which of several gains most on trial, and what its leaves and lines tell. Nothing is promised of it but that all is found safely.
#![tactic(auto)]

mod cuts;
mod experience;
mod leaves;
mod lines;
mod proposals;
mod shape;
mod sharpened;
mod tree;
mod trials;

pub use cuts::{Candidate, candidates, open_cut, tried, widest, worth_trying};
pub use experience::PseudoCosts;
pub use leaves::leaf_of;
pub use lines::{bound_of, told};
pub use proposals::times_near;
pub use shape::Shape;
pub use sharpened::{LeafMultipliers, SharpLine, Sharpened};
pub use tree::{Knot, SharpTree};
pub use trials::best_cut;
