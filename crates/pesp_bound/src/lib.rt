//! Nodes of a problem, and what a leaf there proves: that each timetable in the node costs at least so much, or that there
//! is none. Levels of events that meet demands, or a closed way along which none do, decide nodes of single offsets.
#![tactic(auto)]

mod best;
mod closed_way;
mod differences;
mod edge;
mod leaf;
mod passes;
mod proposal;
mod shifts;
mod system;

pub use best::{best_leaf, best_leaf_from};
pub use edge::{Edge, Outcome, are_settled};
pub use leaf::Leaf;
pub use passes::settle;
pub use pesp_nodes::{
    Cut, Node, Pair, Pairs, Problem, ProblemRefusal, Side, leaf_value, offset_range,
};
