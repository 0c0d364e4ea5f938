//! Problems, a network with a table of closed walks, their nodes, and what the pairs of a leaf are worth at a node.
#![tactic(auto)]

mod closed_walks;
mod ends;
mod flow;
pub mod laws;
mod left;
mod nets;
mod node;
mod offsets;
mod pairs;
mod passages;
mod problem;
mod refusal;
mod single;
mod table;
mod value;
mod walk;

pub use left::first_gap;
pub use nets::count_rows;
pub use node::Node;
pub use pairs::are_pairs;
pub use passages::{Passage, Passages};
pub use pesp_problem::{Cut, Pair, Pairs, Side};
pub use problem::Problem;
pub use refusal::ProblemRefusal;
pub use single::single_value;
pub use value::{leaf_value, offset_range};
pub use walk::NodeWalk;
