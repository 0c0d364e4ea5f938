//! Trees under work: leaves that are put in each other's place and split, by numbered nodes.
//!
//! A queue of numbered items by their values, some of which are parked.
//!
//! The tree under work as a machine over events: its states, its calls, and the laws over every list of events.
#![tactic(auto)]

mod entry;
mod heap;
mod job;
pub mod laws;
mod leaf;
mod leaf_nodes;
pub mod machine_laws;
mod node;
mod preorder;
mod queue;
pub mod queue_laws;
mod refusal;
mod steps;
mod work;
mod work_tree;

pub use entry::Entry;
pub use job::Job;
pub use leaf::Leaf;
pub use queue::Queue;
pub use refusal::{GiveRefusal, LendRefusal};
pub use work::Work;
pub use work_tree::WorkTree;
