//! The tree under work, for solvers that nobody has to trust: leaves that are lent, and what is given for them.
#![tactic(auto)]

mod adoption;
mod along;
mod best;
mod board;
mod certification;
mod give;
mod grafts;
mod lend;
mod lending_all;
mod made_parts;
mod part;
mod replacement;
mod shut_node;
mod slot;
mod timetable;

pub use along::node_along;
pub use board::Board;
pub use pesp_tree::{GiveRefusal, Job, LendRefusal, Work};
pub use shut_node::is_shut_by_propagation;
