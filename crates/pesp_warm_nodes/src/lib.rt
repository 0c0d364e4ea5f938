//! Nodes of a tree over offsets that share one linear program: the inequalities are valid at all nodes, and only the ranges of
//! offsets differ. Each node goes on from the basis of the one above it by a dual simplex. Nothing is promised of them but that
//! all is found safely.
#![tactic(auto)]

mod basis;
mod choosing;
mod finding;
mod ranges;
mod shared;
mod solving;
mod telling;

pub use basis::NodeBasis;
pub use choosing::note;
pub use pesp_dual_simplex::SolveStatus;
pub use shared::Shared;
pub use telling::ShownBound;
