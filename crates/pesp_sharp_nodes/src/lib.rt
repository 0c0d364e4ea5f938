//! Nodes of a tree over the offsets of a network's cycles: their linear programs over cycle inequalities, which are found at the
//! root and at each node, and bounds on offsets. Nothing is promised of them but that all is found safely.
#![tactic(auto)]

mod branch;
mod cycles;
mod limit;
mod node;
mod pool;
mod relaxation;
mod rounds;
mod setting;
mod sharpener;

pub use branch::{BoundSense, OffsetBound, OffsetCut};
pub use cycles::{Cycle, Range};
pub use limit::{Limit, UNIT, cost_shown};
pub use node::ProgramNode;
pub use pool::Pool;
pub use relaxation::{NO_MULTIPLIER, NodeProgram, Origin, ProgramMember};
pub use setting::Setting;
pub use sharpener::NodeSharpener;
