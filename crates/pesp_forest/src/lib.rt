//! Spanning forests of a network: the rows at each event, trees in which each event knows what hangs below it, exchanges of a
//! row, the rows outside a forest, each of which closes a
//! cycle, and the offsets of these. Nothing is promised but that all is found safely.
//!
//! What searches that only propose share: numbers that look random, groups of events that are joined, and reads of lists
//! that give up past the end. Nothing is promised of it but safety and an end.
//!
//! What a search asks for timetables, whoever finds them. Nothing is promised of what is found: others judge it.
#![tactic(auto)]

mod cycles;
mod effort;
mod finder;
mod forest;
mod frame;
mod groups;
pub mod guarded;
mod middle;
mod no_times;
mod random;
mod spans;
mod tree;

pub use cycles::Cycles;
pub use effort::Effort;
pub use finder::TimesFinder;
pub use forest::{RowForest, grow_all};
pub use frame::{Frame, Link};
pub use groups::Groups;
pub use no_times::NoTimes;
pub use random::Random;
pub use spans::Spans;
pub use tree::{NONE, Tree, TreeEvent};
