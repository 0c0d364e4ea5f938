//! The periodic event scheduling problem: its words, its definitions, and what times are worth.
//!
//! Walks: the net counts of a walk along rows, the path of a walk over the nodes of a tree, what a marked walk gains at a
//! node by the cycle inequality, and what a leaf is worth that marked walks sharpen. The checker and the solver's nodes are
//! told by the same types, definitions and lemmas. Both add flows up by one call; else each has bodies of its own.
#![tactic(auto)]

mod arc;
mod bases;
mod cut;
pub mod exact;
mod flows;
mod grade;
mod instance;
pub mod laws;
mod limits;
mod marked;
mod memory;
pub mod net_laws;
pub mod net_times;
mod nets;
mod pair;
mod path;
mod rates;
mod row;
mod share;
mod walk;
mod worth;

pub use arc::{Arc, arc_of};
pub use cut::{Cut, Side};
pub use flows::add_flow;
pub use grade::Score;
pub use instance::Instance;
pub use limits::{
    MOST_BOUND, MOST_CYCLES, MOST_EVENTS, MOST_LABEL, MOST_LINES, MOST_LOWER, MOST_MULTIPLIER,
    MOST_OFFSET, MOST_PAIRS, MOST_PERIOD, MOST_ROWS, MOST_SCALE, MOST_SIGNED_ROWS, MOST_SLACK,
    MOST_STEPS, MOST_TEXT, MOST_TIME, MOST_WEIGHT,
};
pub use marked::{MarkedRow, MarkedWalk};
pub use memory::Memory;
pub use nets::{NetCount, Nets};
pub use pair::{Pair, Pairs};
pub use path::{Branch, Change};
pub use rates::{Rates, add_walk, clear, no_rates};
pub use row::{Row, SignedRow};
pub use share::Share;
pub use walk::Walk;
pub use worth::{score, slack_of};
