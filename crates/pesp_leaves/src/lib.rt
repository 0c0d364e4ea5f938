//! What a leaf is worth at a node: the net counts of cycles, the offsets that slack ranges leave to them, the flows of pairs,
//! the value of a leaf by these, and what marked walks and lemmas add to it, under any weights of the rows.
#![tactic(auto)]

mod checker;
mod cycle_pairs;
mod elements;
mod flows;
mod gains;
mod leaf;
mod lemmas;
mod nets;
mod offsets;
mod pairs;
mod ranges;
mod reached;
mod rows;
mod terms;
mod values;

pub use checker::{Checker, Claim, Shown};
pub use elements::Elements;
pub use leaf::offsets_left;
pub use nets::{count_row, take_nets, zeros};
pub use offsets::{duration_sums, odijk_range};
pub use pairs::{names_more, pairs_exist};
pub use ranges::{Ranges, set_slack, take_part};
pub use reached::reaches;
pub use rows::arc_at;
pub use values::{scale_of, value_of};
