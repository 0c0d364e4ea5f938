//! Propagation over a network, and a dive for a first timetable. What they take differences from stands in `pesp_domains`;
//! its names are given on.
//!
//! Cuts of rooted forests: the rows that cross each, and whether no shift of one side of a cut is cheaper.
#![tactic(auto)]

mod chance;
mod choice;
mod crossing;
mod cuts;
mod judge;
mod numbers;
mod propagation;
mod rooted;
mod shift;
mod slacks;
mod support;
mod tries;

pub use crossing::Entry;
pub use cuts::{Cuts, MOST_ENTRIES, lay_out, list, list_rows, put};
pub use judge::are_cuts_best;
pub use numbers::Numbers;
pub use pesp_domains::{Domains, Outcome};
pub use propagation::propagate;
pub use rooted::{Rooted, is_rooted, tree_rows};
pub use shift::shift_costs;
pub use slacks::slacks_of;
pub use support::supports_none;
pub use tries::{dive, dive_to};
