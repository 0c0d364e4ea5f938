//! Timetables of a network by their slacks: the cheapest that was met, and dives of the relaxation that lead to some. The search for
//! a spanning forest whose cycles promise a strong bound and leave few offsets open. Nothing is promised but that all is found
//! safely, in so many steps, and the same in each run: what is proposed is judged by others.
#![tactic(auto)]

mod cheapest;
mod dives;
mod exchange;
mod forest_search;
mod forests;
mod found;
mod goal;
mod heat;
mod relaxation;
mod settings;
mod table;

pub use cheapest::Cheapest;
pub use forest_search::search_forest;
pub use forests::{Keyed, Keys, least_rows};
pub use found::{Found, cheaper, cost_of, slacks_of, times_at, times_of};
pub use relaxation::Relaxation;
