//! Why an instance has no timetable: activities that together have none, as few as can be (the deletion filter, Chinneck
//! 2008).
//!
//! Listed activities as records of csv, in memory, with the names of their events where these are told.
#![tactic(auto)]

mod attempts;
mod decided_rows;
mod decision;
mod deletion_filter;
mod finding;
mod known;
mod listed;
mod lists;
mod part;
mod records;
mod search;
mod settings;
mod used;

pub use finding::{Conflict, Finding};
pub use records::text_of_listed;
pub use search::conflict;
