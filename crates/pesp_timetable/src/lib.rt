//! A timetable by trains and stations, in the order of the ways of trains: as records of csv, as JSON, or as one page in HTML
//! without a network, which has diagrams, the slack of each activity and what was found in plain words too.
#![tactic(auto)]

mod clock;
mod entry;
mod objects;
mod records;
mod stops;
mod trains;
mod whole_page;
mod whole_timetable;
mod words;

pub use whole_page::page;
pub use whole_timetable::timetable;
