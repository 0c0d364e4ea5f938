//! The runs that tell of times, over any readers and writers: a report, with names of events or without, the timetable as records,
//! a picture, diagrams or a page of it, what times violate, and an instance in which events are fixed.
//!
//! Events that are fixed: an instance with activities in front that hold them at times of a clock, judged by reading it back.
//!
//! The run that looks for a conflict, over any reader and writer.
#![tactic(auto)]

mod claimed;
mod fixed;
mod fixing;
mod judge;
mod names;
mod run;
mod sheet;
mod sheets;
mod told;
mod violated;

pub use fixed::fixed_text;
pub use fixing::run_fix;
pub use names::read_whole_names;
pub use run::run_conflict;
pub use sheet::{Diagrams, HtmlPage, NamedReport, Picture, Report, Sheet, Timetable};
pub use sheets::{run_report, run_sheet};
pub use told::{Told, status_of_told};
pub use violated::run_violations;
