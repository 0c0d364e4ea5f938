//! The runs of commands, over any readers and writers. They read an instance, and times, a certificate or works where the command
//! has them. They hand these to a task, and say what was read and written, and whose fault it was.
//!
//! Why a run stops, as a line and as an exit status. The texts that several runs read: an instance, times for its events, and a
//! certificate that is valid for it. The numbers that a command line gives to a run, within its limits.
#![tactic(auto)]

mod base;
mod fault;
mod fronted;
mod jobs;
mod on_base;
mod on_works;
mod period;
mod rows;
mod search;
mod seconds;
mod share_word;
mod start;
mod steps;
mod texts;

pub use base::Base;
pub use fault::{Fault, status_of};
pub use fronted::vouch;
pub use jobs::jobs_of;
pub use on_base::{OnBase, run_on_base};
pub use on_works::{OnWorks, run_on_works};
pub use period::period_within;
pub use rows::rows_within;
pub use search::{Search, run_alone, run_from_times};
pub use seconds::{MOST_SECONDS, seconds_within};
pub use share_word::{MOST_SHARES, share_of};
pub use start::{FromTimetable, Start};
pub use steps::steps_within;
pub use texts::{MOST_TEXT, read_base, read_whole_instance, read_whole_times};
