//! Times by the labels of their events, in any order, of the same activities or of others: what a text tells of the events of an
//! instance, and a run that begins with it.
//!
//! Times that violate activities: a timetable near to them, with few and small moves, and what is told of it. It judges what
//! `pesp_repair` proposes. Of the moves nothing is promised but that they are told as they are.
#![tactic(auto)]

mod beginning;
mod entry;
mod from_old;
mod listener;
mod moves;
mod old_times;
mod repair;
mod table;
mod violated;

pub use beginning::begin_with;
pub use from_old::FromOldTimes;
pub use listener::{Listener, ToldOldTimes};
pub use moves::{Moves, moves_of};
pub use old_times::{OldTimes, read_old_times};
pub use repair::repaired;
pub use violated::count_violated;
