//! A timetable as a picture in SVG: one row for each of the dearest activities, with its least duration, its slack and
//! its greatest duration over one period, and a table of events.
#![tactic(auto)]

mod activities;
mod choice;
mod columns;
mod escaped;
mod events;
mod frame;
mod front;
mod labels;
mod picture;
mod pixels;
mod rows;
mod scale;
mod shortened;
mod stretch;

pub use choice::ActivityFilter;
pub use escaped::Escaped;
pub use front::{PictureFront, open_svg, write_front};
pub use labels::Labels;
pub use picture::draw;
pub use scale::step_for;
pub use shortened::Shortened;
