//! Proposes the text of an instance in which events are fixed: activities in front hold them at times of a clock.
//!
//! What is asked for is told by words, of events and of lines that names tell. Nothing is promised of the text: whoever takes it
//! reads it back.
#![tactic(auto)]

mod clock;
mod fix_refusal;
mod fixed_events;
mod fixed_lines;
mod holding;
mod instance_text;

pub use fix_refusal::FixRefusal;
pub use fixed_events::Wanted;
pub use holding::text_that_holds;
