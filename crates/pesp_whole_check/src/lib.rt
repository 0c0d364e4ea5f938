//! The checker of a certificate in memory, whoever made it. It says yes only to what is true of the planner's own activities.
//! It tells what the lines of a valid certificate show.
//!
//! The check of a text shares its judge of marked walks and its room for leaves.
#![tactic(auto)]

mod costs;
mod front_walks;
mod lemma_check;
mod room;
mod whole_check;

pub use costs::costs_shown;
pub use front_walks::walks_fault;
pub use pesp_judges::{Refusal, Verdict};
pub use room::{Room, claim_over, room_for};
pub use whole_check::{check, check_sharp};
