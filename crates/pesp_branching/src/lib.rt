//! How branch and bound goes on at a leaf: what is proposed for it, the cut that is chosen, the leaf on either side, and times
//! that are found on the way (Applegate et al. 1995; Nachtigall and Opitz 2008).
//!
//! Laws of the search, without code: how many branches a tree can have, what each turn of work on a board keeps, and
//! what a search on the instance's network may take from a search on what is left of it.
#![tactic(auto)]

mod advice;
mod choice;
mod expansion;
pub mod lifts;
mod offers;
mod part_leaf;
mod passes;
pub mod room;
mod settings;
mod slack_cut;
pub mod turn;

pub use advice::{Advised, Proposal, ask};
pub use choice::{Choice, choose};
pub use expansion::{expand, leaf_line, proposed_lines};
pub use offers::{offer_met, offer_times};
pub use part_leaf::gap_at;
pub use passes::passed_rows;
pub use slack_cut::Narrowing;
