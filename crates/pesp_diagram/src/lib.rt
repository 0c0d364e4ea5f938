//! Time-distance diagrams in SVG: for each line its stations below each other, the time across one period, and the trains as
//! lines.
//!
//! Parts of a page in HTML: its frame, what a certificate claims and what that means, the diagrams, and the slack of each activity.
//! Of these parts nothing is promised.
#![tactic(auto)]

mod backs;
mod claim;
mod drawing;
mod found;
mod frame;
mod heights;
mod layout;
mod marks;
mod page_frame;
mod pieces;
mod places;
mod scene;
mod section;
mod slack;

pub use claim::{Claim, claim_in};
pub use drawing::diagram;
pub use found::write_found;
pub use page_frame::{write_page_end, write_page_front};
pub use section::write_diagrams_section;
pub use slack::{count_tight, write_slack};
