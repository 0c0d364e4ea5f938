//! Certificates whose leaves may name marked walks, for a search that sharpens and for work from outside; nothing here searches.
//!
//! What a valid certificate may say of itself beyond what a check asks for: the least bound that its tree shows, told as its
//! answer, and branches that leave both of their parts an offset. Whether one answer is no worse than another.
//!
//! Open leaves are told as jobs, those that weren't to be worked on are looked for in what comes of work, and works, whoever made
//! them, are grafted onto a certificate. A work is a whole certificate, and the checker judges it.
#![tactic(auto)]

mod branches;
mod copies;
mod full_answer;
mod jobs;
mod joined_texts;
mod kept_leaves;
mod least;
mod paths;
mod ranks;
mod sharp_graft;
mod shown_answer;

pub use branches::branches_leave_both;
pub use full_answer::told_in_full;
pub use jobs::{is_open, open_count, sharp_jobs};
pub use kept_leaves::keeps_others;
pub use ranks::is_no_worse;
pub use sharp_graft::{SharpGraft, SharpReply, graft_sharp};
pub use shown_answer::retold;
