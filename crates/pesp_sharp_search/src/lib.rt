//! A search that sharpens: leaves of its certificates name marked walks beside cycles (Nachtigall 1998; Lindner and others 2020).
//! What it proposes is judged by the checker before it is handed out.
//!
//! Work from outside on open leaves of a certificate whose leaves may name marked walks, by their numbers as jobs. A work is a whole
//! certificate.
#![tactic(auto)]

mod branches;
mod choice;
mod going;
mod observer;
mod open_work;
mod resumption;
mod solution;
mod whole_search;

pub use choice::SharpSolved;
pub use going::Going;
pub use observer::SharpObserver;
pub use open_work::work_sharp;
pub use pesp_search::{
    Leaves, Nobody, Observer, SearchPhase, SharpWatcher, Sharpener, SolveRefusal, Standing,
    Unwatched,
};
pub use resumption::{resume_leaves, resume_sharp};
pub use solution::solve_sharp;
