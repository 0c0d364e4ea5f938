//! Certificates as values: what a solver claims, the tree that shows it, and the theorem that a valid certificate is true.
//!
//! Lemmas of an instance: sums of weight times slack that are large enough at every timetable, how a tree shows one, and
//! what leaves gain that name some.
//!
//! The checker's own pass for leaves that propagation closes: whether the rows support no family of sets of time
//! differences without an empty set.
#![tactic(auto)]

mod answer;
mod bits;
mod firsts;
pub mod laws;
mod lemma;
pub mod lemma_laws;
mod marks;
mod narrow;
mod rounds;
mod support;
mod tree;
mod visit;
mod word;

pub use answer::Answer;
pub use lemma::{Lemma, NotLemma};
pub use marks::{Marks, NotMarks, is_row_number, is_scale};
pub use support::Support;
pub use tree::TreeLine;
