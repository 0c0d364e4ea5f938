//! Work on open leaves of a certificate, handed in as a text that nobody has to trust.
//!
//! Work from outside: the open leaves of a certificate are told as jobs, one of them is worked on, and works, whoever made
//! them, are grafted onto the certificate.
#![tactic(auto)]

mod copies;
mod cutting_out;
mod grafted;
mod held_leaves;
mod improved_leaf;
mod jobs;
mod judged_trees;
pub mod laws;
pub mod lending_laws;
mod lent;
mod open_work;
mod printer;
mod refusal;
mod shared_search;
mod splits;

pub use grafted::{Grafted, Reply, graft};
pub use jobs::open_jobs;
pub use lent::{Lent, lend_base};
pub use open_work::work_on_all;
pub use printer::RepliesText;
pub use refusal::WorkRefusal;
