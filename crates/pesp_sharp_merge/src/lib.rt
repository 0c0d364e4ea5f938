//! Two certificates of one instance as one: their trees are walked through together, and where they part the subtree is taken that
//! shows more; or both are leaves behind lemmas, and one leaf names the lemmas of both. Nothing is promised of what comes of it but that it is found safely: others judge it.
#![tactic(auto)]

mod answers;
mod codes;
mod common;
mod factors;
mod fronts;
mod leaves;
mod lemmas;
mod lines;
mod merged;
mod names;
mod pairing;
mod runs;
mod shape;

pub use leaves::merge_leaves;
pub use merged::{Merged, merge};
pub use pairing::ShownCertificate;
