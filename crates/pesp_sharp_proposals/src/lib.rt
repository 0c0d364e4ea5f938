//! What a search proposes that sharpens: certificates whose leaves name marked walks beside cycles (Nachtigall 1998; Lindner and
//! others 2020). Nothing is promised of them but that they are found safely: others judge them.
#![tactic(auto)]

mod bounding;
mod proposal;
mod proposing;
mod search;
mod tree_sharpener;

pub use tree_sharpener::TreeSharpener;
