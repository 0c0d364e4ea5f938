//! The judges of one piece of a certificate: the answer, one cycle, one marked walk, one line of a tree at a time, one lemma by
//! its lines. A check of a whole certificate and of a text while it is read have the same judges, without a front and behind one.
#![tactic(auto)]

mod answer;
mod branch;
mod leaf;
mod lemma_judge;
mod marked_walks;
mod node_walk;
mod propagation;
mod refusal;
mod table;
mod tree;
mod walks;
mod weights;
mod whole_tree;

pub use answer::judge_answer;
pub use leaf::LeafLine;
pub use lemma_judge::{LemmaJudge, add_nets};
pub use marked_walks::judge_walks;
pub use node_walk::NodeWalk;
pub use pesp_leaves::{
    Checker, Claim, Elements, Ranges, Shown, names_more, scale_of, value_of, zeros,
};
pub use pesp_problem::Nets;
pub use refusal::{Refusal, Verdict};
pub use table::root;
pub use tree::{SaidLine, take_line};
pub use walks::{judge_cycle, judge_cycles};
pub use whole_tree::{judge_tree, said_by};
