//! Cases of tests as text, and the answers to questions on parts of the solver.
//! A case has files, which are texts by pieces.
//! It has numbers, rows, walks and cuts as words.
#![tactic(auto)]

mod blocks;
mod calls;
mod flows;
mod found;
mod given;
mod networks;
mod nodes;
mod pieces;
mod proposals;
mod questions;
mod reductions;
mod rows;
mod spelling;
mod words;

pub use blocks::cases_of;
pub use calls::times_of;
pub use given::{Case, begin_line};
pub use pieces::bytes_of;
pub use questions::ask_part;
pub use rows::{instance_of, table_of};
pub use spelling::{add_joined, tell_cut, tell_number, tell_pairs};
pub use words::{cut_of, look_up, pairs_of, small, split_word, words_of};
