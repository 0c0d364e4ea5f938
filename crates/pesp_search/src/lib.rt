//! Branch and bound for periodic timetables: a timetable with a certificate of how good it is (Odijk 1996; Nachtigall and
//! Opitz 2008; Liebchen 2006).
//!
//! What a search that sharpens asks for, whoever proposes it: certificates whose leaves name marked walks beside cycles
//! (Nachtigall 1998; Lindner and others 2020). Nothing is promised of what is proposed: others judge it.
#![tactic(auto)]

mod begun;
mod given_times;
mod leaves;
mod lifted_problem;
mod look;
mod pace;
mod planted_forest;
mod proposals;
mod race;
mod refusal;
mod root;
mod sharpener;
mod single;
mod solution;
mod standing;

pub use leaves::Leaves;
pub use look::{FirstLook, look_first};
pub use pace::Pace;
pub use pesp_turns::{Nobody, Observer, SearchPhase};
pub use proposals::Proposals;
pub use refusal::SolveRefusal;
pub use sharpener::Sharpener;
pub use solution::{Solved, solve_from, solve_watched};
pub use standing::{SharpWatcher, Standing, Unwatched};
