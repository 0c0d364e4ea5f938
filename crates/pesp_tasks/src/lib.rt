//! What the program does of an instance, of times or of a certificate: each command that searches, goes on, or works from outside, as
//! a task of a run; and the runs of single commands.
#![tactic(auto)]

mod gap;
mod gap_json;
mod gap_text;
mod graft;
pub mod laws;
mod replies;
mod resume;
mod savings;
mod sharp_graft;
mod sharp_resume;
mod sharp_solve;
mod sharp_split;
mod sharp_work;
mod solve;
mod split;
mod work;

pub use gap::Gap;
pub use gap_json::GapJson;
pub use graft::{Graft, run_graft};
pub use resume::Resume;
pub use sharp_graft::GraftSharp;
pub use sharp_resume::ResumeSharp;
pub use sharp_solve::SolveSharp;
pub use sharp_split::SplitSharp;
pub use sharp_work::WorkSharp;
pub use solve::Solve;
pub use split::{Split, run_split};
pub use work::WorkTask;
