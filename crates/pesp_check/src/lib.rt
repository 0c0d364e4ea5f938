//! The check of a certificate's text while it is read, one line after another.
//!
//! The checker's run, over any readers and writers. It reads an instance and the text of a certificate, and writes a verdict's
//! line. The lines of its faults and the exit statuses stand here too.
//!
//! Standard error as a writer, and texts that are told on it.
#![tactic(auto)]

mod check_fault;
mod checker_run;
mod elements;
mod fault;
mod judge;
mod lemma_lines;
mod marks_draft;
mod said_line;
mod stage;
mod teller;
mod telling;
mod text_check;
mod verdict;
mod whole_instance;

pub use check_fault::CheckFault;
pub use checker_run::{run_check, run_check_of, run_check_sharp};
pub use fault::{VerdictFault, status_of};
pub use pesp_whole_check::{Refusal, Verdict, check, check_sharp};
pub use teller::{Telling, teller_of};
pub use telling::tell;
pub use text_check::{check_text, check_text_of};
pub use verdict::{RefusalText, status_of_verdict, write_verdict};
pub use whole_instance::read_whole_instance;
