//! Certificates: what a solver claims with what shows it, as one value with one text.
#![tactic(auto)]

mod certificate;
mod draft;
mod front;
mod front_draft;
mod front_limits;
mod front_printer;
mod fronted;
pub mod laws;
mod limits;
mod number;
mod printer;
mod reader;
mod refusal;
mod shown_lemma;

pub use certificate::{Certificate, NotACertificate};
pub use draft::Draft;
pub use front::{Front, NotAFront};
pub use front_draft::FrontDraft;
pub use front_printer::print_fronted;
pub use fronted::Fronted;
pub use number::{Number, Whole};
pub use pesp_cert_lines::Versions;
pub use pesp_problem::{Pair, Pairs, SignedRow, Walk};
pub use pesp_truth::{Answer, Marks, NotMarks, TreeLine};
pub use printer::{print, print_times, print_tree};
pub use reader::{parse, parse_fronted, parse_text};
pub use refusal::{CertRefusal, refusal_at};
pub use shown_lemma::ShownLemma;
