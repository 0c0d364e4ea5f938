//! Trees of certificates with marked walks, as trees over what is left of an instance, and back: walks lifted and lowered, lines
//! kept as they are, and scales of multipliers. Nothing is promised of them: the certificates that they lead to are judged.
#![tactic(auto)]

mod base;
mod copies;
mod kept;
mod left;
mod lifted;
mod lines;
mod lowered;
mod marked;
mod region_lemmas;
mod scales;

pub use base::given_of;
pub use copies::{copied_lemmas, copied_lines, copied_marks, copied_walks};
pub use kept::KeptLines;
pub use left::Left;
pub use lifted::{lifted_of, offset_shifts};
pub use lines::{CertificateNumbers, lines_of, some_wants_scale};
pub use marked::{marked_of, scale_walk};
pub use region_lemmas::{crossing_walks, lemmas_of_regions, region_leaf};
pub use scales::{scale_for, scale_over};
