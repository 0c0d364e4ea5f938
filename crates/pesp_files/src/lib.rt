//! Files and standard input, as runs open, name and read them: the file of a shelf, which one run at a time has for itself, and
//! the files beside it; readers that tell of a header that is passed over, and of times of another period.
//!
//! Nothing is promised of them but safety and an end.
#![tactic(auto)]

mod headed;
mod input;
mod lockable;
mod names;
mod refusal;
mod shelf_file;

pub use headed::Headed;
pub use input::{Beginning, warn_of_period};
pub use lockable::Lockable;
pub use refusal::ShelfRefusal;
pub use shelf_file::ShelfFile;
