//! The lines of a certificate's text: what one line says at its place, or its first fault.
#![tactic(auto)]

mod fault;
mod item;
mod judge;
mod kind;
mod kinds;
mod line;
mod marked;
mod pairs;
mod progress;
mod rows;
mod versions;

pub use fault::LineFault;
pub use item::Item;
pub use line::take_line;
pub use marked::{MarkedRows, first_marked};
pub use pairs::{LinePairs, first_pair};
pub use progress::{Place, Progress};
pub use rows::{SignedRows, first_row};
pub use versions::Versions;
