//! The modulo network simplex (Nachtigall and Opitz 2008): makes a timetable cheaper until no shift of a cut helps.
#![tactic(auto)]

mod improved;
mod improvement;
mod settle;

pub use improved::{Improved, SimplexRefusal, Stop};
pub use improvement::improve;
