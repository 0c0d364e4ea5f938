//! A dual simplex over the slacks of rows (Lemke 1954; with bounds that flip, Maros 2003): the least weighted slack, under
//! lines whose sums are within ranges. It is warm: ranges may change, and lines come and go, and the multipliers stay right. It
//! works in whole numbers, of which 2^36 make up one. Nothing is promised of it but that all is found safely.
#![tactic(auto)]

mod bordering;
mod exchange;
mod moves;
mod names;
mod ratios;
mod rebuilding;
mod refreshing;
mod saving;
mod simplex;
mod solving;
mod tableau;

pub use names::BasisNames;
pub use simplex::Simplex;
pub use solving::SolveStatus;
