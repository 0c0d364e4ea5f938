//! A linear program over the slacks of rows: the least weighted slack, under inequalities that are sums of slacks times whole
//! coefficients. Multipliers of the inequalities are found by restarted primal-dual steps (Halpern 1967; Chambolle and Pock
//! 2011; Lu and Yang 2024). Any multipliers give a lower bound, their value. Nothing is promised of them but that they are
//! found safely.
#![tactic(auto)]

mod course;
mod inequality;
mod moved;
mod passes;
mod point;
mod program;
mod rows;
mod scales;
mod steps;
mod values;

pub use inequality::{Multiplier, Term};
pub use point::{Point, Save};
pub use program::Program;
