//! A basis of a dual simplex over the slacks of rows: the columns and lines of a program, where its slacks and lines stand, and
//! the inverse with the changes that are still to be made. Nothing is promised of it but that all is found safely.
#![tactic(auto)]

mod fixed;
mod inverse;
mod lines;
mod members;
mod order;
mod pricing;
mod sparse;
mod standings;
mod state;
mod updates;

pub use fixed::{MOST, ONE, amount, by_whole, is_nothing, over, parts, rounded, times, whole};
pub use inverse::{
    add_row, clear_rows, drop_column, list_numbers, make_zeros, products, read_column, scale_all,
    set_at, take_outer, widen, write_column,
};
pub use lines::{Column, Constraint, cost_at, enter, enter_all, range_at, span_at};
pub use members::{Entering, EnteringCandidate, First, Leaving, Member};
pub use order::{Beside, Order};
pub use sparse::Sparse;
pub use standings::{price_at, sum_along};
pub use state::{Standing, State, VACANT};
pub use updates::{Update, change_column, change_row, make_changes};
