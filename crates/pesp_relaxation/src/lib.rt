//! The relaxation of a leaf: circulations on rows whose cost bends twice, by a primal network simplex that goes on from
//! where it stood. Nothing is promised of what it finds but that it is found safely: a leaf's value is judged by others.
#![tactic(auto)]

mod basis;
mod best_leaf;
mod changes;
mod given_flows;
mod listed;
mod pivots;
mod rebuilt_basis;
mod root;
mod row;
mod saved_basis;

pub use basis::{Basis, PivotEnd};
pub use best_leaf::{MOST_PIVOTS, settle};
pub use changes::RowChange;
pub use root::{Root, root_slacks};
pub use row::{Slopes, slopes_of};
