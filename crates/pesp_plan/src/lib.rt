//! A plan: the best timetable and bound that are found in the time there is, written at its end, or kept where others read it while
//! it is made. The file in which its certificate stands, whole at every moment.
#![tactic(auto)]

mod file_shelf;
mod kept_plan;
mod on_standing;
mod plan;
mod pursuit;
mod shelf;

pub use file_shelf::FileShelf;
pub use kept_plan::KeptPlan;
pub use on_standing::run_on_standing;
pub use plan::Plan;
pub use shelf::Shelf;
