//! Shifts of cuts that make times cheaper, tried over forests drawn at random (Nachtigall and Opitz 2008). Nothing is promised
//! of what is found but that it is found safely: times and forest are judged by others.
#![tactic(auto)]

mod descent;
mod drawing;
mod low;
mod moves;
mod planting;
mod stars;

pub use descent::{Descent, numbers_for};
pub use low::{Low, count_rows};
pub use stars::empty_lists;
