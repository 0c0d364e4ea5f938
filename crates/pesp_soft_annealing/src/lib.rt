//! Makes the slacks of a timetable cheaper by an anneal in which spans may be broken, at a price that rises, over the components
//! of forests that are drawn. What stays broken is mended, and an anneal in which spans hold ends it. Nothing is promised of what
//! it finds but that it is found safely.
#![tactic(auto)]

mod charts;
mod components;
mod curve;
mod moving;
mod plan;
mod scale;
mod settings;
mod shifts;
mod soft_annealer;
mod stars;
mod tent;

pub use plan::{AnnealPlan, Cooling};
pub use soft_annealer::SoftAnnealer;
