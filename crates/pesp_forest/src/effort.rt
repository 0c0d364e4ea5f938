//! How much is done before the first step.

/// How much a search for timetables does before the first step: one timetable of a plain dive, annealed a little, so that the first
/// batch comes later, piece by piece, with less work where there are many activities; or the whole first batch.
#[derive(Clone, Copy, PartialEq, Eq)]
pub enum Effort {
    Short,
    Whole,
}
