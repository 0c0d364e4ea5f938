//! How far a search that sharpens is, and who looks on.

/// How far a search that sharpens is.
#[derive(Clone, Copy, PartialEq, Eq)]
pub struct Standing {
    /// How many leaves were split.
    pub steps_used: u32,
    /// What each leaf that is open is worth at least.
    pub bound: u64,
    /// The cost of the best timetable so far.
    pub cost: Option<u64>,
}

/// Somebody who looks on while a search sharpens, and may end it. No promise of the search speaks of watchers; an end that comes
/// early leaves what was found by then.
pub trait SharpWatcher {
    /// Called before the first step, after each step, after each look at a leaf that was taken up, and after each piece of a search
    /// for timetables; whether the search goes on.
    fn goes_on(&mut self, standing: Standing) -> bool;
}

/// A watcher that looks at nothing, and ends nothing.
#[derive(Clone, Copy, PartialEq, Eq)]
pub struct Unwatched;

impl SharpWatcher for Unwatched {
    fn goes_on(&mut self, _standing: Standing) -> bool {
        true
    }
}
