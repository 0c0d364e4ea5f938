//! Who looks on while a plan is made.

use pesp_problem::Instance;
use pesp_search::{Observer, SharpWatcher};
use pesp_truth::Answer;

/// Somebody who looks on while a plan is made, and says when it ends: as a watcher of the search it ends a piece of it. No promise
/// of a plan speaks of overseers.
pub trait Overseer: Observer + SharpWatcher {
    /// Called once the instance is read.
    fn begins(&mut self, instance: &Instance);

    /// Called behind each piece of the search, with what is known by then; whether one more follows.
    fn goes_further(&mut self, answer: Answer) -> bool;

    /// Called where memory was refused, which ends the search; what is known by then stays.
    fn lacks_memory(&mut self);

    /// Called at the end.
    fn ends(&mut self, answer: Answer);
}
