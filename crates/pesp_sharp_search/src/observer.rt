//! Observers of a search that sharpens.

use pesp_search::{Nobody, Observer, SharpWatcher, Standing};

/// Somebody who looks on while a search goes on and sharpens. No promise of the search speaks of observers.
pub trait SharpObserver: Observer {
    /// Called once the root is sharpened, after each step, and after each piece of the first search for timetables.
    fn stands(&mut self, standing: Standing);
}

impl SharpObserver for Nobody {
    fn stands(&mut self, _standing: Standing) {}
}

/// A watcher that tells an observer, and ends nothing.
#[derive(Drop)]
pub(crate) struct Observing<'a, O> {
    pub(crate) observer: &'a mut O,
}

impl<O: SharpObserver> SharpWatcher for Observing<'_, O> {
    fn goes_on(&mut self, standing: Standing) -> bool {
        self.observer.stands(standing);
        true
    }
}
