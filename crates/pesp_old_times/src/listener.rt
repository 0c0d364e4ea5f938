//! Who is told what became of old times.

use crate::moves::Moves;

/// What became of old times. No promise speaks of it but that it is counted.
#[derive(Clone, Copy, PartialEq, Eq)]
pub struct ToldOldTimes {
    /// How many events there are.
    pub events: usize,
    /// How many of them have no time.
    pub missing: usize,
    /// How many times are told of no event.
    pub strays: u64,
    /// How many activities the times violate.
    pub violated: usize,
    /// How events were moved; None where no timetable was found near to the times.
    pub moves: Option<Moves>,
}

/// Somebody who is told what became of old times.
pub trait Listener {
    /// Called once they are read and repaired.
    fn hears(&mut self, told: ToldOldTimes);

    /// Called where they are those of a certificate of other activities.
    fn finds_others(&mut self);
}
