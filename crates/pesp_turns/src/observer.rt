//! Observers of a search.

use pesp_board::Board;

/// A part of a search that comes before its first turn.
#[derive(Clone, Copy, PartialEq, Eq)]
pub enum SearchPhase {
    /// What is left of the instance is found.
    Reduction,
    /// A spanning forest of what is left is looked for.
    Forest,
    /// The root of the tree is looked at.
    Root,
    /// First times are looked for.
    Times,
}

/// Somebody who looks on while a search goes on. No promise of the search speaks of observers: what they see is for people
/// who wait, and nothing that they do changes what is found.
pub trait Observer {
    /// Called when a part of the search begins that comes before its first turn.
    fn at(&mut self, part: SearchPhase);

    /// Called before the first turn of a search and after each turn, with the number of leaves that were split so far and the
    /// board as it stands.
    fn look(&mut self, steps_used: u32, board: &Board);
}

/// An observer that looks at nothing.
#[derive(Clone, Copy, PartialEq, Eq)]
pub struct Nobody;

impl Observer for Nobody {
    fn at(&mut self, _part: SearchPhase) {}

    fn look(&mut self, _steps_used: u32, _board: &Board) {}
}
