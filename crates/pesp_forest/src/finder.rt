//! What finds timetables.

use crate::effort::Effort;
use pesp_network::Network;
use pesp_problem::Memory;

/// Somebody who looks for timetables of one network at a time, once one is named. No promise of a search speaks of finders: what
/// they find is judged, and nothing that they do makes an answer wrong.
pub trait TimesFinder {
    /// From now on it looks for timetables of this network, and has found nothing. The whole first batch is made before the first
    /// step, unless another effort is set.
    fn look_at(&mut self, network: &Network) -> Result<(), Memory>;

    /// Whether it looks for timetables of a network.
    fn is_looking(&self) -> bool;

    /// So much is done before the first step.
    fn set_effort(&mut self, effort: Effort);

    /// What is found before the first step of a search. It doesn't depend on any step limit.
    fn begin(&mut self) -> Result<(), Memory>;

    /// Whether the first batch is made piece by piece and isn't over.
    fn owes_first(&self) -> bool;

    /// Makes what is left of the first batch, where it is made piece by piece.
    fn end_first(&mut self) -> Result<(), Memory>;

    /// What is found after so many steps (128, 256, 512 and so on).
    fn go_on(&mut self, steps: u32) -> Result<(), Memory>;

    /// Takes times that were met elsewhere as an individual of the next batch; does nothing where they are no timetable.
    fn take(&mut self, times: Vec<u32>) -> Result<(), Memory>;

    /// The cheapest times that were found.
    fn best(&self) -> Result<Option<Vec<u32>>, Memory>;

    /// How many numbers were looked at so far, about: a measure of work that needs no clock.
    fn work(&self) -> u64;

    /// Whether an anneal has begun that isn't over.
    fn is_annealing(&self) -> bool;

    /// Makes the next piece of a batch; where a batch is over, of the next one.
    fn make_piece(&mut self) -> Result<(), Memory>;
}
