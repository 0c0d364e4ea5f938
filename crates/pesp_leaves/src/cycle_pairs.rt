//! The pairs of a leaf that name cycles.

ghost use Rattle.std.specs.Prelude.{◌≡◌, [], ◌∷◌};
ghost use Rattle.pesp_truth.specs.Named.{of_cycles};

use crate::elements::Elements;
use pesp_problem::Pair;

/// The pairs that name one of so many cycles and are still to come.
#[derive(Clone, Copy)]
pub struct CyclePairs<P> {
    pub cycles: usize,
    pub pairs: P,
}

impl<P: Elements<Pair>> Elements<Pair> for CyclePairs<P> {
    ghost elements = { λ c. of_cycles c.cycles (P.elements c.pairs) };

    fn take_next(&mut self) -> Option<Pair> {
        let mut left = self.pairs;
        while let Some(pair) = left.take_next() {
            if pair.cycle as usize <= self.cycles {
                self.pairs = left;
                return Some(pair);
            }
        }
        None
    }
}
