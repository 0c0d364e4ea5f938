//! Cycles with multipliers.

ghost use Rattle.std.specs.Prelude.{◌≡◌};

use std::marker::Model;

/// A cycle of a table, numbered from 1, and its multiplier.
#[derive(Clone, Copy, PartialEq, Eq)]
pub struct Pair {
    pub cycle: u32,
    pub mult: i64,
}

/// The pairs of a leaf, in order.
#[derive(Drop)]
pub struct Pairs {
    pairs: Vec<Pair>,
}

impl Model for Pairs {
    ghost use Rattle.std.specs.Prelude.{List};
    ghost use Rattle.pesp_problem.specs.declared.pair.Pair.{Pair};

    ghost Value = { List Pair };

    ghost view = { λ p. p.pairs.items };
}

impl Pairs {
    /// The list of these pairs.
    pub fn new(pairs: Vec<Pair>) -> Pairs
        ensures { result ≡ pairs.items }
    {
        Pairs { pairs }
    }

    /// The pairs in order.
    pub fn as_slice(&self) -> &[Pair]
        ensures { result.now ≡ self.now }
    {
        &self.pairs
    }
}
