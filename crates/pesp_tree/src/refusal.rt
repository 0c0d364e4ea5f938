//! Why nothing is lent or taken.

use pesp_problem::Memory;
use std::alloc::{AllocError, AllocFailed};

/// Why no leaf is lent: a growth was refused; or a leaf is open, and 1000000 numbers are spent.
#[derive(Clone, Copy, Debug, PartialEq, Eq)]
pub enum LendRefusal {
    Memory,
    NumbersSpent,
}

impl From<Memory> for LendRefusal {
    ghost use Rattle.std.specs.Prelude.{◌≡◌};
    ghost use Rattle.pesp_tree.specs.declared.refusal.LendRefusal.TheVariants.{Memory};

    ghost from_gives = { λ _ refusal. refusal ≡ Memory };

    fn from(_refused: Memory) -> LendRefusal {
        LendRefusal::Memory
    }
}

impl From<AllocError> for LendRefusal {
    ghost use Rattle.std.specs.Prelude.{◌≡◌};
    ghost use Rattle.pesp_tree.specs.declared.refusal.LendRefusal.TheVariants.{Memory};

    ghost from_gives = { λ _ refusal. refusal ≡ Memory };

    fn from(_refused: AllocError) -> LendRefusal {
        LendRefusal::Memory
    }
}

impl<T: Drop> From<AllocFailed<T>> for LendRefusal {
    ghost use Rattle.std.specs.Prelude.{◌≡◌};
    ghost use Rattle.pesp_tree.specs.declared.refusal.LendRefusal.TheVariants.{Memory};

    ghost from_gives = { λ _ refusal. refusal ≡ Memory };

    fn from(_refused: AllocFailed<T>) -> LendRefusal {
        LendRefusal::Memory
    }
}

/// Why what is given isn't taken.
///
/// `UnknownJob`: the number was never lent, or was recalled. `AlreadyGiven`: something was taken for it before. `NotValid`:
/// at the job's node the pairs of a `Leaf` have no value, a `Nothing`, a `Gap` or a `Propagated` isn't sound, or a cut leaves
/// a side of its range no value; or pairs don't rise, or break their limits, or a row or a cycle doesn't exist; or the lines of a `Tree`
/// aren't one whole tree, or a bound leaf of it has no value at its node or one below that of the leaf that is replaced.
/// `Memory`: a growth was refused. `TooLarge`: the tree would have more than 1000000 lines or 20000000 pairs. After a refusal
/// nothing has changed; after `NotValid`, `Memory` and `TooLarge` the job is still lent.
#[derive(Clone, Copy, Debug, PartialEq, Eq)]
pub enum GiveRefusal {
    UnknownJob,
    AlreadyGiven,
    NotValid,
    Memory,
    TooLarge,
}

impl From<Memory> for GiveRefusal {
    ghost use Rattle.std.specs.Prelude.{◌≡◌};
    ghost use Rattle.pesp_tree.specs.declared.refusal.GiveRefusal.TheVariants.{Memory};

    ghost from_gives = { λ _ refusal. refusal ≡ Memory };

    fn from(_refused: Memory) -> GiveRefusal {
        GiveRefusal::Memory
    }
}

impl From<AllocError> for GiveRefusal {
    ghost use Rattle.std.specs.Prelude.{◌≡◌};
    ghost use Rattle.pesp_tree.specs.declared.refusal.GiveRefusal.TheVariants.{Memory};

    ghost from_gives = { λ _ refusal. refusal ≡ Memory };

    fn from(_refused: AllocError) -> GiveRefusal {
        GiveRefusal::Memory
    }
}

impl<T: Drop> From<AllocFailed<T>> for GiveRefusal {
    ghost use Rattle.std.specs.Prelude.{◌≡◌};
    ghost use Rattle.pesp_tree.specs.declared.refusal.GiveRefusal.TheVariants.{Memory};

    ghost from_gives = { λ _ refusal. refusal ≡ Memory };

    fn from(_refused: AllocFailed<T>) -> GiveRefusal {
        GiveRefusal::Memory
    }
}
