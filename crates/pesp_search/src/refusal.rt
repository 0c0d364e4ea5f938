//! Why nothing is answered.

use pesp_problem::Memory;
use std::alloc::AllocError;
use thiserror::Error;

/// Why an instance isn't solved.
#[derive(Clone, Copy, Debug, PartialEq, Eq, Error)]
pub enum SolveRefusal {
    /// A growth was refused.
    #[error("out of memory")]
    Memory,
    /// The table of cycles would have more than 10000000 signed rows.
    #[error("the table of cycles is too large")]
    TableTooLarge,
    /// The tree would have more than 20000000 pairs.
    #[error("the tree would have too many pairs")]
    PairsTooMany,
}

impl From<Memory> for SolveRefusal {
    ghost use Rattle.std.specs.Prelude.{◌≡◌};
    ghost use Rattle.pesp_search.specs.declared.refusal.SolveRefusal.TheVariants.{Memory};

    ghost from_gives = { λ _ e. e ≡ Memory };

    fn from(_refused: Memory) -> SolveRefusal {
        SolveRefusal::Memory
    }
}

impl From<AllocError> for SolveRefusal {
    ghost use Rattle.std.specs.Prelude.{◌≡◌};
    ghost use Rattle.pesp_search.specs.declared.refusal.SolveRefusal.TheVariants.{Memory};

    ghost from_gives = { λ _ e. e ≡ Memory };

    fn from(_refused: AllocError) -> SolveRefusal {
        SolveRefusal::Memory
    }
}
