//! Why a problem isn't made.

ghost use Rattle.std.specs.Prelude.{◌≡◌};
ghost use Rattle.pesp_nodes.specs.declared.refusal.ProblemRefusal.TheVariants.{Memory as Refused};

use pesp_problem::Memory;
use std::alloc::AllocError;

/// A growth was refused; a walk of the table doesn't close, the first such cycle by its number from 1 (an empty walk, or one
/// along a row that doesn't exist, doesn't close either); or all walks close, and there are more than 100000 cycles or
/// 10000000 signed rows in all.
#[derive(Clone, Copy, Debug, PartialEq, Eq)]
pub enum ProblemRefusal {
    Memory,
    OpenWalk { cycle: u64 },
    TableTooLarge,
}

impl From<Memory> for ProblemRefusal {
    ghost from_gives = { λ _ e. e ≡ Refused };

    fn from(_refused: Memory) -> ProblemRefusal {
        ProblemRefusal::Memory
    }
}

impl From<AllocError> for ProblemRefusal {
    ghost from_gives = { λ _ e. e ≡ Refused };

    fn from(_refused: AllocError) -> ProblemRefusal {
        ProblemRefusal::Memory
    }
}
