//! Why a network or its table isn't given.

use pesp_problem::Memory;
use std::alloc::{AllocError, AllocFailed};

/// A growth was refused; the walks of the table have more than 10000000 signed rows; or a row breaks its limits (row 0
/// where the period or the number of events does).
#[derive(Clone, Copy, Debug, PartialEq, Eq)]
pub enum NetRefusal {
    Memory,
    TableTooLarge,
    BadRow { row: u32 },
}

impl From<Memory> for NetRefusal {
    ghost use Rattle.std.specs.Prelude.{◌≡◌};
    ghost use Rattle.pesp_network.specs.declared.refusal.NetRefusal.TheVariants.{Memory};

    ghost from_gives = { λ _ e. e ≡ Memory };

    fn from(_refused: Memory) -> NetRefusal {
        NetRefusal::Memory
    }
}

impl From<AllocError> for NetRefusal {
    ghost use Rattle.std.specs.Prelude.{◌≡◌};
    ghost use Rattle.pesp_network.specs.declared.refusal.NetRefusal.TheVariants.{Memory};

    ghost from_gives = { λ _ e. e ≡ Memory };

    fn from(_refused: AllocError) -> NetRefusal {
        NetRefusal::Memory
    }
}

impl<T: Drop> From<AllocFailed<T>> for NetRefusal {
    ghost use Rattle.std.specs.Prelude.{◌≡◌};
    ghost use Rattle.pesp_network.specs.declared.refusal.NetRefusal.TheVariants.{Memory};

    ghost from_gives = { λ _ e. e ≡ Memory };

    fn from(_refused: AllocFailed<T>) -> NetRefusal {
        NetRefusal::Memory
    }
}
