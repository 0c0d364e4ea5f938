//! Why a text has no verdict.

use pesp_cert::CertRefusal;
use pesp_cert_items::ItemFault;
use pesp_problem::Memory;
use std::alloc::AllocError;

/// Why a text has no verdict: it is no certificate's, the reader failed, or a growth was refused.
#[derive(Clone, Copy, PartialEq, Eq)]
pub enum CheckFault {
    /// The text is no certificate's, by this first fault; it is never `Memory`.
    Text(CertRefusal),
    /// The reader failed.
    Read,
    /// A growth was refused.
    Memory,
}

impl From<AllocError> for CheckFault {
    ghost use Rattle.std.specs.Prelude.{◌≡◌};
    ghost use Rattle.pesp_check.specs.declared.check_fault.CheckFault.TheVariants as faults;

    ghost from_gives = { λ _ e. e ≡ faults.Memory };

    fn from(_refused: AllocError) -> CheckFault {
        CheckFault::Memory
    }
}

impl From<Memory> for CheckFault {
    ghost use Rattle.std.specs.Prelude.{◌≡◌};
    ghost use Rattle.pesp_check.specs.declared.check_fault.CheckFault.TheVariants as faults;

    ghost from_gives = { λ _ e. e ≡ faults.Memory };

    fn from(_refused: Memory) -> CheckFault {
        CheckFault::Memory
    }
}

impl From<ItemFault> for CheckFault {
    ghost use Rattle.std.specs.Prelude.{◌≡◌};
    ghost use Rattle.pesp_check.specs.CheckFaults.{fault_of};

    ghost from_gives = { λ f e. e ≡ fault_of f };

    fn from(fault: ItemFault) -> CheckFault {
        match fault {
            ItemFault::Text(CertRefusal::Memory) => CheckFault::Memory,
            ItemFault::Text(refusal) => CheckFault::Text(refusal),
            ItemFault::Read => CheckFault::Read,
        }
    }
}
