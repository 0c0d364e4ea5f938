//! Why no work is handed in.

use pesp_problem::Memory;
use thiserror::Error;

/// Why a leaf isn't worked on.
#[derive(Clone, Copy, Debug, PartialEq, Eq, Error)]
pub enum WorkRefusal {
    /// A growth was refused.
    #[error("out of memory")]
    Memory,
    /// The certificate has no more open leaves than the number of the job.
    #[error("there is no such job")]
    NoSuchJob,
}

impl From<Memory> for WorkRefusal {
    ghost use Rattle.std.specs.Prelude.{◌≡◌};
    ghost use Rattle.pesp_worker.specs.declared.refusal.WorkRefusal.TheVariants.{Memory};

    ghost from_gives = { λ _ e. e ≡ Memory };

    fn from(_refused: Memory) -> WorkRefusal {
        WorkRefusal::Memory
    }
}
