//! Faults of the checker's run, as lines and as exit statuses.

ghost use Rattle.std.specs.Prelude.{◌≡◌};
ghost use Rattle.pesp_check.specs.FaultLines.{verdict_exit_status};

use crate::check_fault::CheckFault;
use pesp_cert::CertRefusal;
use pesp_instance::ReadRefusal;
use pesp_stream::{ReadFault, WriteFault};
use std::alloc::AllocError;
use std::fmt;

/// Why there is no verdict. A refusal of memory is told as `Memory`, whatever asked for it.
#[derive(Drop)]
pub enum VerdictFault {
    /// The text of the instance is refused.
    Instance(ReadRefusal),
    /// The text of the certificate is refused.
    Certificate(CertRefusal),
    /// A growth of memory was refused.
    Memory,
    /// A reader failed, or was interrupted more than 1000 times.
    Read,
    /// The writer failed, took no byte, or was interrupted more than 1000 times.
    Write,
    /// A file that was named can't be opened.
    NoFile,
}

impl From<ReadRefusal> for VerdictFault {
    ghost use Rattle.std.specs.Prelude.{◌≡◌};
    ghost use Rattle.pesp_check.specs.FaultLines.{instance_fault};

    ghost from_gives = { λ refusal fault. fault ≡ instance_fault refusal };

    fn from(refusal: ReadRefusal) -> VerdictFault {
        match refusal {
            ReadRefusal::Memory => VerdictFault::Memory,
            _ => VerdictFault::Instance(refusal),
        }
    }
}

impl From<CheckFault> for VerdictFault {
    ghost use Rattle.std.specs.Prelude.{◌≡◌};
    ghost use Rattle.pesp_check.specs.FaultLines.{check_fault};

    ghost from_gives = { λ found fault. fault ≡ check_fault found };

    fn from(found: CheckFault) -> VerdictFault {
        match found {
            CheckFault::Text(refusal) => VerdictFault::Certificate(refusal),
            CheckFault::Read => VerdictFault::Read,
            CheckFault::Memory => VerdictFault::Memory,
        }
    }
}

impl From<ReadFault> for VerdictFault {
    ghost use Rattle.std.specs.Prelude.{◌≡◌};
    ghost use Rattle.pesp_check.specs.FaultLines.{read_fault};

    ghost from_gives = { λ refused fault. fault ≡ read_fault refused };

    fn from(refused: ReadFault) -> VerdictFault {
        match refused {
            ReadFault::Memory => VerdictFault::Memory,
            ReadFault::Device => VerdictFault::Read,
        }
    }
}

impl From<WriteFault> for VerdictFault {
    ghost use Rattle.std.specs.Prelude.{◌≡◌};
    ghost use Rattle.pesp_check.specs.declared.fault.VerdictFault.TheVariants.{Write};

    ghost from_gives = { λ _ fault. fault ≡ Write };

    fn from(_refused: WriteFault) -> VerdictFault {
        VerdictFault::Write
    }
}

impl From<AllocError> for VerdictFault {
    ghost use Rattle.std.specs.Prelude.{◌≡◌};
    ghost use Rattle.pesp_check.specs.declared.fault.VerdictFault.TheVariants.{Memory};

    ghost from_gives = { λ _ fault. fault ≡ Memory };

    fn from(_refused: AllocError) -> VerdictFault {
        VerdictFault::Memory
    }
}

/// The fault's line, without the line feed at its end.
impl fmt::Display for VerdictFault {
    ghost use Rattle.std.specs.Prelude.{Some};
    ghost use Rattle.pesp_check.specs.FaultLines.{verdict_fault_line};

    ghost output = { λ fault. Some (verdict_fault_line fault) };

    fn fmt<W: fmt::Write>(&self, f: &mut fmt::Formatter<W>) -> fmt::Result {
        match self {
            VerdictFault::Instance(refusal) => write!(f, "instance: {refusal}"),
            VerdictFault::Certificate(refusal) => write!(f, "certificate: {refusal}"),
            VerdictFault::Memory => f.write_str("memory"),
            VerdictFault::Read => f.write_str("device: read"),
            VerdictFault::Write => f.write_str("device: write"),
            VerdictFault::NoFile => f.write_str("device: no file"),
        }
    }
}

/// The exit status of the program for a fault: 3 for a text that is refused, 4 for memory and devices.
pub fn status_of(fault: &VerdictFault) -> u8
    ensures { result ≡ verdict_exit_status fault.now }
{
    match fault {
        VerdictFault::Instance(_) | VerdictFault::Certificate(_) => 3,
        VerdictFault::Memory | VerdictFault::Read | VerdictFault::Write | VerdictFault::NoFile => 4,
    }
}
