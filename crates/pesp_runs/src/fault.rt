//! Faults, as lines and as exit statuses.

ghost use Rattle.std.specs.Prelude.{◌≡◌};
ghost use Rattle.pesp_runs.specs.FaultLines.{exit_status};

use pesp_cert::CertRefusal;
use pesp_check::{RefusalText, VerdictFault};
use pesp_instance::ReadRefusal;
use pesp_problem::Memory as NoMemory;
use pesp_report::{NamesRefusal, ReportRefusal, TimesRefusal, ViolationsRefusal};
use pesp_search::SolveRefusal;
use pesp_stream::{ReadFault, WriteFault};
use pesp_whole_check::Refusal;
use std::alloc::AllocError;
use std::fmt;

/// Why a run didn't write its whole answer. A lower layer's refusal of memory is told as `Memory`, and its fault of a
/// writer as `Write`.
#[derive(Drop)]
pub enum Fault {
    /// The text of the instance is refused.
    Instance(ReadRefusal),
    /// The text of the certificate is refused.
    Certificate(CertRefusal),
    /// The text of the times is refused.
    Times(TimesRefusal),
    /// The text of the names is refused.
    Names(NamesRefusal),
    /// The search passes a limit: its table of cycles is too large, or its tree has too many pairs.
    Search(SolveRefusal),
    /// There is no report of the times.
    Report(ReportRefusal),
    /// The certificate to which work from outside belongs isn't valid for the instance.
    Base(Refusal),
    /// The text of works is refused.
    Works(CertRefusal),
    /// The certificate has no open leaf of this number.
    NoJob,
    /// A growth of memory was refused.
    Memory,
    /// A reader failed, or was interrupted more than 1000 times.
    Read,
    /// A writer failed, took no byte, or was interrupted more than 1000 times.
    Write,
    /// A file that was named can't be opened.
    NoFile,
}

impl From<VerdictFault> for Fault {
    ghost use Rattle.std.specs.Prelude.{◌≡◌};
    ghost use Rattle.pesp_runs.specs.FaultLines.{verdict_fault};

    ghost from_gives = { λ found fault. fault ≡ verdict_fault found };

    fn from(found: VerdictFault) -> Fault {
        match found {
            VerdictFault::Instance(refusal) => Fault::Instance(refusal),
            VerdictFault::Certificate(refusal) => Fault::Certificate(refusal),
            VerdictFault::Memory => Fault::Memory,
            VerdictFault::Read => Fault::Read,
            VerdictFault::Write => Fault::Write,
            VerdictFault::NoFile => Fault::NoFile,
        }
    }
}

impl From<CertRefusal> for Fault {
    ghost use Rattle.std.specs.Prelude.{◌≡◌};
    ghost use Rattle.pesp_runs.specs.FaultLines.{certificate_fault};

    ghost from_gives = { λ refusal fault. fault ≡ certificate_fault refusal };

    fn from(refusal: CertRefusal) -> Fault {
        match refusal {
            CertRefusal::Memory => Fault::Memory,
            _ => Fault::Certificate(refusal),
        }
    }
}

impl From<TimesRefusal> for Fault {
    ghost use Rattle.std.specs.Prelude.{◌≡◌};
    ghost use Rattle.pesp_runs.specs.FaultLines.{times_fault};

    ghost from_gives = { λ refusal fault. fault ≡ times_fault refusal };

    fn from(refusal: TimesRefusal) -> Fault {
        match refusal {
            TimesRefusal::Memory => Fault::Memory,
            _ => Fault::Times(refusal),
        }
    }
}

impl From<NamesRefusal> for Fault {
    ghost use Rattle.std.specs.Prelude.{◌≡◌};
    ghost use Rattle.pesp_runs.specs.FaultLines.{names_fault};

    ghost from_gives = { λ refusal fault. fault ≡ names_fault refusal };

    fn from(refusal: NamesRefusal) -> Fault {
        match refusal {
            NamesRefusal::Memory => Fault::Memory,
            _ => Fault::Names(refusal),
        }
    }
}

impl From<SolveRefusal> for Fault {
    ghost use Rattle.std.specs.Prelude.{◌≡◌};
    ghost use Rattle.pesp_runs.specs.FaultLines.{search_fault};

    ghost from_gives = { λ refusal fault. fault ≡ search_fault refusal };

    fn from(refusal: SolveRefusal) -> Fault {
        match refusal {
            SolveRefusal::Memory => Fault::Memory,
            _ => Fault::Search(refusal),
        }
    }
}

impl From<ReportRefusal> for Fault {
    ghost use Rattle.std.specs.Prelude.{◌≡◌};
    ghost use Rattle.pesp_runs.specs.FaultLines.{report_fault};

    ghost from_gives = { λ refusal fault. fault ≡ report_fault refusal };

    fn from(refusal: ReportRefusal) -> Fault {
        match refusal {
            ReportRefusal::Memory => Fault::Memory,
            ReportRefusal::Write => Fault::Write,
            _ => Fault::Report(refusal),
        }
    }
}

impl From<ViolationsRefusal> for Fault {
    ghost use Rattle.std.specs.Prelude.{◌≡◌};
    ghost use Rattle.pesp_runs.specs.FaultLines.{violations_fault};

    ghost from_gives = { λ refusal fault. fault ≡ violations_fault refusal };

    fn from(refusal: ViolationsRefusal) -> Fault {
        match refusal {
            ViolationsRefusal::NotTimes => Fault::Report(ReportRefusal::NotTimes),
            ViolationsRefusal::Memory => Fault::Memory,
            ViolationsRefusal::Write => Fault::Write,
        }
    }
}

impl From<ReadFault> for Fault {
    ghost use Rattle.std.specs.Prelude.{◌≡◌};
    ghost use Rattle.pesp_runs.specs.FaultLines.{read_fault};

    ghost from_gives = { λ refused fault. fault ≡ read_fault refused };

    fn from(refused: ReadFault) -> Fault {
        match refused {
            ReadFault::Memory => Fault::Memory,
            ReadFault::Device => Fault::Read,
        }
    }
}

impl From<WriteFault> for Fault {
    ghost use Rattle.std.specs.Prelude.{◌≡◌};
    ghost use Rattle.pesp_runs.specs.declared.fault.Fault.TheVariants.{Write};

    ghost from_gives = { λ _ fault. fault ≡ Write };

    fn from(_refused: WriteFault) -> Fault {
        Fault::Write
    }
}

impl From<AllocError> for Fault {
    ghost use Rattle.std.specs.Prelude.{◌≡◌};
    ghost use Rattle.pesp_runs.specs.declared.fault.Fault.TheVariants.{Memory};

    ghost from_gives = { λ _ fault. fault ≡ Memory };

    fn from(_refused: AllocError) -> Fault {
        Fault::Memory
    }
}

impl From<NoMemory> for Fault {
    ghost use Rattle.std.specs.Prelude.{◌≡◌};
    ghost use Rattle.pesp_runs.specs.declared.fault.Fault.TheVariants.{Memory};

    ghost from_gives = { λ _ fault. fault ≡ Memory };

    fn from(_refused: NoMemory) -> Fault {
        Fault::Memory
    }
}

/// A refusal of the search: its number and its name.
#[derive(Drop)]
struct SearchLine<'a>(&'a SolveRefusal);

impl fmt::Display for SearchLine<'_> {
    ghost use Rattle.std.specs.Prelude.{Some};
    ghost use Rattle.pesp_runs.specs.FaultLines.{search_line};

    ghost output = { λ line. Some (search_line line.0.now) };

    fn fmt<W: fmt::Write>(&self, f: &mut fmt::Formatter<W>) -> fmt::Result {
        match self.0 {
            SolveRefusal::Memory => f.write_str("1 Memory"),
            SolveRefusal::TableTooLarge => f.write_str("2 TableTooLarge"),
            SolveRefusal::PairsTooMany => f.write_str("3 PairsTooMany"),
        }
    }
}

/// The fault's line, without the line feed at its end.
impl fmt::Display for Fault {
    ghost use Rattle.std.specs.Prelude.{Some};
    ghost use Rattle.pesp_runs.specs.FaultLines.{fault_line};

    ghost output = { λ fault. Some (fault_line fault) };

    fn fmt<W: fmt::Write>(&self, f: &mut fmt::Formatter<W>) -> fmt::Result {
        match self {
            Fault::Instance(refusal) => write!(f, "instance: {refusal}"),
            Fault::Certificate(refusal) => write!(f, "certificate: {refusal}"),
            Fault::Times(refusal) => write!(f, "times: {refusal}"),
            Fault::Names(refusal) => write!(f, "names: {refusal}"),
            Fault::Search(refusal) => {
                let line = SearchLine(refusal);
                write!(f, "search: {line}")
            }
            Fault::Report(refusal) => write!(f, "report: {refusal}"),
            Fault::Base(refusal) => {
                let line = RefusalText(*refusal);
                write!(f, "base: {line}")
            }
            Fault::Works(refusal) => write!(f, "works: {refusal}"),
            Fault::NoJob => f.write_str("job: none"),
            Fault::Memory => f.write_str("memory"),
            Fault::Read => f.write_str("device: read"),
            Fault::Write => f.write_str("device: write"),
            Fault::NoFile => f.write_str("device: no file"),
        }
    }
}

/// The exit status of the program for a fault: 1 for times that violate a row and for a certificate that isn't valid, 3 for a
/// text that is refused and for a job that isn't there, 4 for memory, devices and a search that passes its limits.
pub fn status_of(fault: &Fault) -> u8
    ensures { result ≡ exit_status fault.now }
{
    match fault {
        Fault::Report(_) | Fault::Base(_) => 1,
        Fault::Instance(_)
        | Fault::Certificate(_)
        | Fault::Times(_)
        | Fault::Names(_)
        | Fault::Works(_)
        | Fault::NoJob => 3,
        Fault::Search(_) | Fault::Memory | Fault::Read | Fault::Write | Fault::NoFile => 4,
    }
}
