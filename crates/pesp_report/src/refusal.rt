//! Why there are no times or no report.

ghost use Rattle.std.specs.Prelude.{◌≡◌};
ghost use Rattle.pesp_report.specs.declared.refusal.TimesRefusal.TheVariants as times;
ghost use Rattle.pesp_report.specs.declared.refusal.ReportRefusal.TheVariants as report;
ghost use Rattle.pesp_report.specs.declared.refusal.ViolationsRefusal.TheVariants as violations;

use pesp_problem::Memory;
use std::alloc::AllocFailed;
use std::error::Error;
use std::fmt;

/// Why a text gives no times.
#[derive(Clone, Copy, Debug, PartialEq, Eq)]
pub enum TimesRefusal {
    /// Line `n`, from 1 on, begins with `time ` and isn't `time LABEL TIME` with the label of the next event and a time
    /// below the period; there may be no next event.
    BadLine { n: u64 },
    /// The text ends before all events have their times.
    WrongCount,
    /// A growth was refused.
    Memory,
}

/// A refusal of a times text: its number, its name and its line.
impl fmt::Display for TimesRefusal {
    ghost use Rattle.std.specs.Prelude.{Some};
    ghost use Rattle.pesp_report.specs.RefusalLines.{times_line};

    ghost output = { λ refusal. Some (times_line refusal) };

    fn fmt<W: fmt::Write>(&self, f: &mut fmt::Formatter<W>) -> fmt::Result {
        match self {
            TimesRefusal::BadLine { n } => write!(f, "1 BadLine line {n}"),
            TimesRefusal::WrongCount => f.write_str("2 WrongCount"),
            TimesRefusal::Memory => f.write_str("3 Memory"),
        }
    }
}

impl Error for TimesRefusal {}

impl<T: Drop> From<AllocFailed<T>> for TimesRefusal {
    ghost from_gives = { λ _ e. e ≡ times.Memory };

    fn from(_refused: AllocFailed<T>) -> TimesRefusal {
        TimesRefusal::Memory
    }
}

/// Why there is no whole report.
#[derive(Clone, Copy, Debug, PartialEq, Eq)]
pub enum ReportRefusal {
    /// Row `row`, from 1 on, is the first one that isn't satisfied.
    Violates { row: u32 },
    /// There isn't one time below the period for each event.
    NotTimes,
    /// A growth was refused.
    Memory,
    /// The writer failed.
    Write,
}

/// A refusal of a report: its number, its name and its row.
impl fmt::Display for ReportRefusal {
    ghost use Rattle.std.specs.Prelude.{Some};
    ghost use Rattle.pesp_report.specs.RefusalLines.{report_line};

    ghost output = { λ refusal. Some (report_line refusal) };

    fn fmt<W: fmt::Write>(&self, f: &mut fmt::Formatter<W>) -> fmt::Result {
        match self {
            ReportRefusal::Violates { row } => write!(f, "1 Violates row {row}"),
            ReportRefusal::NotTimes => f.write_str("2 NotTimes"),
            ReportRefusal::Memory => f.write_str("3 Memory"),
            ReportRefusal::Write => f.write_str("4 Write"),
        }
    }
}

impl Error for ReportRefusal {}

impl From<Memory> for ReportRefusal {
    ghost from_gives = { λ _ e. e ≡ report.Memory };

    fn from(_refused: Memory) -> ReportRefusal {
        ReportRefusal::Memory
    }
}

/// Why the violated activities aren't told.
#[derive(Clone, Copy, PartialEq, Eq)]
pub enum ViolationsRefusal {
    /// There isn't one time below the period for each event.
    NotTimes,
    /// A growth was refused.
    Memory,
    /// The writer failed.
    Write,
}

impl From<Memory> for ViolationsRefusal {
    ghost from_gives = { λ _ e. e ≡ violations.Memory };

    fn from(_refused: Memory) -> ViolationsRefusal {
        ViolationsRefusal::Memory
    }
}
