//! Why a text is no certificate's.

ghost use Rattle.std.specs.Prelude.{◌≡◌};
ghost use Rattle.pesp_cert.specs.Refusals.{refusal_at};

use pesp_cert_lines::LineFault;
use pesp_problem::Memory;
use std::error::Error;
use std::fmt;

/// Why a text is no certificate's: the first fault of its first line with a fault. Lines are numbered from 1.
#[derive(Clone, Copy, Debug, PartialEq, Eq)]
pub enum CertRefusal {
    /// The first line is not that of a certificate.
    Header,
    /// Line `n` has no form that may stand at its place.
    Line { n: u64 },
    /// A word of line `n` is not spelt as its kind says, a multiplier is 0, or its pairs do not rise.
    Number { n: u64 },
    /// A number or a count passes its limit with line `n`, or the line has more than 100,000,000 bytes.
    Limit { n: u64 },
    /// The text ends before its last line is whole, or before the tree is.
    Truncated,
    /// Line `n` begins behind the end of the certificate.
    Trailing { n: u64 },
    /// A growth was refused.
    Memory,
}

/// A refusal of a certificate's text: its number, its name and its line, as `3 Number line 9`.
impl fmt::Display for CertRefusal {
    ghost use Rattle.std.specs.Prelude.{Some};
    ghost use Rattle.pesp_cert.specs.RefusalLines.{certificate_line};

    ghost output = { λ refusal. Some (certificate_line refusal) };

    fn fmt<W: fmt::Write>(&self, f: &mut fmt::Formatter<W>) -> fmt::Result {
        match self {
            CertRefusal::Header => f.write_str("1 Header"),
            CertRefusal::Line { n } => write!(f, "2 Line line {n}"),
            CertRefusal::Number { n } => write!(f, "3 Number line {n}"),
            CertRefusal::Limit { n } => write!(f, "4 Limit line {n}"),
            CertRefusal::Truncated => f.write_str("5 Truncated"),
            CertRefusal::Trailing { n } => write!(f, "6 Trailing line {n}"),
            CertRefusal::Memory => f.write_str("7 Memory"),
        }
    }
}

impl Error for CertRefusal {}

impl From<Memory> for CertRefusal {
    ghost use Rattle.std.specs.Prelude.{◌≡◌};
    ghost use Rattle.pesp_cert.specs.declared.refusal.CertRefusal.TheVariants as refusals;

    ghost from_gives = { λ _ e. e ≡ refusals.Memory };

    fn from(_refused: Memory) -> CertRefusal {
        CertRefusal::Memory
    }
}

/// The fault of line `n` as one of the text: a first line that has one is not that of a certificate.
pub fn refusal_at(n: u64, fault: LineFault) -> CertRefusal
    ensures { result ≡ refusal_at n fault }
{
    if n == 1 {
        return CertRefusal::Header;
    }
    match fault {
        LineFault::Truncated => CertRefusal::Truncated,
        LineFault::Line => CertRefusal::Line { n },
        LineFault::Number => CertRefusal::Number { n },
        LineFault::Limit => CertRefusal::Limit { n },
    }
}
