//! Why a text tells no names.

ghost use Rattle.std.specs.Prelude.{◌≡◌};
ghost use Rattle.pesp_report.specs.declared.names_refusal.NamesRefusal.TheVariants.{Memory};

use std::alloc::{AllocError, AllocFailed};
use std::error::Error;
use std::fmt;

/// Why a text tells no names. `at` is the record's number, from 1 on, and records that are skipped count.
#[derive(Clone, Copy, Debug, PartialEq, Eq)]
pub enum NamesRefusal {
    /// The text has more than 16777216 bytes.
    TextTooLong,
    /// The record has fewer than two fields, or more than five that aren't blank.
    FieldCount { at: u32 },
    /// The first field spells no number, or the fifth no distance.
    NotANumber { at: u32 },
    /// A name, a line or a station is no UTF-8 text.
    NotText { at: u32 },
    /// A growth was refused.
    Memory,
}

/// A refusal of a text of names: its number, its name and its record.
impl fmt::Display for NamesRefusal {
    ghost use Rattle.std.specs.Prelude.{Some};
    ghost use Rattle.pesp_report.specs.NamesRefusalLines.{names_line};

    ghost output = { λ refusal. Some (names_line refusal) };

    fn fmt<W: fmt::Write>(&self, f: &mut fmt::Formatter<W>) -> fmt::Result {
        match self {
            NamesRefusal::TextTooLong => f.write_str("1 TextTooLong"),
            NamesRefusal::FieldCount { at } => write!(f, "2 FieldCount record {at}"),
            NamesRefusal::NotANumber { at } => write!(f, "3 NotANumber record {at}"),
            NamesRefusal::NotText { at } => write!(f, "4 NotText record {at}"),
            NamesRefusal::Memory => f.write_str("5 Memory"),
        }
    }
}

impl Error for NamesRefusal {}

impl From<AllocError> for NamesRefusal {
    ghost from_gives = { λ _ e. e ≡ Memory };

    fn from(_refused: AllocError) -> NamesRefusal {
        NamesRefusal::Memory
    }
}

impl<T: Drop> From<AllocFailed<T>> for NamesRefusal {
    ghost from_gives = { λ _ e. e ≡ Memory };

    fn from(_refused: AllocFailed<T>) -> NamesRefusal {
        NamesRefusal::Memory
    }
}
