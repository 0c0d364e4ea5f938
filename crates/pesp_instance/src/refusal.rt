//! Why a text is no instance.

ghost use Rattle.std.specs.Prelude.{◌≡◌};
ghost use Rattle.pesp_instance.specs.declared.refusal.ReadRefusal.TheVariants.{Memory};

use std::alloc::{AllocError, AllocFailed};
use std::error::Error;
use std::fmt;

/// Why a text is no instance. `at` is the record's number, from 1 on, and records that are skipped count; `field` is the
/// number of the field in it, from 1 on.
#[derive(Clone, Copy, Debug, PartialEq, Eq)]
pub enum ReadRefusal {
    /// The period isn't from 1 to 10000.
    Period,
    /// The text has more than 16777216 bytes.
    TextTooLong,
    /// The record has neither six fields nor a blank seventh one.
    FieldCount { at: u32 },
    /// The field spells no number.
    NotANumber { at: u32, field: u32 },
    /// The field's number is past its limits.
    OutOfRange { at: u32, field: u32 },
    /// The lower bound is above the upper bound.
    BoundsCrossed { at: u32 },
    /// The record would be row 100001.
    TooManyRows { at: u32 },
    /// The record would bring the events above 100000.
    TooManyEvents { at: u32 },
    /// A growth was refused.
    Memory,
}

/// A refusal of an instance's text: its number, its name and its place, as
/// `4 NotANumber record 3 field 6`.
impl fmt::Display for ReadRefusal {
    ghost use Rattle.std.specs.Prelude.{Some};
    ghost use Rattle.pesp_instance.specs.RefusalLines.{instance_line};

    ghost output = { λ refusal. Some (instance_line refusal) };

    fn fmt<W: fmt::Write>(&self, f: &mut fmt::Formatter<W>) -> fmt::Result {
        match self {
            ReadRefusal::Period => f.write_str("1 Period"),
            ReadRefusal::TextTooLong => f.write_str("2 TextTooLong"),
            ReadRefusal::FieldCount { at } => write!(f, "3 FieldCount record {at}"),
            ReadRefusal::NotANumber { at, field } => {
                write!(f, "4 NotANumber record {at} field {field}")
            }
            ReadRefusal::OutOfRange { at, field } => {
                write!(f, "5 OutOfRange record {at} field {field}")
            }
            ReadRefusal::BoundsCrossed { at } => write!(f, "6 BoundsCrossed record {at}"),
            ReadRefusal::TooManyRows { at } => write!(f, "7 TooManyRows record {at}"),
            ReadRefusal::TooManyEvents { at } => write!(f, "8 TooManyEvents record {at}"),
            ReadRefusal::Memory => f.write_str("9 Memory"),
        }
    }
}

impl Error for ReadRefusal {}

impl From<AllocError> for ReadRefusal {
    ghost from_gives = { λ _ e. e ≡ Memory };

    fn from(_refused: AllocError) -> ReadRefusal {
        ReadRefusal::Memory
    }
}

impl<T: Drop> From<AllocFailed<T>> for ReadRefusal {
    ghost from_gives = { λ _ e. e ≡ Memory };

    fn from(_refused: AllocFailed<T>) -> ReadRefusal {
        ReadRefusal::Memory
    }
}
