//! Why nothing can be fixed as it is asked.

use std::alloc::{AllocError, AllocFailed};
use std::fmt;

/// Why there is no instance with what is asked. `at` is the number of the word between commas, from 1 on.
#[derive(Clone, Copy, PartialEq, Eq)]
pub enum FixRefusal {
    /// The word is neither `LABEL` nor `LABEL=TIME`.
    BadWord { at: u32 },
    /// The instance has no event with this label.
    NoEvent { at: u32 },
    /// The time isn't below the period.
    NotBelowPeriod { at: u32 },
    /// No event of the instance stands on this line.
    NoLine { at: u32 },
    /// The instance has too many activities, or events, with those that fix.
    TooLarge,
    /// A growth was refused.
    Memory,
}

impl From<AllocError> for FixRefusal {
    fn from(_refused: AllocError) -> FixRefusal {
        FixRefusal::Memory
    }
}

impl<T: Drop> From<AllocFailed<T>> for FixRefusal {
    fn from(_refused: AllocFailed<T>) -> FixRefusal {
        FixRefusal::Memory
    }
}

impl fmt::Display for FixRefusal {
    fn fmt<W: fmt::Write>(&self, f: &mut fmt::Formatter<W>) -> fmt::Result {
        match *self {
            FixRefusal::BadWord { at } => write!(f, "fix: 1 BadWord {at}"),
            FixRefusal::NoEvent { at } => write!(f, "fix: 2 NoEvent {at}"),
            FixRefusal::NotBelowPeriod { at } => write!(f, "fix: 3 NotBelowPeriod {at}"),
            FixRefusal::NoLine { at } => write!(f, "fix: 4 NoLine {at}"),
            FixRefusal::TooLarge => f.write_str("fix: 5 TooLarge"),
            FixRefusal::Memory => f.write_str("memory"),
        }
    }
}
