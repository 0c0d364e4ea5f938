//! Why there is no shelf.

use std::alloc::AllocError;
use std::io::ErrorKind;
use std::{fmt, io};

/// Why a file can't be a shelf.
#[derive(Clone, Copy, PartialEq, Eq, Drop)]
pub enum ShelfRefusal {
    /// Another run has it.
    Taken,
    /// It isn't a regular file, or can't be opened or locked.
    Device,
    /// A growth of memory was refused.
    Memory,
}

impl From<AllocError> for ShelfRefusal {
    fn from(_refused: AllocError) -> ShelfRefusal {
        ShelfRefusal::Memory
    }
}

impl From<io::Error> for ShelfRefusal {
    fn from(error: io::Error) -> ShelfRefusal {
        match error.kind() {
            ErrorKind::OutOfMemory => ShelfRefusal::Memory,
            _ => ShelfRefusal::Device,
        }
    }
}

/// The refusal's line, without the line feed at its end.
impl fmt::Display for ShelfRefusal {
    fn fmt<W: fmt::Write>(&self, f: &mut fmt::Formatter<W>) -> fmt::Result {
        f.write_str(match self {
            ShelfRefusal::Taken => "output: another plan writes this file",
            ShelfRefusal::Device => "output: no file that can be written",
            ShelfRefusal::Memory => "memory",
        })
    }
}
